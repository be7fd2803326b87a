//! What is decided on a tape: each log's positions, and the longest prefix of each group.
ghost use Rattle.std.specs.Prelude.{◌≡◌, ◌∷◌, [], List, OnOk};
ghost use Rattle.mega_entry.specs.declared.content.Content.{Content};
ghost use Rattle.mega_transcript.specs.declared.item.Item.{Item as OnTape};
ghost use Rattle.mega_transcript.specs.declared.item.Item.TheVariants.{Decide};
ghost use Rattle.mega_tally.specs.Deciding.{Keeps};

use crate::logs::{Logs, decide, no_logs};
use crate::longest::{Longest, lengthen, none_longest};
use mega_base::{GroupId, NoMemory, NodeId, Position};
use mega_transcript::Item;
use std::alloc::Global;

/// What is decided.
#[derive(Drop)]
pub(crate) struct Decided {
    logs: Logs,
    pub(crate) longest: Longest,
}

impl Decided {
    /// Nothing is decided.
    pub(crate) fn new(alloc: Global) -> Decided
        ensures { Keeps result [] }
    {
        Decided {
            logs: no_logs(alloc),
            longest: none_longest(alloc),
        }
    }

    /// A position of a group is decided at a node.
    fn decide(
        &mut self,
        alloc: Global,
        node: NodeId,
        group: &GroupId,
        position: Position,
    ) -> Result<(), NoMemory>
        ensures { OnOk result ((tape : List OnTape) (entry : Content) → Keeps self.old tape → Keeps self.new (Decide node group.now position entry ∷ tape)) }
    {
        let last = decide(alloc, &mut self.logs, node, group, position)?;
        lengthen(alloc, &mut self.longest, group, last)?;
        Ok(())
    }

    /// Keeps what an item decides, if it decides a position.
    pub(crate) fn count(&mut self, alloc: Global, item: &Item) -> Result<(), NoMemory>
        ensures { OnOk result ((tape : List OnTape) → Keeps self.old tape → Keeps self.new (item.now ∷ tape)) }
    {
        match item {
            Item::Decide {
                node,
                group,
                position,
                ..
            } => self.decide(alloc, *node, group, *position),
            _ => Ok(()),
        }
    }
}
