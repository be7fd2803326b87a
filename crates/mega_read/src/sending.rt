//! The messages of a read: questions for top positions and for entries.
ghost use Rattle.std.specs.Prelude.{◌≡◌, map, IfOk};
ghost use Rattle.mega_read.specs.Catching.{fetch_to, helpers, message, where_to};

use crate::reading::Reader;
use mega_base::{Copied, Items, NoMemory, Position};
use mega_propose::mega_wire::{Body, Message};
use mega_propose::others;
use std::alloc::Global;

impl Reader {
    /// A message of the read.
    fn message(&self, to: u8, body: Body) -> Message
        ensures { result ≡ message self.now to body }
    {
        Message {
            from: self.op.node.0,
            to,
            body,
        }
    }

    /// Asks a voter for its top position.
    fn where_to(&self, alloc: Global, to: u8) -> Result<Message, NoMemory>
        ensures { IfOk result (λ sent. sent ≡ where_to self.now to) }
    {
        let group = self.group.copy(alloc)?;
        Ok(self.message(to, Body::Where { op: self.op, group }))
    }

    /// Asks a voter for the entry of a position.
    fn fetch_to(&self, alloc: Global, position: u64, to: u8) -> Result<Message, NoMemory>
        ensures { IfOk result (λ sent. sent ≡ fetch_to self.now position to) }
    {
        let group = self.group.copy(alloc)?;
        Ok(self.message(
            to,
            Body::Fetch {
                op: self.op,
                group,
                position: Position(position),
            },
        ))
    }

    /// Asks these voters for their top positions.
    pub(crate) fn asks_where(&self, alloc: Global, nodes: &[u8]) -> Result<Items<Message>, NoMemory>
        ensures { IfOk result (λ sends. sends ≡ map (where_to self.now) nodes.now) }
    {
        let mut sends = Items::new(alloc);
        for node in nodes {
            let sent = self.where_to(alloc, *node)?;
            sends.push(sent)?;
        }
        Ok(sends)
    }

    /// Asks these voters for the entry of a position.
    pub(crate) fn asks_for(
        &self,
        alloc: Global,
        position: u64,
        nodes: &[u8],
    ) -> Result<Items<Message>, NoMemory>
        ensures { IfOk result (λ sends. sends ≡ map (fetch_to self.now position) nodes.now) }
    {
        let mut sends = Items::new(alloc);
        for node in nodes {
            let sent = self.fetch_to(alloc, position, *node)?;
            sends.push(sent)?;
        }
        Ok(sends)
    }

    /// The voters that can be asked for an entry.
    pub(crate) fn helpers(&self, alloc: Global) -> Result<Items<u8>, NoMemory>
        ensures { IfOk result (λ nodes. nodes ≡ helpers self.now) }
    {
        others(alloc, self.op.node.0, self.voters.as_slice())
    }
}
