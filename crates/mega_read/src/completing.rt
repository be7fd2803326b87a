//! Completes a position: its entry is fetched, and where there is none a no-op is proposed.
ghost use Rattle.std.specs.Prelude.{◌≡◌, None, IfOk};
ghost use Rattle.std.specs.List.{list_all};
ghost use Rattle.mega_propose.specs.Members.{has};
ghost use Rattle.mega_read.specs.Catching.{denied, fetches, fills, helpers, no_op, site};
ghost use Rattle.mega_read.specs.declared.reading.Stage.TheVariants.{Catching};

use crate::kept::ReadBase;
use crate::reading::{Move, Reader, Stage};
use mega_base::{Copied, Items, NoMemory};
use mega_entry::{Content, Entry};
use mega_propose::{Site, has, with_node};
use std::alloc::Global;

impl Reader {
    /// A no-op: it names its proposer's node as the next leader, and nothing else.
    fn no_op(&self, alloc: Global) -> Result<Entry, NoMemory>
        ensures { IfOk result (λ entry. entry ≡ no_op self.now) }
    {
        let content = Content {
            id: None,
            leader: self.op.node,
            writes: Items::new(alloc),
            sends: Items::new(alloc),
            enters: Items::new(alloc),
            handles: Items::new(alloc),
            cuts: Items::new(alloc),
        };
        Entry::new(alloc, content)
    }

    /// Where the read proposes a no-op.
    pub fn site(&self, alloc: Global, asked: &Items<u8>, position: u64) -> Result<Site, NoMemory>
        ensures { IfOk result (λ made. made ≡ site self.now asked.now position) }
    {
        let group = self.group.copy(alloc)?;
        let voters = self.voters.copy(alloc)?;
        let full = self.full.copy(alloc)?;
        let asked = asked.copy(alloc)?;
        Ok(Site {
            op: self.op,
            group,
            position,
            voters,
            full,
            cells: self.cells,
            asked,
        })
    }

    /// A no-op is proposed at a position.
    pub(crate) fn fills(
        &self,
        alloc: Global,
        kept: ReadBase,
        through: u64,
        position: u64,
        now: u64,
    ) -> Result<Move, NoMemory>
        ensures { IfOk result (λ made. made ≡ fills self.now (record { noted = kept.noted; asked = kept.asked; stage = Catching through None }) through position now) }
    {
        let site = self.site(alloc, &kept.asked, position)?;
        let own = self.no_op(alloc)?;
        let round = site.completes(alloc, own, now)?;
        Ok(kept.filled(through, position, round))
    }

    /// An entry is fetched from all other voters; where there is none, a no-op is proposed at once.
    pub(crate) fn fetches(
        &self,
        alloc: Global,
        kept: ReadBase,
        through: u64,
        position: u64,
        now: u64,
    ) -> Result<Move, NoMemory>
        ensures { IfOk result (λ made. made ≡ fetches self.now (record { noted = kept.noted; asked = kept.asked; stage = Catching through None }) through position now) }
    {
        let helpers = self.helpers(alloc)?;
        if helpers.is_empty() {
            return self.fills(alloc, kept, through, position, now);
        }
        let sends = self.asks_for(alloc, position, helpers.as_slice())?;
        let denied = Items::new(alloc);
        Ok(kept.at(Stage::fetching(through, position, denied, now), sends))
    }

    /// Whether all voters that can be asked for an entry said that they have none.
    fn is_denied(&self, alloc: Global, denials: &[u8]) -> Result<bool, NoMemory>
        ensures { IfOk result (λ all. all ≡ list_all (λ voter. has voter denials.now) (helpers self.now)) }
    {
        let helpers = self.helpers(alloc)?;
        Ok(has_all(helpers.as_slice(), denials))
    }

    /// A voter has not decided the position: once all others said so, a no-op is proposed.
    pub(crate) fn denied(
        &self,
        alloc: Global,
        kept: ReadBase,
        from: u8,
        through: u64,
        position: u64,
        denials: Items<u8>,
        sent: u64,
        now: u64,
    ) -> Result<Move, NoMemory>
        ensures { IfOk result (λ made. made ≡ denied self.now (record { noted = kept.noted; asked = kept.asked; stage = Catching through None }) from through position denials sent now) }
    {
        let denials = with_node(from, denials)?;
        if self.is_denied(alloc, denials.as_slice())? {
            return self.fills(alloc, kept, through, position, now);
        }
        let stage = Stage::fetching(through, position, denials, sent);
        Ok(kept.at(stage, Items::new(alloc)))
    }
}

/// Whether all of these nodes are among those.
fn has_all(nodes: &[u8], those: &[u8]) -> bool
    ensures { result ≡ list_all (λ node. has node those.now) nodes.now }
{
    nodes.iter().all(|node| has(*node, those))
}
