//! What a read comes to that takes a message from a node.
ghost use Rattle.std.specs.Prelude.{◌≡◌, ◌&&◌, ◌==◌, None, Some, IfOk};
ghost use Rattle.mega_propose.specs.Members.{has};
ghost use Rattle.mega_propose.specs.of_wal.Same.{same_group, same_op};
ghost use Rattle.mega_read.specs.Catching.{hears, helpers, topped};
ghost use Rattle.mega_read.specs.declared.reading.Search.TheVariants.{Fetching, Filling};
ghost use Rattle.mega_read.specs.declared.reading.Stage.TheVariants.{Catching, Polling};

use crate::kept::ReadBase;
use crate::reading::{Move, Reader, Reading, Search, Stage};
use mega_base::{GroupId, Items, NoMemory, OpId};
use mega_propose::mega_wire::Body;
use mega_propose::{Proposal, greatest_top, has, is_majority, is_same_group, is_same_op};
use std::alloc::Global;

impl Reader {
    /// Whether an answer is for this read.
    fn is_asked(&self, op: OpId, group: &GroupId) -> bool
        ensures { result ≡ (same_op self.now.op op && same_group self.now.group group.now) }
    {
        is_same_op(self.op, op) && is_same_group(&self.group, group)
    }

    /// Whether a node is a voter that can be asked for an entry.
    #[tactic(auto, using(crate::proofs::Helpers::has_others))]
    fn is_helper(&self, node: u8) -> bool
        ensures { result ≡ has node (helpers self.now) }
    {
        node != self.op.node.0 && has(node, self.voters.as_slice())
    }

    /// A voter told its top position: its first answer counts, and of the first majority the greatest position.
    fn topped(
        &self,
        alloc: Global,
        kept: ReadBase,
        from: u8,
        top: u64,
        heard: Items<u8>,
        best: u64,
        sent: u64,
    ) -> Result<Move, NoMemory>
        ensures { IfOk result (λ made. made ≡ topped self.now (record { noted = kept.noted; asked = kept.asked; stage = Polling heard best sent }) from top heard best sent) }
    {
        if has(from, heard.as_slice()) || !has(from, self.voters.as_slice()) {
            return Ok(kept.at(Stage::Polling { heard, best, sent }, Items::new(alloc)));
        }
        let best = greatest_top(best, top);
        let mut heard = heard;
        heard.push(from)?;
        if is_majority(self.voters.len(), heard.len()) {
            let stage = Stage::Catching {
                through: best,
                search: None,
            };
            return Ok(kept.at(stage, Items::new(alloc)));
        }
        Ok(kept.at(Stage::Polling { heard, best, sent }, Items::new(alloc)))
    }

    /// What a poll comes to.
    fn hears_polling(
        &self,
        alloc: Global,
        kept: ReadBase,
        from: u8,
        body: &Body,
        heard: Items<u8>,
        best: u64,
        sent: u64,
    ) -> Result<Move, NoMemory>
        ensures { IfOk result (λ made. made ≡ hears self.now (record { noted = kept.noted; asked = kept.asked; stage = Polling heard best sent }) from 0 body.now) }
    {
        match body {
            Body::Top {
                op,
                group,
                position,
            } if self.is_asked(*op, group) => {
                self.topped(alloc, kept, from, position.0, heard, best, sent)
            }
            _ => Ok(kept.at(Stage::Polling { heard, best, sent }, Items::new(alloc))),
        }
    }

    /// What a fetch comes to.
    fn hears_fetching(
        &self,
        alloc: Global,
        kept: ReadBase,
        from: u8,
        now: u64,
        body: &Body,
        through: u64,
        position: u64,
        denied: Items<u8>,
        sent: u64,
    ) -> Result<Move, NoMemory>
        ensures { IfOk result (λ made. made ≡ hears self.now (record { noted = kept.noted; asked = kept.asked; stage = Catching through (Some (Fetching position denied sent)) }) from now body.now) }
    {
        match body {
            Body::HaveNot {
                op,
                group,
                position: none,
            } if self.is_asked(*op, group) && none.0 == position && self.is_helper(from) => {
                self.denied(alloc, kept, from, through, position, denied, sent, now)
            }
            _ => Ok(kept.at(
                Stage::fetching(through, position, denied, sent),
                Items::new(alloc),
            )),
        }
    }

    /// What the round of a no-op comes to.
    fn hears_filling(
        &self,
        alloc: Global,
        kept: ReadBase,
        from: u8,
        now: u64,
        body: &Body,
        through: u64,
        position: u64,
        proposal: Proposal,
    ) -> Result<Move, NoMemory>
        ensures { IfOk result (λ made. made ≡ hears self.now (record { noted = kept.noted; asked = kept.asked; stage = Catching through (Some (Filling position proposal)) }) from now body.now) }
    {
        match self.site(alloc, &kept.asked, position) {
            Ok(site) => {
                let round = proposal.takes(alloc, &site, from, now, body)?;
                Ok(kept.filled(through, position, round))
            }
            Err(refused) => {
                drop(kept);
                drop(proposal);
                Err(refused)
            }
        }
    }
}

impl Reading {
    /// What the read comes to that takes a message from a node.
    pub fn hears(
        self,
        alloc: Global,
        who: &Reader,
        from: u8,
        now: u64,
        body: &Body,
    ) -> Result<Move, NoMemory>
        ensures { IfOk result (λ made. made ≡ hears who.now self from now body.now) }
    {
        let Reading {
            noted,
            asked,
            stage,
        } = self;
        let kept = ReadBase { noted, asked };
        match stage {
            Stage::Polling { heard, best, sent } => {
                who.hears_polling(alloc, kept, from, body, heard, best, sent)
            }
            Stage::Catching {
                through,
                search: None,
            } => Ok(kept.at(
                Stage::Catching {
                    through,
                    search: None,
                },
                Items::new(alloc),
            )),
            Stage::Catching {
                through,
                search: Some(
                    Search::Fetching {
                        position,
                        denied,
                        sent,
                    },
                ),
            } => who.hears_fetching(
                alloc, kept, from, now, body, through, position, denied, sent,
            ),
            Stage::Catching {
                through,
                search: Some(Search::Filling { position, proposal }),
            } => who.hears_filling(alloc, kept, from, now, body, through, position, proposal),
        }
    }
}
