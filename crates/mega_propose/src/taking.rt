//! What a round leads to that takes a message from a node.
ghost use Rattle.std.specs.Prelude.{◌≡◌, IfOk};
ghost use Rattle.mega_propose.specs.Rounds.{is_here, sees, takes};

use crate::moves::stays;
use crate::round::{Move, Proposal, Site};
use crate::votes::vote_round;
use mega_base::{GroupId, NoMemory, OpId, Position};
use mega_entry::{is_same_group, is_same_op};
use mega_wire::Body;
use std::alloc::Global;

impl Site {
    /// Whether a message is for this place.
    fn is_here(&self, op: OpId, group: &GroupId, position: Position) -> bool
        ensures { result ≡ is_here self.now op group.now position }
    {
        is_same_op(self.op, op) && is_same_group(&self.group, group) && position.0 == self.position
    }
}

impl Proposal {
    /// The proposal that has seen this round.
    fn sees(self, round: u32) -> Proposal
        ensures { result ≡ sees self round }
    {
        Proposal {
            own: self.own,
            seen: self.seen.max(round),
            round: self.round,
        }
    }

    /// What the round leads to that takes a message from a node.
    pub fn takes(
        self,
        alloc: Global,
        site: &Site,
        from: u8,
        now: u64,
        body: &Body,
    ) -> Result<Move, NoMemory>
        ensures { IfOk result (λ made. made ≡ takes site.now self from now body.now) }
    {
        match body {
            Body::Accepted {
                op,
                group,
                position,
                ballot,
                entry,
            } if site.is_here(*op, group, *position) => self
                .sees(ballot.round)
                .accepted(alloc, site, from, now, *ballot, entry),
            Body::Refused {
                op,
                group,
                position,
                asked,
                shown,
                ..
            } if site.is_here(*op, group, *position) => self
                .sees(asked.round.max(shown.round))
                .refused(alloc, site, now),
            Body::Promise {
                op,
                group,
                position,
                ballot,
                accepted,
            } if site.is_here(*op, group, *position) => self
                .sees(ballot.round.max(vote_round(accepted)))
                .promised(alloc, site, from, now, *ballot, accepted),
            Body::Invalidated {
                op,
                group,
                position,
            } if site.is_here(*op, group, *position) => self.invalidated(alloc, site, from),
            Body::Unheld { op, cell, node } if is_same_op(site.op, *op) && from == *cell => {
                self.unheld(alloc, site, *cell, node.0)
            }
            Body::Accept {
                op,
                group,
                position,
                ballot,
                ..
            } if site.is_here(*op, group, *position) => Ok(self.sees(ballot.round).stays(alloc)),
            Body::Prepare {
                op,
                group,
                position,
                ballot,
            } if site.is_here(*op, group, *position) => Ok(self.sees(ballot.round).stays(alloc)),
            _ => Ok(self.stays(alloc)),
        }
    }
}
