//! What stays of an operation while its phase goes on.
ghost use Rattle.std.specs.Prelude.{◌≡◌};
ghost use Rattle.mega_rules.specs.Operations as rules;
ghost use Rattle.mega_operations.specs.Phases.{phase_of, promised_of};
ghost use Rattle.mega_operations.specs.Whole.{whole};

use crate::operation::{Heard, Operation};
use crate::phase::{Phase, Promised};
use mega_base::{GroupId, Items, OpId};
use mega_entry::Enter;
use mega_outcome::Request;
use mega_wire::Message;

/// What stays of an operation while its phase goes on.
#[derive(Debug, Drop)]
pub struct OperationBase {
    pub id: OpId,
    pub request: Request,
    pub began: u64,
    pub visited: Items<GroupId>,
    pub message: Option<Enter>,
}

impl Operation {
    /// What stays of the operation, and its phase.
    pub fn parts(self) -> (OperationBase, Phase)
        ensures { whole result.0 (phase_of result.1) ≡ self }
    {
        let Operation {
            id,
            request,
            began,
            visited,
            message,
            phase,
        } = self;
        let kept = OperationBase {
            id,
            request,
            began,
            visited,
            message,
        };
        (kept, phase)
    }
}

impl OperationBase {
    /// The operation in a phase.
    pub fn in_phase(self, phase: Phase) -> Operation
        ensures { result ≡ whole self (phase_of phase) }
    {
        let OperationBase {
            id,
            request,
            began,
            visited,
            message,
        } = self;
        Operation {
            id,
            request,
            began,
            visited,
            message,
            phase,
        }
    }

    /// The operation in a phase, and what it sends for that.
    fn heard(self, phase: Phase, sends: Items<Message>) -> Heard
        ensures { result ≡ record { operation = whole self (phase_of phase); sends = sends } }
    {
        let operation = self.in_phase(phase);
        Heard { operation, sends }
    }

    /// The read of the operation goes on.
    pub(crate) fn reads(self, group: GroupId, made: mega_read::Move) -> Heard
        ensures { result ≡ record { operation = whole self (rules.Reads group made.reading); sends = made.sends } }
    {
        let mega_read::Move { reading, sends } = made;
        self.heard(Phase::Reads { group, reading }, sends)
    }

    /// The round of the operation goes on.
    pub(crate) fn proposes(
        self,
        group: GroupId,
        position: u64,
        asked: Items<u8>,
        promised: Promised,
        made: mega_propose::Move,
    ) -> Heard
        ensures { result ≡ record { operation = whole self (rules.Proposes group position asked made.proposal (promised_of promised)); sends = made.sends } }
    {
        let mega_propose::Move { proposal, sends } = made;
        let phase = Phase::Proposes {
            group,
            position,
            asked,
            proposal,
            promised,
        };
        self.heard(phase, sends)
    }
}
