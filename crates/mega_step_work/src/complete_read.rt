//! An operation whose current read of a group is complete through a position.
ghost use Rattle.std.specs.Prelude.{◌≡◌};
ghost use Rattle.mega_rules.specs.Operations.{Now};
ghost use Rattle.mega_rules.specs.Acting.{ends, keeps};
ghost use Rattle.mega_step_work.specs.Actions.{does};
ghost use Rattle.mega_step_work.specs.Reaching.{operation_of};

use crate::action::{Action, End};
use mega_base::GroupId;
use mega_operations::{OperationBase, Phase};
use mega_outcome::Answer;
use mega_read::Reading;

/// An operation whose current read of a group is complete through a position.
#[derive(Debug, Drop)]
pub struct CompleteRead {
    pub kept: OperationBase,
    pub group: GroupId,
    pub reading: Reading,
    pub position: u64,
}

impl CompleteRead {
    /// The operation stays open as it is.
    pub fn stays(self) -> Action
        ensures { (now : Now) → does now result ≡ keeps now (operation_of self) }
    {
        let CompleteRead {
            kept,
            group,
            reading,
            position: _,
        } = self;
        let operation = kept.in_phase(Phase::Reads { group, reading });
        Action {
            sends: None,
            end: End::Stays(operation),
        }
    }

    /// The operation ends with an answer.
    pub fn ends(self, answer: Answer) -> Action
        ensures { (now : Now) → does now result ≡ ends now self.kept.id answer }
    {
        let op = self.kept.id;
        drop(self);
        Action {
            sends: None,
            end: End::Ends(op, answer),
        }
    }
}
