//! The open operations of a node when it takes a message: those before the first that the message is for are left as they are.
ghost use Rattle.std.specs.Prelude.{◌≡◌, map};
ghost use Rattle.mega_rules.specs.Steps.{first_settled};
ghost use Rattle.mega_step_parts.specs.Listening.{unheard};

use mega_base::Items;
use mega_step_work::mega_operations::{Decision, Heard, Operation, first_settled};
use std::marker::Model;

/// The open operations of a node when it takes a message: those before the first that the message is for, as they were, and
/// what the others come to. Contracts see what all come to.
#[derive(Debug, Drop)]
pub struct Listeners {
    pub unmoved: Items<Operation>,
    pub heard: Items<Heard>,
}

impl Model for Listeners {
    ghost use Rattle.std.specs.Prelude.{List, map, ◌++◌};
    ghost use Rattle.mega_rules.specs.Steps as rules;
    ghost use Rattle.mega_step_parts.specs.Listening.{unheard};

    ghost Value = { List rules.Heard };

    ghost view = { λ l. map unheard l.unmoved ++ l.heard };
}

/// What the first of these operations settled that settled anything, where none hears anything.
fn first_settled_before(operations: &[Operation]) -> Option<Decision<'_>>
    ensures { result ≡ first_settled (map unheard operations.now) }
{
    match operations {
        [] => None,
        [first, rest @ ..] => match first.settled() {
            Some(decision) => Some(decision),
            None => first_settled_before(rest),
        },
    }
}

impl Listeners {
    /// What the first of the operations settled that settled anything.
    #[tactic(auto, using(crate::proofs::Parted::settled_of_both))]
    pub(crate) fn first_settled(&self) -> Option<Decision<'_>>
        ensures { result ≡ first_settled self.now }
    {
        match first_settled_before(self.unmoved.as_slice()) {
            Some(decision) => Some(decision),
            None => first_settled(self.heard.as_slice()),
        }
    }
}
