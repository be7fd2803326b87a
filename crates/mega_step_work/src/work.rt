//! What a step has come to: operations, groups that became valid, answers and messages.
ghost use Rattle.std.specs.Prelude.{◌≡◌, ◌++◌, [], IfOk, OnOk};
ghost use Rattle.mega_rules.specs.Operations.{Now};
ghost use Rattle.mega_step_work.specs.Completed.{completed};
ghost use Rattle.mega_step_work.specs.Actions.{does, ended_by, said};
ghost use Rattle.mega_step_work.specs.Working.{work_of};

use crate::action::{Action, End};
use mega_base::{Copied, GroupId, Items, NoMemory, OpId};
use mega_operations::Operation;
use mega_outcome::Answer;
use mega_wire::Message;
use std::alloc::Global;
use std::marker::Model;

/// A group that is valid at its reader's coordinator, at a position. Contracts see what its node notes.
#[derive(Debug, Drop)]
pub struct Valid {
    pub group: GroupId,
    pub position: u64,
}

impl Model for Valid {
    ghost use Rattle.mega_rules.specs.Met.{Met, Validates};

    ghost Value = { Met };

    ghost view = { λ v. Validates v.group v.position };
}

/// The answer of an operation. Contracts see what its node notes.
#[derive(Debug, Drop)]
pub struct Answered {
    pub op: OpId,
    pub answer: Answer,
}

impl Model for Answered {
    ghost use Rattle.mega_rules.specs.Met.{Answers, Met};

    ghost Value = { Met };

    ghost view = { λ a. Answers a.op a.answer };
}

/// What a step has come to: the operations that stay open, the groups that became valid, the answers, and what is sent.
#[derive(Debug, Drop)]
pub struct Work {
    pub kept: Items<Operation>,
    pub valid: Items<Valid>,
    pub answers: Items<Answered>,
    pub sends: Items<Message>,
}

/// Adds messages behind these.
fn extend(sends: &mut Items<Message>, more: Items<Message>) -> Result<(), NoMemory>
    ensures { OnOk result (sends.new ≡ sends.old ++ more) }
{
    if sends.is_empty() {
        *sends = more;
        return Ok(());
    }
    for message in more.into_vec() {
        sends.push(message)?;
    }
    Ok(())
}

impl Work {
    /// A step that has come to nothing yet, with room for so many operations that stay open.
    pub fn new(alloc: Global, operations: usize) -> Result<Work, NoMemory>
        ensures { IfOk result (λ work. work ≡ record { kept = []; valid = []; answers = []; sends = [] }) }
    {
        let kept = Items::with_capacity(alloc, operations)?;
        Ok(Work {
            kept,
            valid: Items::new(alloc),
            answers: Items::new(alloc),
            sends: Items::new(alloc),
        })
    }

    /// Adds messages, where there are any.
    pub fn says(&mut self, sends: Option<Items<Message>>) -> Result<(), NoMemory>
        ensures { OnOk result ((now : Now) → self.old ≡ work_of now → self.new ≡ work_of (said now sends)) }
    {
        match sends {
            Some(more) => {
                extend(&mut self.sends, more)?;
                Ok(())
            }
            None => Ok(()),
        }
    }

    /// Adds an operation that stays open, or the answer of one that ends.
    fn ends(&mut self, end: End) -> Result<(), NoMemory>
        ensures { OnOk result ((now : Now) → self.old ≡ work_of now → self.new ≡ work_of (ended_by now end)) }
    {
        match end {
            End::Stays(operation) => {
                self.kept.push(operation)?;
                Ok(())
            }
            End::Ends(op, answer) => {
                self.answers.push(Answered { op, answer })?;
                Ok(())
            }
        }
    }

    /// Adds what an operation does.
    pub fn does(&mut self, action: Action) -> Result<(), NoMemory>
        ensures { OnOk result ((now : Now) → self.old ≡ work_of now → self.new ≡ work_of (does now action)) }
    {
        let Action { sends, end } = action;
        match self.says(sends) {
            Ok(()) => {
                self.ends(end)?;
                Ok(())
            }
            Err(refused) => {
                drop(end);
                Err(refused)
            }
        }
    }

    /// Adds that a group was made valid where its read completed, if it was.
    pub fn completes(
        &mut self,
        alloc: Global,
        group: &GroupId,
        position: u64,
        made: bool,
    ) -> Result<(), NoMemory>
        ensures { OnOk result ((now : Now) → self.old ≡ work_of now → self.new ≡ work_of (completed now group.now position made)) }
    {
        if !made {
            return Ok(());
        }
        let group = group.copy(alloc)?;
        self.valid.push(Valid { group, position })?;
        Ok(())
    }
}
