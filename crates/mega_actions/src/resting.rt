//! Operations that heard nothing act one after another; where all of them only wait, they stay where they are.
ghost use Rattle.std.specs.Prelude.{◌≡◌, ℕ, [], List, All, map, true, IfOk, OnOk, Err};
ghost use Rattle.mega_base.specs.declared.names.GroupId.{GroupId as Group};
ghost use Rattle.mega_handler.specs.Named.{Meanings};
ghost use Rattle.mega_meanings.specs.Means.{Means};
ghost use Rattle.mega_answers.specs.of_node_laws.About.{IsAbout};
ghost use Rattle.mega_rules.specs.Met.{Met};
ghost use Rattle.mega_rules.specs.Steps.{all_act, at_first};
ghost use Rattle.mega_answers.specs.declared.fault.ActFault.TheVariants.{Unserved};
ghost use Rattle.mega_answers.specs.Faults.{failed_by};
ghost use Rattle.mega_actions.specs.IsAt.{IsAt, setting_of};
ghost use Rattle.mega_actions.specs.Leaves.{Leaves};
ghost use Rattle.mega_actions.specs.Turns.{IsServable, unheard};
ghost use Rattle.mega_actions.specs.Waiting.{Waits};
ghost use Rattle.mega_answers.specs.of_step_work.Working.{work_of};

use crate::acting::stays;
use crate::replica::Replica;
use mega_answers::ActFault;
use mega_answers::mega_operations::{Heard, Operation};
use mega_answers::mega_step_work::Work;
use mega_answers::mega_voter::Voter;
use mega_base::{Items, NoMemory};
use mega_disk::{Records, Versions};
use mega_meanings::QueueHandlers;
use std::alloc::Global;

/// Whether all of these operations only wait.
fn are_waiting<R: Records>(voter: &Voter<R>, operations: &[Operation]) -> bool
    ensures { result ≡ true → All (Waits voter.now.logs.kept) operations.now }
{
    for operation in operations {
        if !stays(voter, operation) {
            return false;
        }
    }
    true
}

/// A step that has come to these operations, which stay open.
fn at_rest(alloc: Global, operations: Items<Operation>) -> Work
    ensures { result ≡ record { kept = operations; valid = []; answers = []; sends = [] } }
{
    Work {
        kept: operations,
        valid: Items::new(alloc),
        answers: Items::new(alloc),
        sends: Items::new(alloc),
    }
}

/// Operations that heard nothing, and send nothing for it.
fn unheard(alloc: Global, operations: Items<Operation>) -> Result<Items<Heard>, NoMemory>
    ensures { IfOk result (λ heard. heard ≡ map unheard operations) }
{
    let mut heard = Items::with_capacity(alloc, operations.len())?;
    for operation in operations.into_vec() {
        heard.push(Heard {
            operation,
            sends: Items::new(alloc),
        })?;
    }
    Ok(heard)
}

impl<R: Records, V: Versions> Replica<R, V> {
    /// Operations that heard nothing act one after another, first in a step: what the step has come to then.
    #[tactic(auto, using(mega_replica::proofs::Using::used_here))]
    pub fn all_rest<H: QueueHandlers>(
        &mut self,
        alloc: Global,
        handlers: &mut H,
        operations: Items<Operation>,
    ) -> Result<Work, ActFault>
        ensures state { OnOk result ((h : Meanings) (met : List Met) (stored : Group → ℕ) → V.is_told ≡ true → Means (H.meant handlers.old) h → All IsAbout operations →
            IsAt V.version h self.old met stored →
            IsAt V.version h self.new
            (all_act (setting_of self.old h) (at_first met stored) (map unheard operations)).met (all_act (setting_of self.old h) (at_first met stored) (map unheard operations)).stored) }
        ensures work { IfOk result (λ work. (h : Meanings) (met : List Met) (stored : Group → ℕ) → V.is_told ≡ true → Means (H.meant handlers.old) h → All IsAbout operations →
            IsAt V.version h self.old met stored →
            work ≡ work_of (all_act (setting_of self.old h) (at_first met stored) (map unheard operations))) }
        ensures leaves { Leaves V.Versions (failed_by result) (H.meant handlers.old) (H.meant handlers.new) self.old self.new }
        ensures unserved { result ≡ Err Unserved → All IsServable operations → ⊥ }
    {
        // Most operations only wait, mostly all of them.
        if are_waiting(&self.voter, operations.as_slice()) {
            return Ok(at_rest(alloc, operations));
        }
        let heard = unheard(alloc, operations)?;
        let mut work = Work::new(alloc, heard.len())?;
        self.all_act(alloc, handlers, &mut work, heard)?;
        Ok(work)
    }
}
