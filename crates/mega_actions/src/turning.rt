//! Operations act one after another, each on what those before it left.
ghost use Rattle.std.specs.Prelude.{◌≡◌, OnOk, Err, false, true, All, fold};
ghost use Rattle.mega_handler.specs.Named.{Meanings};
ghost use Rattle.mega_meanings.specs.Means.{Means};
ghost use Rattle.mega_answers.specs.of_node_laws.About.{IsAbout};
ghost use Rattle.mega_rules.specs.Operations.{Now};
ghost use Rattle.mega_rules.specs.Steps.{acts_in_turn, all_act, ticked};
ghost use Rattle.mega_answers.specs.declared.fault.ActFault.TheVariants.{Unserved};
ghost use Rattle.mega_answers.specs.of_step_work.Servable.{is_open};
ghost use Rattle.mega_answers.specs.Faults.{failed_by};
ghost use Rattle.mega_actions.specs.IsAt.{IsAt, setting_of};
ghost use Rattle.mega_actions.specs.Leaves.{Leaves};
ghost use Rattle.mega_actions.specs.Turns.{IsServable, IsServableHeard, IsHeardAbout};
ghost use Rattle.mega_answers.specs.of_step_work.Working.{work_of};

use crate::replica::Replica;
use mega_answers::ActFault;
use mega_answers::mega_operations::{Heard, Operation};
use mega_answers::mega_step_work::{Action, End, Work};
use mega_base::Items;
use mega_disk::{Records, Versions};
use mega_meanings::QueueHandlers;
use std::alloc::Global;

impl<R: Records, V: Versions> Replica<R, V> {
    /// An operation acts that comes to something: what it sends for that goes out first.
    #[tactic(auto, using(mega_replica::proofs::Using::used_here, mega_answers::proofs::Refused::used_unkept))]
    pub fn acts_in_turn<H: QueueHandlers>(
        &mut self,
        alloc: Global,
        handlers: &mut H,
        work: &mut Work,
        heard: Heard,
    ) -> Result<(), ActFault>
        ensures state { OnOk result ((h : Meanings) (now : Now) → V.is_told ≡ true → Means (H.meant handlers.old) h → IsHeardAbout heard →
            IsAt V.version h self.old now.met now.stored →
            IsAt V.version h self.new
            (acts_in_turn (setting_of self.old h) now heard).met (acts_in_turn (setting_of self.old h) now heard).stored) }
        ensures work { OnOk result ((h : Meanings) (now : Now) → V.is_told ≡ true → Means (H.meant handlers.old) h → IsHeardAbout heard →
            IsAt V.version h self.old now.met now.stored →
            work.old ≡ work_of now → work.new ≡ work_of (acts_in_turn (setting_of self.old h) now heard)) }
        ensures leaves { Leaves V.Versions (failed_by result) (H.meant handlers.old) (H.meant handlers.new) self.old self.new }
        ensures unserved { result ≡ Err Unserved → is_open heard.operation.request ≡ false }
    {
        let Heard { operation, sends } = heard;
        match work.says(Some(sends)) {
            Ok(()) => {
                self.acts(alloc, handlers, work, operation)?;
                Ok(())
            }
            Err(refused) => {
                drop(operation);
                Err(refused.into())
            }
        }
    }

    /// Operations act one after another, each on what those before it left.
    #[tactic(auto, using(mega_replica::proofs::Using::used_here))]
    pub fn all_act<H: QueueHandlers>(
        &mut self,
        alloc: Global,
        handlers: &mut H,
        work: &mut Work,
        heard: Items<Heard>,
    ) -> Result<(), ActFault>
        ensures state { OnOk result ((h : Meanings) (now : Now) → V.is_told ≡ true → Means (H.meant handlers.old) h → All IsHeardAbout heard →
            IsAt V.version h self.old now.met now.stored →
            IsAt V.version h self.new
            (all_act (setting_of self.old h) now heard).met (all_act (setting_of self.old h) now heard).stored) }
        ensures work { OnOk result ((h : Meanings) (now : Now) → V.is_told ≡ true → Means (H.meant handlers.old) h → All IsHeardAbout heard →
            IsAt V.version h self.old now.met now.stored →
            work.old ≡ work_of now → work.new ≡ work_of (all_act (setting_of self.old h) now heard)) }
        ensures leaves { Leaves V.Versions (failed_by result) (H.meant handlers.old) (H.meant handlers.new) self.old self.new }
        ensures unserved { result ≡ Err Unserved → All IsServableHeard heard → ⊥ }
    {
        for one in heard.into_vec() {
            self.acts_in_turn(alloc, handlers, work, one)?;
        }
        Ok(())
    }

    /// An operation at a tick: it ends where its patience has ended, and else does what is due.
    #[tactic(auto, using(mega_replica::proofs::Using::used_here, mega_answers::proofs::Refused::used_unkept))]
    pub fn ticked<H: QueueHandlers>(
        &mut self,
        alloc: Global,
        handlers: &mut H,
        work: &mut Work,
        clock: u64,
        operation: Operation,
    ) -> Result<(), ActFault>
        ensures state { OnOk result ((h : Meanings) (now : Now) → V.is_told ≡ true → Means (H.meant handlers.old) h → IsAbout operation →
            IsAt V.version h self.old now.met now.stored →
            IsAt V.version h self.new
            (ticked (setting_of self.old h) clock now operation).met (ticked (setting_of self.old h) clock now operation).stored) }
        ensures work { OnOk result ((h : Meanings) (now : Now) → V.is_told ≡ true → Means (H.meant handlers.old) h → IsAbout operation →
            IsAt V.version h self.old now.met now.stored →
            work.old ≡ work_of now → work.new ≡ work_of (ticked (setting_of self.old h) clock now operation)) }
        ensures leaves { Leaves V.Versions (failed_by result) (H.meant handlers.old) (H.meant handlers.new) self.old self.new }
        ensures unserved { result ≡ Err Unserved → is_open operation.request ≡ false }
    {
        if operation.is_out(&self.members, clock) {
            let answer = operation.last_answer();
            let op = operation.id;
            drop(operation);
            work.does(Action {
                sends: None,
                end: End::Ends(op, answer),
            })?;
            return Ok(());
        }
        let heard = operation.does_due(alloc, &self.members, clock)?;
        self.acts_in_turn(alloc, handlers, work, heard)?;
        Ok(())
    }

    /// All open operations at a tick, one after another.
    #[tactic(auto, using(mega_replica::proofs::Using::used_here))]
    pub fn all_ticked<H: QueueHandlers>(
        &mut self,
        alloc: Global,
        handlers: &mut H,
        work: &mut Work,
        clock: u64,
        operations: Items<Operation>,
    ) -> Result<(), ActFault>
        ensures state { OnOk result ((h : Meanings) (now : Now) → V.is_told ≡ true → Means (H.meant handlers.old) h → All IsAbout operations →
            IsAt V.version h self.old now.met now.stored →
            IsAt V.version h self.new
            (fold (ticked (setting_of self.old h) clock) now operations).met (fold (ticked (setting_of self.old h) clock) now operations).stored) }
        ensures work { OnOk result ((h : Meanings) (now : Now) → V.is_told ≡ true → Means (H.meant handlers.old) h → All IsAbout operations →
            IsAt V.version h self.old now.met now.stored →
            work.old ≡ work_of now → work.new ≡ work_of (fold (ticked (setting_of self.old h) clock) now operations)) }
        ensures leaves { Leaves V.Versions (failed_by result) (H.meant handlers.old) (H.meant handlers.new) self.old self.new }
        ensures unserved { result ≡ Err Unserved → All IsServable operations → ⊥ }
    {
        for operation in operations.into_vec() {
            self.ticked(alloc, handlers, work, clock, operation)?;
        }
        Ok(())
    }
}
