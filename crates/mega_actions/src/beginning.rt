//! An operation begins: it is answered at once, or reads the group of its request.
ghost use Rattle.std.specs.Prelude.{◌≡◌, IfOk, OnOk, Err, None, [], ◌∷◌, false, true};
ghost use Rattle.mega_handler.specs.Named.{Meanings};
ghost use Rattle.mega_meanings.specs.Means.{Means};
ghost use Rattle.mega_answers.specs.of_leases.Tells.{Tells as TellsLeases};
ghost use Rattle.mega_rules.specs.Clock.{clock_of};
ghost use Rattle.mega_rules.specs.Operations.{Now, Operation as Open};
ghost use Rattle.mega_rules.specs.Acting.{read_begun};
ghost use Rattle.mega_answers.specs.of_node_laws.About.{IsOf};
ghost use Rattle.mega_rules.specs.Steps.{begins, new_operation};
ghost use Rattle.mega_answers.specs.of_voter.Telling.{Tells};
ghost use Rattle.mega_answers.specs.declared.fault.ActFault.TheVariants.{Unserved};
ghost use Rattle.mega_answers.specs.of_step_work.Servable.{is_at_once, is_served, is_indexed, is_plain, is_pump};
ghost use Rattle.mega_answers.specs.Indexing.{marks_then};
ghost use Rattle.mega_answers.specs.of_marks.AreMarked.{AreMarked, IsIndexed};
ghost use Rattle.mega_answers.specs.Faults.{failed_by};
ghost use Rattle.mega_actions.specs.IsAt.{IsAt, setting_of};
ghost use Rattle.mega_actions.specs.Leaves.{Leaves, LeavesRest};
ghost use Rattle.mega_answers.specs.of_step_work.Working.{work_of};

use crate::replica::Replica;
use mega_answers::mega_operations::{Heard, Operation, OperationBase, Phase};
use mega_answers::mega_step_work::{
    Action, End, Work, group_asked, is_at_once, is_indexed, is_pump, read_begun,
};
use mega_answers::{ActFault, Pumped, answer_now, indexed_answer, is_entering, picks};
use mega_base::{Copied, GroupId, Items, NoMemory, OpId};
use mega_disk::{Records, Versions};
use mega_meanings::QueueHandlers;
use mega_outcome::Request;
use std::alloc::Global;

/// The group that a request reads and writes, where it is served.
fn group_of(alloc: Global, request: &Request) -> Result<GroupId, ActFault>
    ensures group { IfOk result (λ group. (is_plain request.now ≡ true) × IsOf request.now group) }
    ensures apart { failed_by result ≡ None }
    ensures unserved { result ≡ Err Unserved → is_plain request.now ≡ false }
{
    match request {
        Request::Txn(txn) => Ok(txn.group.copy(alloc)?),
        Request::Batch(group, txns) if txns.len() <= 16 => Ok(group.copy(alloc)?),
        _ => match group_asked(request) {
            Some(group) => Ok(group.copy(alloc)?),
            None => Err(ActFault::Unserved),
        },
    }
}

/// The groups that an operation has visited that began with a read of this one.
fn visited_by(alloc: Global, group: &GroupId) -> Result<Items<GroupId>, NoMemory>
    ensures { IfOk result (λ visited. visited ≡ group.now ∷ []) }
{
    let mut visited = Items::new(alloc);
    visited.push(group.copy(alloc)?)?;
    Ok(visited)
}

/// The read with which an operation begins, of the group of its request.
struct FirstRead {
    group: GroupId,
    visited: Items<GroupId>,
    made: mega_read::Move,
}

impl<R: Records, V: Versions> Replica<R, V> {
    /// A request begins: a find in no group, a refresh, and a read or find that asks for no current rows are answered
    /// at once; any other reads its group, and goes on in the same step where that read is local.
    #[tactic(auto, using(mega_replica::proofs::Using::used_here, mega_answers::proofs::Refused::used_apart))]
    pub fn begins<H: QueueHandlers>(
        &mut self,
        alloc: Global,
        handlers: &mut H,
        work: &mut Work,
        op: OpId,
        request: Request,
    ) -> Result<(), ActFault>
        ensures state { OnOk result ((h : Meanings) (now : Now) → V.is_told ≡ true → Means (H.meant handlers.old) h →
            IsAt V.version h self.old now.met now.stored →
            IsAt V.version h self.new
            (begins (setting_of self.old h) now (new_operation op request (clock_of now.met))).met (begins (setting_of self.old h) now (new_operation op request (clock_of now.met))).stored) }
        ensures work { OnOk result ((h : Meanings) (now : Now) → V.is_told ≡ true → Means (H.meant handlers.old) h →
            IsAt V.version h self.old now.met now.stored → IsIndexed (self.old.members).schema self.old.indexed now.met →
            work.old ≡ work_of now → work.new ≡ work_of (begins (setting_of self.old h) now (new_operation op request (clock_of now.met)))) }
        ensures handlers { H.meant handlers.new ≡ H.meant handlers.old }
        ensures leaves { LeavesRest V.Versions (failed_by result) self.old self.new }
        ensures indexed { OnOk result ((h : Meanings) (now : Now) → V.is_told ≡ true →
            IsAt V.version h self.old now.met now.stored → IsIndexed (self.old.members).schema self.old.indexed now.met →
            AreMarked (self.old.members).schema self.new.indexed now.met (marks_then now request)) }
        ensures unserved { result ≡ Err Unserved → is_served request ≡ false }
    {
        if is_indexed(&request) {
            match self.answers_indexed(alloc, work, op, &request) {
                Ok(()) => {
                    drop(request);
                    return Ok(());
                }
                Err(fault) => {
                    drop(request);
                    return Err(fault);
                }
            }
        }
        if is_at_once(&request) {
            match self.answers_now(alloc, work, op, &request) {
                Ok(()) => {
                    drop(request);
                    return Ok(());
                }
                Err(fault) => {
                    drop(request);
                    return Err(fault);
                }
            }
        }
        if is_pump(&request) {
            self.begins_pump(alloc, handlers, work, op, request)?;
            return Ok(());
        }
        self.begins_read(alloc, handlers, work, op, request)?;
        Ok(())
    }

    /// A pump begins: it picks, and reads the group of that in the same step where that read is local.
    #[tactic(auto, using(mega_replica::proofs::Using::used_here, mega_answers::proofs::Refused::used_apart))]
    fn begins_pump<H: QueueHandlers>(
        &mut self,
        alloc: Global,
        handlers: &mut H,
        work: &mut Work,
        op: OpId,
        request: Request,
    ) -> Result<(), ActFault>
        ensures state { OnOk result ((h : Meanings) (now : Now) → V.is_told ≡ true → Means (H.meant handlers.old) h → is_pump request ≡ true →
            IsAt V.version h self.old now.met now.stored →
            IsAt V.version h self.new
            (begins (setting_of self.old h) now (new_operation op request (clock_of now.met))).met (begins (setting_of self.old h) now (new_operation op request (clock_of now.met))).stored) }
        ensures work { OnOk result ((h : Meanings) (now : Now) → V.is_told ≡ true → Means (H.meant handlers.old) h → is_pump request ≡ true →
            IsAt V.version h self.old now.met now.stored →
            work.old ≡ work_of now → work.new ≡ work_of (begins (setting_of self.old h) now (new_operation op request (clock_of now.met)))) }
        ensures leaves { Leaves V.Versions (failed_by result) (H.meant handlers.old) (H.meant handlers.new) self.old self.new }
        ensures unserved { is_pump request ≡ true → result ≡ Err Unserved → ⊥ }
    {
        let entering = is_entering(&request);
        let began = self.leases.now();
        let visited = Items::new(alloc);
        let kept = OperationBase {
            id: op,
            request,
            began,
            visited,
            message: None,
        };
        let asked = Items::new(alloc);
        let pumped = picks(
            alloc,
            &self.members,
            &self.voter,
            &self.leases,
            &self.rows,
            &mut self.digest,
            kept,
            asked,
            entering,
        )?;
        match pumped {
            Pumped::Done(action) => {
                work.does(action)?;
                Ok(())
            }
            Pumped::Again(heard) => {
                self.acts_in_turn(alloc, handlers, work, heard)?;
                Ok(())
            }
        }
    }

    /// An operation that the global indexes answer.
    fn answers_indexed(
        &mut self,
        alloc: Global,
        work: &mut Work,
        op: OpId,
        request: &Request,
    ) -> Result<(), ActFault>
        ensures state { OnOk result ((h : Meanings) (now : Now) → V.is_told ≡ true → is_indexed request.now ≡ true →
            IsAt V.version h self.old now.met now.stored →
            IsAt V.version h self.new
            (begins (setting_of self.old h) now (new_operation op request.now (clock_of now.met))).met (begins (setting_of self.old h) now (new_operation op request.now (clock_of now.met))).stored) }
        ensures work { OnOk result ((h : Meanings) (now : Now) → V.is_told ≡ true → is_indexed request.now ≡ true →
            IsAt V.version h self.old now.met now.stored → IsIndexed (self.old.members).schema self.old.indexed now.met →
            work.old ≡ work_of now → work.new ≡ work_of (begins (setting_of self.old h) now (new_operation op request.now (clock_of now.met)))) }
        ensures leaves { LeavesRest V.Versions (failed_by result) self.old self.new }
        ensures indexed { OnOk result ((h : Meanings) (now : Now) → V.is_told ≡ true → is_indexed request.now ≡ true →
            IsAt V.version h self.old now.met now.stored → IsIndexed (self.old.members).schema self.old.indexed now.met →
            AreMarked (self.old.members).schema self.new.indexed now.met (marks_then now request.now)) }
        ensures unserved { result ≡ Err Unserved → is_indexed request.now ≡ false }
    {
        let answer = indexed_answer(
            alloc,
            &self.members,
            &self.voter,
            &self.rows,
            &mut self.indexed,
            request,
        )?;
        work.does(Action {
            sends: None,
            end: End::Ends(op, answer),
        })?;
        Ok(())
    }

    /// An operation that is answered at once.
    fn answers_now(
        &mut self,
        alloc: Global,
        work: &mut Work,
        op: OpId,
        request: &Request,
    ) -> Result<(), ActFault>
        ensures state { OnOk result ((h : Meanings) (now : Now) → V.is_told ≡ true → is_at_once request.now ≡ true →
            IsAt V.version h self.old now.met now.stored →
            IsAt V.version h self.new
            (begins (setting_of self.old h) now (new_operation op request.now (clock_of now.met))).met (begins (setting_of self.old h) now (new_operation op request.now (clock_of now.met))).stored) }
        ensures work { OnOk result ((h : Meanings) (now : Now) → V.is_told ≡ true → is_at_once request.now ≡ true →
            IsAt V.version h self.old now.met now.stored →
            work.old ≡ work_of now → work.new ≡ work_of (begins (setting_of self.old h) now (new_operation op request.now (clock_of now.met)))) }
        ensures leaves { LeavesRest V.Versions (failed_by result) self.old self.new }
        ensures indexed { self.new.indexed ≡ self.old.indexed }
        ensures unserved { result ≡ Err Unserved → is_at_once request.now ≡ false }
    {
        let answer = answer_now(alloc, &self.members, &self.voter, &mut self.rows, request)?;
        work.does(Action {
            sends: None,
            end: End::Ends(op, answer),
        })?;
        Ok(())
    }

    /// An operation begins with a current read of its group.
    #[tactic(auto, using(mega_replica::proofs::Using::used_here, mega_answers::proofs::Refused::used_apart))]
    fn begins_read<H: QueueHandlers>(
        &mut self,
        alloc: Global,
        handlers: &mut H,
        work: &mut Work,
        op: OpId,
        request: Request,
    ) -> Result<(), ActFault>
        ensures state { OnOk result ((h : Meanings) (now : Now) → V.is_told ≡ true → Means (H.meant handlers.old) h → is_at_once request ≡ false →
            IsAt V.version h self.old now.met now.stored →
            IsAt V.version h self.new
            (begins (setting_of self.old h) now (new_operation op request (clock_of now.met))).met (begins (setting_of self.old h) now (new_operation op request (clock_of now.met))).stored) }
        ensures work { OnOk result ((h : Meanings) (now : Now) → V.is_told ≡ true → Means (H.meant handlers.old) h → is_at_once request ≡ false →
            IsAt V.version h self.old now.met now.stored →
            work.old ≡ work_of now → work.new ≡ work_of (begins (setting_of self.old h) now (new_operation op request (clock_of now.met)))) }
        ensures leaves { Leaves V.Versions (failed_by result) (H.meant handlers.old) (H.meant handlers.new) self.old self.new }
        ensures unserved { result ≡ Err Unserved → is_plain request ≡ false }
    {
        match self.first_read(alloc, op, &request) {
            Ok(first) => {
                let FirstRead {
                    group,
                    visited,
                    made,
                } = first;
                let mega_read::Move { reading, sends } = made;
                let operation = Operation {
                    id: op,
                    request,
                    began: self.leases.now(),
                    visited,
                    message: None,
                    phase: Phase::Reads { group, reading },
                };
                self.acts_in_turn(alloc, handlers, work, Heard { operation, sends })?;
                Ok(())
            }
            Err(fault) => {
                drop(request);
                Err(fault)
            }
        }
    }

    /// The read with which an operation begins.
    fn first_read(&self, alloc: Global, op: OpId, request: &Request) -> Result<FirstRead, ActFault>
        ensures read { IfOk result (λ first. (h : Meanings) (now : Now) (o : Open) → o.id ≡ op → o.visited ≡ [] → Tells self.now.voter.logs.kept now.met →
            TellsLeases self.now.members self.now.me self.now.leases now.met → first.made ≡ read_begun (setting_of self.now h) now o first.group []) }
        ensures visited { IfOk result (λ first. first.visited ≡ first.group ∷ []) }
        ensures group { IfOk result (λ first. (is_plain request.now ≡ true) × IsOf request.now first.group) }
        ensures apart { failed_by result ≡ None }
        ensures unserved { result ≡ Err Unserved → is_plain request.now ≡ false }
    {
        let group = group_of(alloc, request)?;
        let visited = visited_by(alloc, &group)?;
        let made = read_begun(alloc, &self.members, &self.voter, &self.leases, op, &group)?;
        Ok(FirstRead {
            group,
            visited,
            made,
        })
    }
}
