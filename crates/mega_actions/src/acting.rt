//! What an operation does that acts: it reads, seeks, finishes or ends.
ghost use Rattle.std.specs.Prelude.{◌≡◌, ◌≤◌, ◌+◌, ◌<◌, ◌^◌, nat_le, IfOk, OnOk, OnErr, Err, None, false, true};
ghost use Rattle.mega_handler.specs.Named.{Meanings};
ghost use Rattle.mega_meanings.specs.Means.{Means};
ghost use Rattle.mega_answers.specs.of_node_laws.About.{IsAbout, IsOf};
ghost use Rattle.mega_answers.specs.of_operations.Whole.{whole};
ghost use Rattle.mega_answers.specs.of_operations.Phases.{promised_of};
ghost use Rattle.mega_rules.specs.Clock.{clock_of};
ghost use Rattle.mega_rules.specs.Logs.{decided, log_of, prefix_of};
ghost use Rattle.mega_rules.specs.Operations.{Now, Proposes, Reads, Setting};
ghost use Rattle.mega_rules.specs.Acting.{ActsAgain, Rests, acts, completes_read, finishes, goes_on, keeps, reader_of, reads_on, rests_within, seeks_on, unless_decided};
ghost use Rattle.mega_replica.specs.Applying.{applied};
ghost use Rattle.mega_read.specs.Catching.{seeks};
ghost use Rattle.mega_answers.specs.declared.fault.ActFault.TheVariants.{NoMemory as OutOfMemory, Unserved};
ghost use Rattle.mega_answers.specs.of_voter.Telling.{Tells};
ghost use Rattle.mega_actions.specs.Acted.{Acted};
ghost use Rattle.mega_answers.specs.Asked.{IsNextAsked};
ghost use Rattle.mega_answers.specs.of_step_work.Servable.{is_open, is_pump};
ghost use Rattle.mega_actions.specs.Later.{later};
ghost use Rattle.mega_answers.specs.Faults.{failed_by};
ghost use Rattle.mega_actions.specs.IsAt.{IsAt, setting_of};
ghost use Rattle.mega_actions.specs.Leaves.{Leaves};
ghost use Rattle.mega_answers.specs.of_step_work.Actions.{does};
ghost use Rattle.mega_answers.specs.of_step_work.Reaching.{operation_of};
ghost use Rattle.mega_answers.specs.of_step_work.Settings.{setting};
ghost use Rattle.mega_answers.specs.of_step_work.Working.{work_of};

use crate::replica::Replica;
use mega_answers::mega_operations::{Members, Operation, OperationBase, Phase};
use mega_answers::mega_step_work::{
    Action, CompleteRead, End, Proposing, Work, is_pump, unless_decided,
};
use mega_answers::mega_voter::Voter;
use mega_answers::{ActFault, goes, pumps, reads_through, takes};
use mega_base::{GroupId, NoMemory, OpId, Position};
use mega_disk::{Records, Versions};
use mega_meanings::QueueHandlers;
use mega_read::Reading;
use std::alloc::Global;

/// What a read comes to that seeks the least position that is not decided.
fn sought(
    alloc: Global,
    members: &Members,
    clock: u64,
    op: OpId,
    group: &GroupId,
    reading: Reading,
    least: u64,
) -> Result<mega_read::Move, NoMemory>
    ensures { IfOk result (λ made. (me : _) (h : Meanings) → made ≡ seeks (reader_of (setting members.now me h) op group.now) reading least clock) }
{
    match members.reader(alloc, op, group) {
        Ok(who) => {
            let made = reading.seeks(alloc, &who, least, clock)?;
            Ok(made)
        }
        Err(refused) => {
            drop(reading);
            Err(refused)
        }
    }
}

/// What an operation does whose read seeks the least position that is not decided.
fn seeks(
    alloc: Global,
    members: &Members,
    clock: u64,
    kept: OperationBase,
    group: GroupId,
    reading: Reading,
    least: u64,
) -> Result<Action, NoMemory>
    ensures { IfOk result (λ action. (me : _) (h : Meanings) (now : Now) → clock ≡ clock_of now.met →
        does now action ≡ seeks_on (whole kept (Reads group reading)) now group (seeks (reader_of (setting members.now me h) kept.id group) reading least (clock_of now.met))) }
{
    match sought(alloc, members, clock, kept.id, &group, reading, least) {
        Ok(made) => {
            let mega_read::Move { reading, sends } = made;
            let operation = kept.in_phase(Phase::Reads { group, reading });
            Ok(Action {
                sends: Some(sends),
                end: End::Stays(operation),
            })
        }
        Err(refused) => {
            drop(kept);
            drop(group);
            Err(refused)
        }
    }
}

/// Whether an operation that acts stays as it is: it does not know through where it reads, or its position is not decided.
pub(crate) fn stays<R: Records>(voter: &Voter<R>, operation: &Operation) -> bool
    ensures { result ≡ true → (s : Setting) (now : Now) → Tells voter.now.logs.kept now.met → acts s now operation.now ≡ Rests (keeps now operation.now) }
{
    match &operation.phase {
        Phase::Reads { reading, .. } => reading.through_of().is_none(),
        Phase::Proposes {
            group,
            position,
            ..
        } => voter.decided(group, Position(*position)).is_none(),
    }
}

/// An operation that proposes ends where its position is decided.
fn checks<R: Records>(
    voter: &Voter<R>,
    work: &mut Work,
    kept: OperationBase,
    own: Proposing,
) -> Result<(), ActFault>
    ensures work { OnOk result ((now : Now) → Tells voter.now.logs.kept now.met → work.old ≡ work_of now →
        work.new ≡ work_of (unless_decided now (whole kept (Proposes own.group own.position own.asked own.proposal (promised_of own.promised))) own.position (promised_of own.promised) (decided now.met own.group own.position))) }
    ensures memory { OnErr result (result ≡ Err OutOfMemory) }
{
    let found = voter.decided(&own.group, Position(own.position));
    let action = unless_decided(kept, own, None, found);
    work.does(action)?;
    Ok(())
}

/// Whether all positions through this one are decided, where so many are.
fn is_reached(through: u64, prefix: u64) -> bool
    ensures exact { result ≡ nat_le through prefix }
    ensures within { result ≡ true → through ≤ prefix }
    ensures room { result ≡ false → prefix + 1 < 2 ^ 64 }
{
    through <= prefix
}

impl<R: Records, V: Versions> Replica<R, V> {
    /// A pump whose read is complete goes on to what it asks; where it picks again, its operation comes back.
    #[tactic(auto, using(mega_answers::proofs::Refused::used_unkept))]
    fn pumps<H: QueueHandlers>(
        &mut self,
        alloc: Global,
        handlers: &mut H,
        work: &mut Work,
        reached: CompleteRead,
    ) -> Result<Option<Operation>, ActFault>
        ensures acted { IfOk result (λ next. (h : Meanings) (now : Now) → V.is_told ≡ true → Means (H.meant handlers.old) h → is_pump reached.kept.request ≡ true →
            reached.position ≤ applied (log_of now.met reached.group) (now.stored reached.group) → IsAt V.version h self.old now.met now.stored →
            Acted V.version h self.new work.old work.new now (finishes (setting_of self.old h) now (operation_of reached) reached.group reached.reading reached.position) next) }
        ensures asked { IfOk result (λ next. IsNextAsked next reached.kept.request) }
        ensures leaves { Leaves V.Versions (failed_by result) (H.meant handlers.old) (H.meant handlers.new) self.old self.new }
        ensures built { result ≡ Err Unserved → ⊥ }
    {
        let pumped = pumps(
            alloc,
            reached,
            &self.members,
            &self.voter,
            &self.leases,
            &mut self.rows,
            &mut self.digest,
            handlers,
        )?;
        let next = takes(work, pumped)?;
        Ok(next)
    }

    /// An operation whose read is complete goes on to what it asks; where it picks again, it comes back.
    fn goes_by<H: QueueHandlers>(
        &mut self,
        alloc: Global,
        handlers: &mut H,
        work: &mut Work,
        reached: CompleteRead,
    ) -> Result<Option<Operation>, ActFault>
        ensures acted { IfOk result (λ next. (h : Meanings) (now : Now) → V.is_told ≡ true → Means (H.meant handlers.old) h → IsOf reached.kept.request reached.group →
            reached.position ≤ applied (log_of now.met reached.group) (now.stored reached.group) → IsAt V.version h self.old now.met now.stored →
            Acted V.version h self.new work.old work.new now (finishes (setting_of self.old h) now (operation_of reached) reached.group reached.reading reached.position) next) }
        ensures asked { IfOk result (λ next. IsNextAsked next reached.kept.request) }
        ensures leaves { Leaves V.Versions (failed_by result) (H.meant handlers.old) (H.meant handlers.new) self.old self.new }
        ensures unserved { result ≡ Err Unserved → is_open reached.kept.request ≡ false }
    {
        if is_pump(&reached.kept.request) {
            let next = self.pumps(alloc, handlers, work, reached)?;
            return Ok(next);
        }
        let clock = self.leases.now();
        goes(
            alloc,
            &self.members,
            &self.voter,
            clock,
            &mut self.rows,
            work,
            reached,
        )?;
        Ok(None)
    }

    /// The read of an operation completes through a decided position, and the operation goes on to what it asks.
    fn completes<H: QueueHandlers>(
        &mut self,
        alloc: Global,
        handlers: &mut H,
        work: &mut Work,
        reached: CompleteRead,
    ) -> Result<Option<Operation>, ActFault>
        ensures acted { IfOk result (λ next. (h : Meanings) (now : Now) → V.is_told ≡ true → Means (H.meant handlers.old) h → IsOf reached.kept.request reached.group →
            reached.position ≤ prefix_of now.met reached.group → IsAt V.version h self.old now.met now.stored →
            Acted V.version h self.new work.old work.new now (finishes (setting_of self.old h) (completes_read (setting_of self.old h) now reached.group reached.reading reached.position) (operation_of reached) reached.group reached.reading reached.position) next) }
        ensures asked { IfOk result (λ next. IsNextAsked next reached.kept.request) }
        ensures leaves { Leaves V.Versions (failed_by result) (H.meant handlers.old) (H.meant handlers.new) self.old self.new }
        ensures unserved { result ≡ Err Unserved → is_open reached.kept.request ≡ false }
    {
        match reads_through(
            alloc,
            &self.voter,
            &mut self.leases,
            &mut self.rows,
            work,
            &reached,
        ) {
            Ok(()) => {}
            Err(fault) => {
                drop(reached);
                return Err(fault);
            }
        }
        let next = self.goes_by(alloc, handlers, work, reached)?;
        Ok(next)
    }

    /// An operation reads on.
    #[tactic(auto, using(mega_replica::proofs::Using::used_here, mega_answers::proofs::Refused::used_unkept))]
    fn reads_on<H: QueueHandlers>(
        &mut self,
        alloc: Global,
        handlers: &mut H,
        work: &mut Work,
        kept: OperationBase,
        group: GroupId,
        reading: Reading,
    ) -> Result<Option<Operation>, ActFault>
        ensures acted { IfOk result (λ next. (h : Meanings) (now : Now) → V.is_told ≡ true → Means (H.meant handlers.old) h → IsOf kept.request group → IsAt V.version h self.old now.met now.stored →
            Acted V.version h self.new work.old work.new now (reads_on (setting_of self.old h) now (whole kept (Reads group reading)) group reading) next) }
        ensures asked { IfOk result (λ next. IsNextAsked next kept.request) }
        ensures leaves { Leaves V.Versions (failed_by result) (H.meant handlers.old) (H.meant handlers.new) self.old self.new }
        ensures unserved { result ≡ Err Unserved → is_open kept.request ≡ false }
    {
        let Some(through) = reading.through_of() else {
            let operation = kept.in_phase(Phase::Reads { group, reading });
            work.does(Action {
                sends: None,
                end: End::Stays(operation),
            })?;
            return Ok(None);
        };
        let prefix = self.voter.prefix(&group).0;
        if is_reached(through, prefix) {
            let reached = CompleteRead {
                kept,
                group,
                reading,
                position: through,
            };
            let next = self.completes(alloc, handlers, work, reached)?;
            return Ok(next);
        }
        let clock = self.leases.now();
        let action = seeks(
            alloc,
            &self.members,
            clock,
            kept,
            group,
            reading,
            prefix + 1,
        )?;
        work.does(action)?;
        Ok(None)
    }

    /// An operation acts once: one whose position is decided ends, and one that reads completes its read, or seeks what is not
    /// decided. A pump that picks again comes back, to act again in the same step.
    #[tactic(auto, using(mega_replica::proofs::Using::used_here, mega_answers::proofs::Refused::used_unkept))]
    fn acts_once<H: QueueHandlers>(
        &mut self,
        alloc: Global,
        handlers: &mut H,
        work: &mut Work,
        operation: Operation,
    ) -> Result<Option<Operation>, ActFault>
        ensures acted { IfOk result (λ next. (h : Meanings) (now : Now) → V.is_told ≡ true → Means (H.meant handlers.old) h → IsAbout operation → IsAt V.version h self.old now.met now.stored →
            Acted V.version h self.new work.old work.new now (acts (setting_of self.old h) now operation) next) }
        ensures asked { IfOk result (λ next. IsNextAsked next operation.request) }
        ensures leaves { Leaves V.Versions (failed_by result) (H.meant handlers.old) (H.meant handlers.new) self.old self.new }
        ensures unserved { result ≡ Err Unserved → is_open operation.request ≡ false }
    {
        let (kept, phase) = operation.parts();
        match phase {
            Phase::Reads { group, reading } => {
                let next = self.reads_on(alloc, handlers, work, kept, group, reading)?;
                Ok(next)
            }
            Phase::Proposes {
                group,
                position,
                asked,
                proposal,
                promised,
            } => {
                let own = Proposing {
                    group,
                    position,
                    asked,
                    proposal,
                    promised,
                };
                checks(&self.voter, work, kept, own)?;
                Ok(None)
            }
        }
    }

    /// An operation acts, again and again while it picks again, but at most so often.
    fn acts_within<H: QueueHandlers>(
        &mut self,
        alloc: Global,
        handlers: &mut H,
        work: &mut Work,
        most: usize,
        operation: Operation,
    ) -> Result<(), ActFault>
        ensures acted { OnOk result ((h : Meanings) (now : Now) → V.is_told ≡ true → Means (H.meant handlers.old) h → IsAbout operation → IsAt V.version h self.old now.met now.stored →
            Acted V.version h self.new work.old work.new now (Rests (rests_within most (setting_of self.old h) (ActsAgain now operation))) None) }
        ensures leaves { Leaves V.Versions (failed_by result) (H.meant handlers.old) (H.meant handlers.new) self.old self.new }
        ensures unserved { result ≡ Err Unserved → is_open operation.request ≡ false }
    {
        let mut next = operation;
        for _turn in 0..most {
            match self.acts_once(alloc, handlers, work, next) {
                Ok(Some(again)) => next = again,
                Ok(None) => return Ok(()),
                Err(fault) => return Err(fault),
            }
        }
        work.does(Action {
            sends: None,
            end: End::Stays(next),
        })?;
        Ok(())
    }

    /// An operation acts, and a pump again while it picks again: at most as often as there are groups, and two times more.
    #[tactic(auto, using(mega_replica::proofs::Using::used_here, mega_answers::proofs::Refused::used_unkept))]
    pub fn acts<H: QueueHandlers>(
        &mut self,
        alloc: Global,
        handlers: &mut H,
        work: &mut Work,
        operation: Operation,
    ) -> Result<(), ActFault>
        ensures state { OnOk result ((h : Meanings) (now : Now) → V.is_told ≡ true → Means (H.meant handlers.old) h → IsAbout operation →
            IsAt V.version h self.old now.met now.stored →
            IsAt V.version h self.new
            (goes_on (setting_of self.old h) now operation).met (goes_on (setting_of self.old h) now operation).stored) }
        ensures work { OnOk result ((h : Meanings) (now : Now) → V.is_told ≡ true → Means (H.meant handlers.old) h → IsAbout operation →
            IsAt V.version h self.old now.met now.stored →
            work.old ≡ work_of now → work.new ≡ work_of (goes_on (setting_of self.old h) now operation)) }
        ensures leaves { Leaves V.Versions (failed_by result) (H.meant handlers.old) (H.meant handlers.new) self.old self.new }
        ensures unserved { result ≡ Err Unserved → is_open operation.request ≡ false }
    {
        // Most operations only wait, and go on with no other move.
        if stays(&self.voter, &operation) {
            work.kept.push(operation)?;
            return Ok(());
        }
        match self.acts_once(alloc, handlers, work, operation) {
            Ok(Some(next)) => {
                self.acts_again(alloc, handlers, work, next)?;
                Ok(())
            }
            Ok(None) => Ok(()),
            Err(fault) => Err(fault),
        }
    }

    /// A pump that picked again acts again, at most as often as there are groups, and once more.
    fn acts_again<H: QueueHandlers>(
        &mut self,
        alloc: Global,
        handlers: &mut H,
        work: &mut Work,
        operation: Operation,
    ) -> Result<(), ActFault>
        ensures acted { OnOk result ((h : Meanings) (now before : Now) → V.is_told ≡ true → Means (H.meant handlers.old) h → IsAbout operation → Tells self.old.voter.logs.kept before.met →
            IsAt V.version h self.old now.met now.stored →
            Acted V.version h self.new work.old work.new now (Rests (later (setting_of self.old h) before (ActsAgain now operation))) None) }
        ensures leaves { Leaves V.Versions (failed_by result) (H.meant handlers.old) (H.meant handlers.new) self.old self.new }
        ensures unserved { result ≡ Err Unserved → is_open operation.request ≡ false }
    {
        match self.voter.groups(alloc) {
            Ok(groups) => {
                let most = groups.as_slice().len() + 1;
                self.acts_within(alloc, handlers, work, most, operation)?;
                Ok(())
            }
            Err(refused) => {
                drop(operation);
                Err(refused.into())
            }
        }
    }
}
