//! An operation begins, or is refused at once.
ghost use Rattle.std.specs.Prelude.{◌≡◌, List, min, true, false, None, OnOk, Err};
ghost use Rattle.mega_handler.specs.Named.{Meanings};
ghost use Rattle.mega_meanings.specs.Means.{Means};
ghost use Rattle.mega_rules.specs.Clock.{begun_of, clock_of, last_number};
ghost use Rattle.mega_rules.specs.Met.{Met};
ghost use Rattle.mega_rules.specs.Operations.{Node as RuleNode, Now};
ghost use Rattle.mega_rules.specs.Members.{kind_of};
ghost use Rattle.mega_rules.specs.Steps.{at_first, at_open, begins, missing_kind, new_operation, op_of, refusal, unless_refused};
ghost use Rattle.mega_step_parts.specs.of_voter.Telling.{Tells};
ghost use Rattle.mega_actions.specs.of_answers.declared.fault.ActFault.TheVariants.{Unserved};
ghost use Rattle.mega_actions.specs.of_step_work.Servable.{is_served};
ghost use Rattle.mega_actions.specs.of_answers.Faults.{failed_by};
ghost use Rattle.mega_actions.specs.of_marks.AreMarked.{AreMarked, IsIndexed};
ghost use Rattle.mega_actions.specs.of_answers.Indexing.{marks_then};
ghost use Rattle.mega_actions.specs.IsAt.{IsAt, setting_of};
ghost use Rattle.mega_actions.specs.Leaves.{LeavesRest};
ghost use Rattle.mega_actions.specs.of_step_work.Settings.{setting};
ghost use Rattle.mega_actions.specs.of_step_work.Working.{work_of};
ghost use Rattle.mega_node_events.specs.Beginning.{marks_unless};

use mega_actions::Replica;
use mega_actions::mega_answers::ActFault;
use mega_actions::mega_step_work::{Action, End, Work, is_served};
use mega_base::{Items, NodeId, NodeKind, OpId};
use mega_disk::{Records, Versions};
use mega_meanings::QueueHandlers;
use mega_outcome::{Answer, Request};
use mega_step_parts::mega_operations::Operation;
use mega_step_parts::mega_voter::Voter;
use mega_step_parts::{kind_of, missing_kind};
use std::alloc::Global;

/// As many operations may be open at a node.
const MOST_OPEN: usize = 64;

/// The number that the last operation of a start has, and all behind it.
const LAST_NUMBER: u32 = 4294967295;

/// The name of the next operation of a node that has begun so many.
pub fn next_op<R: Records>(voter: &Voter<R>, me: u8, begun: u32) -> OpId
    ensures { (c : _) (h : Meanings) (met : List Met) → Tells voter.now.logs.kept met → begun ≡ min (begun_of met) last_number → result ≡ op_of (setting c me h) met }
{
    OpId {
        node: NodeId(me),
        start: voter.start(),
        number: begun.saturating_add(1),
    }
}

/// Why an operation is not served that begins at a node which has begun so many, whose kind it misses, and at which so many
/// are open.
pub fn refusal(begun: u32, missing: Option<NodeKind>, opened: &[Operation]) -> Option<Answer>
    ensures { (c me : _) (h : Meanings) (node : RuleNode) (request : Request) → missing ≡ missing_kind request (kind_of c me) → node.open_operations ≡ opened.now →
        begun ≡ min (begun_of node.met) last_number → result ≡ refusal (setting c me h) node request }
{
    if begun >= LAST_NUMBER - 1 {
        return Some(Answer::Worn);
    }
    if let Some(kind) = missing {
        return Some(Answer::NotHere { kind });
    }
    if opened.len() >= MOST_OPEN {
        return Some(Answer::Busy { count: 64 });
    }
    None
}

/// The operations that are open stay so.
pub fn at_open(alloc: Global, opened: Items<Operation>) -> Work
    ensures { (met : List Met) (stored : _) → result ≡ work_of (at_open (at_first met stored) opened) }
{
    Work {
        kept: opened,
        valid: Items::new(alloc),
        answers: Items::new(alloc),
        sends: Items::new(alloc),
    }
}

/// An operation begins whose request is served.
#[tactic(auto, using(mega_replica::proofs::Using::used_here))]
fn serves<R: Records, V: Versions, H: QueueHandlers>(
    alloc: Global,
    handlers: &mut H,
    replica: &mut Replica<R, V>,
    work: &mut Work,
    op: OpId,
    request: Request,
) -> Result<(), ActFault>
    ensures state { OnOk result ((h : Meanings) (now : Now) → V.is_told ≡ true → Means (H.meant handlers.old) h →
        IsAt V.version h replica.old now.met now.stored →
        IsAt V.version h replica.new
        (begins (setting_of replica.old h) now (new_operation op request (clock_of now.met))).met (begins (setting_of replica.old h) now (new_operation op request (clock_of now.met))).stored) }
    ensures work { OnOk result ((h : Meanings) (now : Now) → V.is_told ≡ true → Means (H.meant handlers.old) h →
        IsAt V.version h replica.old now.met now.stored → IsIndexed (replica.old.members).schema replica.old.indexed now.met →
        work.old ≡ work_of now → work.new ≡ work_of (begins (setting_of replica.old h) now (new_operation op request (clock_of now.met)))) }
    ensures handlers { H.meant handlers.new ≡ H.meant handlers.old }
    ensures leaves { LeavesRest V.Versions (failed_by result) replica.old replica.new }
    ensures indexed { OnOk result ((h : Meanings) (now : Now) → V.is_told ≡ true →
        IsAt V.version h replica.old now.met now.stored → IsIndexed (replica.old.members).schema replica.old.indexed now.met →
        AreMarked (replica.old.members).schema replica.new.indexed now.met (marks_then now request)) }
    ensures built { OnOk result (is_served request ≡ true) }
    ensures unserved { result ≡ Err Unserved → is_served request ≡ false }
{
    if !is_served(&request) {
        return Err(ActFault::Unserved);
    }
    replica.begins(alloc, handlers, work, op, request)
}

/// An operation begins, unless it is refused.
#[tactic(auto, using(mega_replica::proofs::Using::used_here))]
pub fn unless_refused<R: Records, V: Versions, H: QueueHandlers>(
    alloc: Global,
    handlers: &mut H,
    replica: &mut Replica<R, V>,
    work: &mut Work,
    op: OpId,
    request: Request,
    refusal: Option<Answer>,
) -> Result<(), ActFault>
    ensures state { OnOk result ((h : Meanings) (now : Now) → V.is_told ≡ true → Means (H.meant handlers.old) h →
        IsAt V.version h replica.old now.met now.stored →
        IsAt V.version h replica.new
        (unless_refused (setting_of replica.old h) now (new_operation op request (clock_of now.met)) refusal).met (unless_refused (setting_of replica.old h) now (new_operation op request (clock_of now.met)) refusal).stored) }
    ensures work { OnOk result ((h : Meanings) (now : Now) → V.is_told ≡ true → Means (H.meant handlers.old) h →
        IsAt V.version h replica.old now.met now.stored → IsIndexed (replica.old.members).schema replica.old.indexed now.met →
        work.old ≡ work_of now → work.new ≡ work_of (unless_refused (setting_of replica.old h) now (new_operation op request (clock_of now.met)) refusal)) }
    ensures handlers { H.meant handlers.new ≡ H.meant handlers.old }
    ensures leaves { LeavesRest V.Versions (failed_by result) replica.old replica.new }
    ensures indexed { OnOk result ((h : Meanings) (now : Now) → V.is_told ≡ true →
        IsAt V.version h replica.old now.met now.stored → IsIndexed (replica.old.members).schema replica.old.indexed now.met →
        AreMarked (replica.old.members).schema replica.new.indexed now.met (marks_unless now request refusal)) }
    ensures built { OnOk result (refusal ≡ None → is_served request ≡ true) }
    ensures unserved { result ≡ Err Unserved → is_served request ≡ false }
{
    match refusal {
        None => serves(alloc, handlers, replica, work, op, request),
        Some(answer) => {
            work.does(Action {
                sends: None,
                end: End::Ends(op, answer),
            })?;
            Ok(())
        }
    }
}
