//! A tick: portions are stored, leases tick, and what is missing is fetched.
ghost use Rattle.std.specs.Prelude.{◌≡◌, ℕ, List, fold, true, None, IfOk, OnOk, Err, All};
ghost use Rattle.mega_base.specs.declared.names.GroupId.{GroupId as Group};
ghost use Rattle.mega_handler.specs.Named.{Meanings};
ghost use Rattle.mega_meanings.specs.Means.{Means};
ghost use Rattle.mega_actions.specs.of_node_laws.About.{IsAbout};
ghost use Rattle.mega_actions.specs.of_node_laws.Acted.{acted_on};
ghost use Rattle.mega_actions.specs.of_node_laws.Own.{HasOwnRows};
ghost use Rattle.mega_rules.specs.Clock.{does_again};
ghost use Rattle.mega_rules.specs.Logs.{log_of};
ghost use Rattle.mega_rules.specs.Members.{has_rows};
ghost use Rattle.mega_rules.specs.Met.{Met};
ghost use Rattle.mega_rules.specs.Operations.{Node as RuleNode, Operation as Open};
ghost use Rattle.mega_rules.specs.Steps.{Tick, at_first, background, ticked};
ghost use Rattle.mega_replica.specs.Used.{StoreUsed};
ghost use Rattle.mega_actions.specs.of_answers.declared.fault.ActFault.TheVariants as act;
ghost use Rattle.mega_actions.specs.of_answers.Faults.{failed_by as failed_to_act};
ghost use Rattle.mega_actions.specs.IsAt.{IsAt, setting_of};
ghost use Rattle.mega_actions.specs.Leaves.{Leaves};
ghost use Rattle.mega_actions.specs.Turns.{IsServable};
ghost use Rattle.mega_actions.specs.of_step_work.Working.{work_of};
ghost use Rattle.mega_step_parts.specs.Staging.{Stages};
ghost use Rattle.mega_node_events.specs.Ticking.{TickedAt};
ghost use Rattle.mega_step_parts.specs.Touching.{behind};
ghost use Rattle.mega_node_events.specs.Standing.{StandsWith};

use mega_actions::Replica;
use mega_actions::mega_answers::ActFault;
use mega_actions::mega_step_work::Work;
use mega_base::{GroupId, Items, NoMemory};
use mega_disk::{Records, Versions};
use mega_meanings::QueueHandlers;
use mega_step_parts::mega_operations::Operation;
use mega_step_parts::{Note, background, both, has_rows, keep_notes, store_portions};
use mega_wire::Message;
use std::alloc::Global;

/// A tick before the operations act: what is noted, and what is sent before and behind what they send.
#[derive(Debug, Drop)]
pub struct Ticked {
    pub notes: Items<Note>,
    pub opening: Items<Message>,
    pub closing: Items<Message>,
}

/// The operations act at a tick.
#[tactic(auto, using(mega_replica::proofs::Using::used_here))]
pub fn acts_ticked<R: Records, V: Versions, H: QueueHandlers>(
    alloc: Global,
    handlers: &mut H,
    replica: &mut Replica<R, V>,
    now: u64,
    operations: Items<Operation>,
) -> Result<Work, ActFault>
    ensures state { V.is_told ≡ true → OnOk result ((h : Meanings) (met : List Met) (stored : Group → ℕ) → Means (H.meant handlers.old) h → All IsAbout operations →
        IsAt V.version h replica.old met stored →
        IsAt V.version h replica.new
        (fold (ticked (setting_of replica.old h) now) (at_first met stored) operations).met (fold (ticked (setting_of replica.old h) now) (at_first met stored) operations).stored) }
    ensures work { V.is_told ≡ true → IfOk result (λ work. (h : Meanings) (met : List Met) (stored : Group → ℕ) → Means (H.meant handlers.old) h → All IsAbout operations →
        IsAt V.version h replica.old met stored →
        work ≡ work_of (fold (ticked (setting_of replica.old h) now) (at_first met stored) operations)) }
    ensures leaves { Leaves V.Versions (failed_to_act result) (H.meant handlers.old) (H.meant handlers.new) replica.old replica.new }
    ensures unserved { result ≡ Err act.Unserved → All IsServable operations → ⊥ }
{
    let mut work = Work::new(alloc, operations.len())?;
    replica.all_ticked(alloc, handlers, &mut work, now, operations)?;
    Ok(work)
}

/// The node ticks, as far as its operations act; these are the groups of which not all is applied that is decided.
#[tactic(auto, using(mega_replica::proofs::Using::used_here))]
pub fn ticks<R: Records, V: Versions>(
    alloc: Global,
    replica: &mut Replica<R, V>,
    now: u64,
    groups: Items<GroupId>,
) -> Result<Ticked, NoMemory>
    ensures ticked { IfOk result (λ made. (h : Meanings) (node : RuleNode) (open_ones : List Open) (begun : ℕ) →
        StandsWith V.version h replica.old open_ones begun node → groups ≡ behind (has_rows replica.old.members replica.old.me) node.met node.stored →
        HasOwnRows replica.old.members.schema (log_of (acted_on (setting_of replica.old h) node (Tick now))) →
        TickedAt V.version h replica.old replica.new made node now) }
    ensures staged { OnOk result ((h : Meanings) (node : RuleNode) (open_ones : List Open) (begun : ℕ) (before : List Met) →
        StandsWith V.version h replica.old open_ones begun node →
        Stages replica.old.voter.logs.staged.items before node.met → Stages replica.new.voter.logs.staged.items before (acted_on (setting_of replica.old h) node (Tick now))) }
    ensures records { replica.new.voter.logs.records ≡ replica.old.voter.logs.records }
    ensures members { replica.new.members ≡ replica.old.members }
    ensures me { replica.new.me ≡ replica.old.me }
    ensures indexed { replica.new.indexed ≡ replica.old.indexed }
    ensures digest { replica.new.digest ≡ replica.old.digest }
    ensures used { StoreUsed V.Versions None replica.old.rows.rows replica.new.rows.rows }
{
    let again = replica.leases.does_again(now);
    let keeps = has_rows(replica.members.cluster(), replica.me);
    let closing = background(
        alloc,
        &replica.voter,
        &replica.members,
        replica.me,
        keeps,
        again,
    )?;
    let most = u64::from(replica.members.cluster().apply);
    store_portions(
        alloc,
        &replica.voter,
        &mut replica.rows,
        keeps,
        most,
        groups,
    )?;
    let ticking = replica.leases.ticks(alloc, now)?;
    let mega_step_parts::mega_leases::Ticking {
        of_coordinator,
        of_cell,
        sends,
    } = ticking;
    keep_notes(alloc, &mut replica.voter, of_coordinator.as_slice())?;
    keep_notes(alloc, &mut replica.voter, of_cell.as_slice())?;
    let notes = both(alloc, of_coordinator, of_cell)?;
    Ok(Ticked {
        notes,
        opening: sends,
        closing,
    })
}
