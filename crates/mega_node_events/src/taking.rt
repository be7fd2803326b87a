//! A message is taken: what is told by it, what is decided, and what the operations do then.
ghost use Rattle.std.specs.Prelude.{◌≡◌, ◌≢◌, ◌++◌, ℕ, List, All, map, true, false, None, IfOk, OnOk, Err};
ghost use Rattle.mega_base.specs.declared.names.GroupId.{GroupId as Group};
ghost use Rattle.mega_handler.specs.Named.{Meanings};
ghost use Rattle.mega_meanings.specs.Means.{Means};
ghost use Rattle.mega_actions.specs.of_node_laws.Acted.{acted_on, decision_in, or_settled};
ghost use Rattle.mega_actions.specs.of_node_laws.Own.{HasOwnRows};
ghost use Rattle.mega_step_parts.specs.of_leases.Taking.{IsByStranger, IsLate};
ghost use Rattle.mega_step_parts.specs.of_leases.Tells.{Tells as TellsLeases};
ghost use Rattle.mega_rules.specs.Clock.{clock_of};
ghost use Rattle.mega_rules.specs.Logs.{log_of};
ghost use Rattle.mega_rules.specs.Members.{has_rows};
ghost use Rattle.mega_rules.specs.Met.{Met};
ghost use Rattle.mega_rules.specs.Operations.{Node as RuleNode, Operation as Open, Setting};
ghost use Rattle.mega_rules.specs.Steps.{Take, all_act, at_first, decision_note, first_settled, hears_message, if_new, news, onto, stored_after, told_decision};
ghost use Rattle.mega_replica.specs.Used.{StoreUsed};
ghost use Rattle.mega_replica.specs.Following.{Follows, progress_at};
ghost use Rattle.mega_step_parts.specs.of_voter.Telling.{Tells};
ghost use Rattle.mega_actions.specs.of_answers.declared.fault.ActFault.TheVariants as act;
ghost use Rattle.mega_actions.specs.of_answers.Faults.{failed_by as failed_to_act};
ghost use Rattle.mega_actions.specs.IsAt.{IsAt, setting_of};
ghost use Rattle.mega_actions.specs.Leaves.{Leaves};
ghost use Rattle.mega_actions.specs.Turns.{IsServableHeard, IsHeardAbout};
ghost use Rattle.mega_actions.specs.of_step_work.Working.{work_of};
ghost use Rattle.mega_node_events.specs.declared.fault.StepFault.TheVariants.{Late, Stranger, Unserved};
ghost use Rattle.mega_node_events.specs.Faults.{failed_by};
ghost use Rattle.mega_step_parts.specs.Notes.{met_of};
ghost use Rattle.mega_step_parts.specs.Placed.{IsPlaced};
ghost use Rattle.mega_step_parts.specs.Staging.{Stages};
ghost use Rattle.mega_node_events.specs.Taking.{TakenAt};
ghost use Rattle.mega_step_parts.specs.News.{news_by};
ghost use Rattle.mega_node_events.specs.Standing.{StandsWith};

use crate::fault::StepFault;
use crate::telling::{Reaction, is_told};
use mega_actions::Replica;
use mega_actions::mega_answers::ActFault;
use mega_actions::mega_step_work::Work;
use mega_base::{Items, NoMemory};
use mega_disk::{Records, Versions};
use mega_meanings::QueueHandlers;
use mega_step_parts::mega_operations::Members;
use mega_step_parts::{
    Chosen, Listeners, Note, add_sends, decides, decision, has_rows, news_by, note_decision, stores,
};
use mega_wire::{Body, Message};
use std::alloc::Global;

/// A message that is taken, before the operations act: what is noted and sent, and what they come to.
#[derive(Debug, Drop)]
pub struct Arrival {
    pub notes: Items<Note>,
    pub sends: Items<Message>,
    pub heard: Listeners,
}

/// Decides what a message tells or an operation settled by it, and stores a portion of its group where rows are kept.
#[tactic(auto, using(mega_replica::proofs::Using::used_here))]
fn decides_by<R: Records, V: Versions>(
    alloc: Global,
    replica: &mut Replica<R, V>,
    message: &Message,
    heard: &Listeners,
) -> Result<Option<Chosen>, NoMemory>
    ensures new { IfOk result (λ d. (met : List Met) → Tells replica.old.voter.logs.kept met → d ≡ if_new met (or_settled (told_decision message.now.body) (first_settled heard.now))) }
    ensures kept { IfOk result (λ d. (met : List Met) → IsPlaced d → Tells replica.old.voter.logs.kept met → Tells replica.new.voter.logs.kept (onto (decision_note d) met)) }
    ensures staged { IfOk result (λ d. (before met : List Met) → Tells replica.old.voter.logs.kept met → Stages replica.old.voter.logs.staged.items before met → Stages replica.new.voter.logs.staged.items before (onto (decision_note d) met)) }
    ensures records { replica.new.voter.logs.records ≡ replica.old.voter.logs.records }
    ensures follows { IfOk result (λ d. (h : Meanings) (met : List Met) (stored : Group → ℕ) → (has_rows replica.old.members replica.old.me ≡ false → (group : Group) → stored group ≡ 0) → IsPlaced d → Tells replica.old.voter.logs.kept met →
        Follows (V.version replica.old.rows.rows) (progress_at replica.old.rows.progress) (log_of met) stored →
        Follows (V.version replica.new.rows.rows) (progress_at replica.new.rows.progress) (log_of (onto (decision_note d) met)) (stored_after (setting_of replica.old h) (onto (decision_note d) met) stored d)) }
    ensures members { replica.new.members ≡ replica.old.members }
    ensures me { replica.new.me ≡ replica.old.me }
    ensures leases { replica.new.leases ≡ replica.old.leases }
    ensures indexed { replica.new.indexed ≡ replica.old.indexed }
    ensures digest { replica.new.digest ≡ replica.old.digest }
    ensures used { StoreUsed V.Versions None replica.old.rows.rows replica.new.rows.rows }
{
    let found = decision(alloc, &message.body, heard)?;
    let found = decides(alloc, &mut replica.voter, found)?;
    let keeps = has_rows(replica.members.cluster(), replica.me);
    let most = u64::from(replica.members.cluster().apply);
    stores(
        alloc,
        &replica.voter,
        &mut replica.rows,
        keeps,
        most,
        &found,
    )?;
    Ok(found)
}

/// What is taken: a decision is noted behind what was told, and its news is sent behind the reply.
fn assemble(
    alloc: Global,
    members: &Members,
    me: u8,
    body: &Body,
    told: Reaction,
    heard: Listeners,
    found: &Option<Chosen>,
) -> Result<Arrival, NoMemory>
    ensures notes { IfOk result (λ made. map met_of made.notes ≡ map met_of told.notes ++ decision_note found.now) }
    ensures sends { IfOk result (λ made. (s : Setting) → s.cluster ≡ members.now → s.me ≡ me → made.sends ≡ told.sends ++ news_by s (told_decision body.now) found.now) }
    ensures heard { IfOk result (λ made. made.heard ≡ heard) }
{
    let Reaction { notes, sends } = told;
    let mut notes = notes;
    note_decision(alloc, &mut notes, found)?;
    let news = news_by(alloc, members, me, body, found)?;
    let mut sends = sends;
    add_sends(&mut sends, news)?;
    Ok(Arrival {
        notes,
        sends,
        heard,
    })
}

/// The node takes a message that its operations heard, as far as they act.
#[tactic(auto, using(mega_replica::proofs::Using::used_here, crate::proofs::Failing::used_from))]
pub fn takes<R: Records, V: Versions>(
    alloc: Global,
    replica: &mut Replica<R, V>,
    heard: Listeners,
    message: &Message,
) -> Result<Arrival, StepFault>
    ensures taken { IfOk result (λ made. (h : Meanings) (node : RuleNode) (open_ones : List Open) (begun : ℕ) →
        StandsWith V.version h replica.old open_ones begun node →
        heard ≡ map (hears_message (setting_of replica.old h) (clock_of node.met) message.now) node.open_operations →
        HasOwnRows replica.old.members.schema (log_of (acted_on (setting_of replica.old h) node (Take message.now))) → IsPlaced (decision_in (setting_of replica.old h) node message.now) →
        TakenAt V.version h replica.old replica.new made node message.now) }
    ensures staged { IfOk result (λ made. (h : Meanings) (node : RuleNode) (open_ones : List Open) (begun : ℕ) (before : List Met) →
        StandsWith V.version h replica.old open_ones begun node →
        heard ≡ map (hears_message (setting_of replica.old h) (clock_of node.met) message.now) node.open_operations →
        Stages replica.old.voter.logs.staged.items before node.met → Stages replica.new.voter.logs.staged.items before (acted_on (setting_of replica.old h) node (Take message.now))) }
    ensures records { replica.new.voter.logs.records ≡ replica.old.voter.logs.records }
    ensures heard { IfOk result (λ made. made.heard ≡ heard) }
    ensures members { replica.new.members ≡ replica.old.members }
    ensures me { replica.new.me ≡ replica.old.me }
    ensures indexed { replica.new.indexed ≡ replica.old.indexed }
    ensures digest { replica.new.digest ≡ replica.old.digest }
    ensures built { result ≢ Err Unserved }
    ensures stranger { result ≡ Err Stranger → IsByStranger message.now.from message.now.body }
    ensures late { result ≡ Err Late → (met : List Met) → TellsLeases replica.old.members replica.old.me replica.old.leases met → IsLate replica.old.members message.now.body }
    ensures apart { failed_by result ≡ None }
    ensures used { StoreUsed V.Versions None replica.old.rows.rows replica.new.rows.rows }
{
    let told = is_told(alloc, replica, message)?;
    let found = decides_by(alloc, replica, message, &heard)?;
    let made = assemble(
        alloc,
        &replica.members,
        replica.me,
        &message.body,
        told,
        heard,
        &found,
    )?;
    Ok(made)
}

/// The operations act on what they heard.
#[tactic(auto, using(mega_replica::proofs::Using::used_here))]
pub fn acts<R: Records, V: Versions, H: QueueHandlers>(
    alloc: Global,
    handlers: &mut H,
    replica: &mut Replica<R, V>,
    heard: Listeners,
) -> Result<Work, ActFault>
    ensures state { V.is_told ≡ true → OnOk result ((h : Meanings) (met : List Met) (stored : Group → ℕ) → Means (H.meant handlers.old) h → All IsHeardAbout heard →
        IsAt V.version h replica.old met stored →
        IsAt V.version h replica.new
        (all_act (setting_of replica.old h) (at_first met stored) heard).met (all_act (setting_of replica.old h) (at_first met stored) heard).stored) }
    ensures work { V.is_told ≡ true → IfOk result (λ work. (h : Meanings) (met : List Met) (stored : Group → ℕ) → Means (H.meant handlers.old) h → All IsHeardAbout heard →
        IsAt V.version h replica.old met stored →
        work ≡ work_of (all_act (setting_of replica.old h) (at_first met stored) heard)) }
    ensures leaves { Leaves V.Versions (failed_to_act result) (H.meant handlers.old) (H.meant handlers.new) replica.old replica.new }
    ensures unserved { result ≡ Err act.Unserved → All IsServableHeard heard → ⊥ }
{
    let Listeners { unmoved, heard } = heard;
    match replica.all_rest(alloc, handlers, unmoved) {
        Ok(mut work) => {
            replica.all_act(alloc, handlers, &mut work, heard)?;
            Ok(work)
        }
        Err(fault) => {
            drop(heard);
            Err(fault)
        }
    }
}
