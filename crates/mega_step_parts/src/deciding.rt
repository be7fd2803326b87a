//! The decision of a step: what a message tells or an operation settles, kept where it is new.
ghost use Rattle.std.specs.Prelude.{◌≡◌, ◌<◌, ◌++◌, ◌∷◌, List, map, is_none, is_some, None, Some, true, IfOk, OnOk};
ghost use Rattle.mega_node_laws.specs.Acted.{or_settled};
ghost use Rattle.mega_rules.specs.Logs.{decided};
ghost use Rattle.mega_rules.specs.Met.{Decides, Met};
ghost use Rattle.mega_rules.specs.Steps.{decision_note, first_settled, if_new, onto, told_decision};
ghost use Rattle.mega_step_work.specs.of_voter.Telling.{Tells};
ghost use Rattle.mega_step_parts.specs.Notes.{met_of};
ghost use Rattle.mega_step_parts.specs.Placed.{IsPlaced};
ghost use Rattle.mega_step_choices.specs.Staging.{Stages};

use crate::listening::Listeners;
use crate::note::Note;
use mega_base::{Copied, GroupId, Items, NoMemory, Position};
use mega_disk::Records;
use mega_entry::Entry;
use mega_step_work::mega_voter::Voter;
use mega_wire::Body;
use std::alloc::Global;
use std::marker::Model;

/// An entry that is decided, and where. Contracts see the decision of the rules.
#[derive(Debug, Drop)]
pub struct Chosen {
    pub group: GroupId,
    pub position: u64,
    pub entry: Entry,
}

impl Model for Chosen {
    ghost use Rattle.mega_rules.specs.Steps as rules;

    ghost Value = { rules.Decision };

    ghost view = { λ d. record { group = d.group; position = d.position; entry = d.entry } };
}

/// A decision of its own.
fn choice(alloc: Global, group: &GroupId, position: u64, entry: &Entry) -> Result<Chosen, NoMemory>
    ensures { IfOk result (λ made. made ≡ record { group = group.now; position = position; entry = entry.now }) }
{
    let group = group.copy(alloc)?;
    let entry = entry.copy(alloc)?;
    Ok(Chosen {
        group,
        position,
        entry,
    })
}

/// The decision that a message tells by itself.
fn told_decision(alloc: Global, body: &Body) -> Result<Option<Chosen>, NoMemory>
    ensures { IfOk result (λ d. d ≡ told_decision body.now) }
{
    match body {
        Body::Decide {
            group,
            position,
            entry,
        } => {
            let made = choice(alloc, group, position.0, entry)?;
            Ok(Some(made))
        }
        Body::Have {
            group,
            position,
            entry,
            ..
        } => {
            let made = choice(alloc, group, position.0, entry)?;
            Ok(Some(made))
        }
        _ => Ok(None),
    }
}

/// Whether a message tells a decision by itself.
pub(crate) fn tells_decision(body: &Body) -> bool
    ensures { result ≡ is_some (told_decision body.now) }
{
    matches!(body, Body::Decide { .. } | Body::Have { .. })
}

/// What the first of these operations settled that settled anything.
fn settled(alloc: Global, heard: &Listeners) -> Result<Option<Chosen>, NoMemory>
    ensures { IfOk result (λ d. d ≡ first_settled heard.now) }
{
    match heard.first_settled() {
        Some(found) => {
            let made = choice(alloc, found.group, found.position, found.entry)?;
            Ok(Some(made))
        }
        None => Ok(None),
    }
}

/// The decision that a message tells, or else what the first of these operations settled by it.
pub fn decision(alloc: Global, body: &Body, heard: &Listeners) -> Result<Option<Chosen>, NoMemory>
    ensures { IfOk result (λ d. d ≡ or_settled (told_decision body.now) (first_settled heard.now)) }
{
    match told_decision(alloc, body)? {
        Some(told) => Ok(Some(told)),
        None => settled(alloc, heard),
    }
}

/// Keeps a decision at a position that was not decided.
#[tactic(auto, using(mega_step_choices::proofs::Staged::deciding_staged))]
fn keep_new<R: Records>(alloc: Global, voter: &mut Voter<R>, found: &Chosen) -> Result<(), NoMemory>
    ensures kept { OnOk result ((met : List Met) → is_none (decided met found.now.group found.now.position) ≡ true → 0 < found.now.position → Tells voter.old.logs.kept met →
        Tells voter.new.logs.kept (Decides found.now.group found.now.position found.now.entry ∷ met)) }
    ensures staged { OnOk result ((before met : List Met) → is_none (decided met found.now.group found.now.position) ≡ true → Tells voter.old.logs.kept met → Stages voter.old.logs.staged.items before met →
        Stages voter.new.logs.staged.items before (Decides found.now.group found.now.position found.now.entry ∷ met)) }
    ensures records { voter.new.logs.records ≡ voter.old.logs.records }
{
    let entry = found.entry.copy(alloc)?;
    match voter.decides(alloc, &found.group, Position(found.position), entry) {
        Ok(_) => Ok(()),
        Err(_) => Err(NoMemory),
    }
}

/// Whether nothing is decided at the position of a decision.
fn is_new<R: Records>(voter: &Voter<R>, found: &Chosen) -> bool
    ensures { (met : List Met) → Tells voter.now.logs.kept met → result ≡ is_none (decided met found.now.group found.now.position) }
{
    voter
        .decided(&found.group, Position(found.position))
        .is_none()
}

/// Decides what was found, where its position was not decided, and gives what is new.
pub fn decides<R: Records>(
    alloc: Global,
    voter: &mut Voter<R>,
    found: Option<Chosen>,
) -> Result<Option<Chosen>, NoMemory>
    ensures new { IfOk result (λ d. (met : List Met) → Tells voter.old.logs.kept met → d ≡ if_new met found) }
    ensures state { IfOk result (λ d. (met : List Met) → IsPlaced d → Tells voter.old.logs.kept met → Tells voter.new.logs.kept (onto (decision_note d) met)) }
    ensures staged { IfOk result (λ d. (before met : List Met) → Tells voter.old.logs.kept met → Stages voter.old.logs.staged.items before met → Stages voter.new.logs.staged.items before (onto (decision_note d) met)) }
    ensures records { voter.new.logs.records ≡ voter.old.logs.records }
{
    match found {
        Some(found) => {
            if !is_new(voter, &found) {
                return Ok(None);
            }
            keep_new(alloc, voter, &found)?;
            Ok(Some(found))
        }
        None => Ok(None),
    }
}

/// Notes a decision, if there is one.
pub fn note_decision(
    alloc: Global,
    notes: &mut Items<Note>,
    found: &Option<Chosen>,
) -> Result<(), NoMemory>
    ensures { OnOk result (map met_of notes.new ≡ map met_of notes.old ++ decision_note found.now) }
{
    match found {
        Some(found) => {
            let group = found.group.copy(alloc)?;
            let entry = found.entry.copy(alloc)?;
            notes.push(Note::Decided {
                group,
                position: found.position,
                entry,
            })?;
            Ok(())
        }
        None => Ok(()),
    }
}
