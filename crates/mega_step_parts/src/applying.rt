//! Which groups a step applies more of, and what is noted of that.
ghost use Rattle.std.specs.Prelude.{◌≡◌, ◌++◌, ℕ, List, map, flat_map, IfOk, OnOk};
ghost use Rattle.mega_base.specs.declared.names.GroupId.{GroupId as Group};
ghost use Rattle.mega_rules.specs.Met.{Met};
ghost use Rattle.mega_replica.specs.Following.{progress_at};
ghost use Rattle.mega_step_parts.specs.Notes.{met_of};
ghost use Rattle.mega_step_choices.specs.Behind.{Keeps};
ghost use Rattle.mega_step_parts.specs.Positions.{before_at, note_since};

use crate::note::Note;
use mega_base::{GroupId, Items, NoMemory};
use mega_disk::{Records, Versions};
use mega_replica::StoredRows;
use mega_step_choices::applied_at;
use mega_step_work::mega_voter::Voter;
use std::alloc::Global;

/// The applied position of a group before a step.
#[derive(Debug, Drop)]
pub struct Before {
    pub group: GroupId,
    pub position: u64,
}

/// A group with its applied position.
fn before_at<R: Records, V: Versions>(
    voter: &Voter<R>,
    rows: &StoredRows<V>,
    group: GroupId,
) -> Before
    ensures { (met : List Met) (stored : Group → ℕ) →
        Keeps voter.now.logs.kept (V.version rows.now.rows) (progress_at rows.now.progress) met stored → result ≡ before_at met stored group }
{
    let position = applied_at(voter, rows, &group);
    Before { group, position }
}

/// The applied positions of these groups.
pub fn positions<R: Records, V: Versions>(
    alloc: Global,
    voter: &Voter<R>,
    rows: &StoredRows<V>,
    groups: Items<GroupId>,
) -> Result<Items<Before>, NoMemory>
    ensures { IfOk result (λ before. (met : List Met) (stored : Group → ℕ) →
        Keeps voter.now.logs.kept (V.version rows.now.rows) (progress_at rows.now.progress) met stored → before ≡ map (before_at met stored) groups) }
{
    let mut before = Items::new(alloc);
    for group in groups.into_vec() {
        before.push(before_at(voter, rows, group))?;
    }
    Ok(before)
}

/// Notes the applied position of a group where it is above the one before.
fn note_applied<R: Records, V: Versions>(
    voter: &Voter<R>,
    rows: &StoredRows<V>,
    notes: &mut Items<Note>,
    before: Before,
) -> Result<(), NoMemory>
    ensures { OnOk result ((met : List Met) (stored : Group → ℕ) →
        Keeps voter.now.logs.kept (V.version rows.now.rows) (progress_at rows.now.progress) met stored →
        map met_of notes.new ≡ map met_of notes.old ++ note_since met stored before) }
{
    let position = applied_at(voter, rows, &before.group);
    if before.position < position {
        let group = before.group;
        notes.push(Note::Applied { group, position })?;
        return Ok(());
    }
    Ok(())
}

/// What is noted of the groups of which more is applied than before, in order.
pub fn apply_notes<R: Records, V: Versions>(
    alloc: Global,
    voter: &Voter<R>,
    rows: &StoredRows<V>,
    before: Items<Before>,
) -> Result<Items<Note>, NoMemory>
    ensures { IfOk result (λ notes. (met : List Met) (stored : Group → ℕ) →
        Keeps voter.now.logs.kept (V.version rows.now.rows) (progress_at rows.now.progress) met stored →
        map met_of notes ≡ flat_map (note_since met stored) before) }
{
    let mut notes = Items::new(alloc);
    for one in before.into_vec() {
        note_applied(voter, rows, &mut notes, one)?;
    }
    Ok(notes)
}
