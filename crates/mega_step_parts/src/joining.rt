//! Joins the notes and the messages of the parts of a step.
ghost use Rattle.std.specs.Prelude.{◌≡◌, ◌++◌, map, IfOk, OnOk};
ghost use Rattle.mega_step_work.specs.of_leases.Notes.{met_of as leases_met};
ghost use Rattle.mega_step_parts.specs.Notes.{met_of};

use crate::note::Note;
use mega_base::{Items, NoMemory};
use mega_step_work::mega_leases::LeaseNote as OfLeases;
use mega_step_work::{Answered, Valid};
use mega_wire::Message;

/// Adds messages behind these.
pub fn add_sends(sends: &mut Items<Message>, more: Items<Message>) -> Result<(), NoMemory>
    ensures { OnOk result (sends.new ≡ sends.old ++ more) }
{
    if sends.is_empty() {
        *sends = more;
        return Ok(());
    }
    for message in more.into_vec() {
        sends.push(message)?;
    }
    Ok(())
}

/// Adds notes behind these.
fn add_notes(notes: &mut Items<Note>, more: Items<Note>) -> Result<(), NoMemory>
    ensures { OnOk result (map met_of notes.new ≡ map met_of notes.old ++ map met_of more) }
{
    for note in more.into_vec() {
        notes.push(note)?;
    }
    Ok(())
}

/// Adds that groups became valid.
fn add_valid(notes: &mut Items<Note>, valid: Items<Valid>) -> Result<(), NoMemory>
    ensures { OnOk result (map met_of notes.new ≡ map met_of notes.old ++ valid) }
{
    for one in valid.into_vec() {
        notes.push(Note::MadeValid(one))?;
    }
    Ok(())
}

/// Adds that operations ended.
fn add_answers(notes: &mut Items<Note>, answers: Items<Answered>) -> Result<(), NoMemory>
    ensures { OnOk result (map met_of notes.new ≡ map met_of notes.old ++ answers) }
{
    for one in answers.into_vec() {
        notes.push(Note::Answered(one))?;
    }
    Ok(())
}

/// Adds what the cell and the coordinator note.
pub(crate) fn add_of_leases(notes: &mut Items<Note>, more: Items<OfLeases>) -> Result<(), NoMemory>
    ensures { OnOk result (map met_of notes.new ≡ map met_of notes.old ++ map leases_met more) }
{
    for note in more.into_vec() {
        notes.push(Note::OfLeases(note))?;
    }
    Ok(())
}

/// The notes of a step in their order.
pub fn joined(
    first: Items<Note>,
    applies: Items<Note>,
    valid: Items<Valid>,
    answers: Items<Answered>,
) -> Result<Items<Note>, NoMemory>
    ensures { IfOk result (λ notes. map met_of notes ≡ ((map met_of first ++ map met_of applies) ++ valid) ++ answers) }
{
    let mut notes = first;
    add_notes(&mut notes, applies)?;
    add_valid(&mut notes, valid)?;
    add_answers(&mut notes, answers)?;
    Ok(notes)
}
