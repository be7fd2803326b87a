//! What the cell and the coordinator note, and what is sent, is kept by the voter of their node.
ghost use Rattle.std.specs.Prelude.{◌≡◌, ◌∷◌, List, map, IfOk, OnOk, Err, ◌++◌};
ghost use Rattle.mega_step_work.specs.of_leases.Notes.{met_of as leases_met};
ghost use Rattle.mega_rules.specs.Met.{Met, Sends};
ghost use Rattle.mega_rules.specs.Steps.{onto};
ghost use Rattle.mega_step_work.specs.of_voter.Telling.{Tells, IsAnswer};
ghost use Rattle.mega_step_parts.specs.Notes.{met_of};
ghost use Rattle.mega_step_choices.specs.Staging.{Stages};
ghost use Rattle.mega_node_laws.specs.Sending.{MaySend};

use crate::joining::add_of_leases;
use crate::note::Note;
use mega_base::{Items, NoMemory};
use mega_disk::Records;
use mega_step_choices::keep_note;
use mega_step_work::mega_leases::LeaseNote as OfLeases;
use mega_step_work::mega_voter::Voter;
use mega_wire::Message;
use std::alloc::Global;

/// Keeps the notes of the cell, in order.
pub fn keep_notes<R: Records>(
    alloc: Global,
    voter: &mut Voter<R>,
    notes: &[OfLeases],
) -> Result<(), NoMemory>
    ensures kept { OnOk result ((met : List Met) → Tells voter.old.logs.kept met → Tells voter.new.logs.kept (onto (map leases_met notes.now) met)) }
    ensures staged { OnOk result ((before met : List Met) → Stages voter.old.logs.staged.items before met → Stages voter.new.logs.staged.items before (onto (map leases_met notes.now) met)) }
    ensures records { voter.new.logs.records ≡ voter.old.logs.records }
{
    for note in notes {
        keep_note(alloc, voter, note)?;
    }
    Ok(())
}

/// These as notes of the node.
pub fn as_notes(alloc: Global, more: Items<OfLeases>) -> Result<Items<Note>, NoMemory>
    ensures { IfOk result (λ notes. map met_of notes ≡ map leases_met more) }
{
    let mut notes = Items::new(alloc);
    add_of_leases(&mut notes, more)?;
    Ok(notes)
}

/// These as notes of the node, those of the coordinator first.
pub fn both(
    alloc: Global,
    of_coordinator: Items<OfLeases>,
    of_cell: Items<OfLeases>,
) -> Result<Items<Note>, NoMemory>
    ensures { IfOk result (λ notes. map met_of notes ≡ map leases_met of_coordinator ++ map leases_met of_cell) }
{
    let mut notes = as_notes(alloc, of_coordinator)?;
    add_of_leases(&mut notes, of_cell)?;
    Ok(notes)
}

/// Tells the voter of a message that its node sends.
#[tactic(auto, using(mega_step_choices::proofs::Staged::sending_staged))]
fn tell_sent<R: Records>(
    alloc: Global,
    voter: &mut Voter<R>,
    message: &Message,
) -> Result<(), NoMemory>
    ensures kept { OnOk result ((met : List Met) → IsAnswer met message.now.body → Tells voter.old.logs.kept met → Tells voter.new.logs.kept (Sends message.now ∷ met)) }
    ensures staged { OnOk result ((before met : List Met) → IsAnswer met message.now.body → Tells voter.old.logs.kept met → Stages voter.old.logs.staged.items before met → Stages voter.new.logs.staged.items before (Sends message.now ∷ met)) }
    ensures records { voter.new.logs.records ≡ voter.old.logs.records }
{
    match voter.sent(alloc, message) {
        Ok(()) => Ok(()),
        Err(_) => Err(NoMemory),
    }
}

/// Tells the voter of all messages that its node sends in a step.
pub fn tell_all_sent<R: Records>(
    alloc: Global,
    voter: &mut Voter<R>,
    sends: &[Message],
) -> Result<(), NoMemory>
    ensures kept { OnOk result ((met : List Met) → MaySend met sends.now → Tells voter.old.logs.kept met → Tells voter.new.logs.kept (onto (map Sends sends.now) met)) }
    ensures staged { OnOk result ((before met : List Met) → MaySend met sends.now → Tells voter.old.logs.kept met → Stages voter.old.logs.staged.items before met → Stages voter.new.logs.staged.items before (onto (map Sends sends.now) met)) }
    ensures records { voter.new.logs.records ≡ voter.old.logs.records }
{
    for message in sends {
        tell_sent(alloc, voter, message)?;
    }
    Ok(())
}
