//! What tells whether leases are safe: the lapses, and whether it was told that they are not.

ghost use Rattle.std.specs.Prelude.{◌≡◌, ◌||◌, ℕ, List, map, false, None, OnOk};
ghost use Rattle.std.specs.BTreeSet.{contains};
ghost use Rattle.mega_rules.specs.Met.{Met};
ghost use Rattle.mega_rules.specs.Steps.{onto};
ghost use Rattle.mega_promises.specs.Runs.{set_at};
ghost use Rattle.mega_leases.specs.Notes.{met_of as leases_met};
ghost use Rattle.mega_step_parts.specs.Notes.{met_of};
ghost use Rattle.mega_safety.specs.declared.safety.Lapse.{Lapse as LapseValue};
ghost use Rattle.mega_safety.specs.Lapses.{AreLapsesOf, is_lapse, lapse_cmp, lapse_of};

use mega_base::{Epoch, Items, NoMemory, NodeId};
use mega_step_parts::Note;
use mega_step_work::{Answered, Valid};
use std::alloc::Global;
use std::collections::BTreeSet;

/// An epoch of a node that lapsed at a cell.
#[derive(Clone, Copy, PartialEq, Eq, PartialOrd, Ord, Debug, Drop)]
pub struct Lapse {
    pub cell: u8,
    pub node: NodeId,
    pub epoch: Epoch,
}

/// What tells whether leases are safe: every lapse that there was, and whether it was told that they are not.
#[derive(Drop)]
pub struct Safety {
    pub lapses: BTreeSet<Lapse>,
    pub is_told: bool,
}

/// A group that became valid is no lapse.
fn lapse_in_valid(cell: u8, valid: &Valid) -> Option<Lapse>
    ensures { result ≡ lapse_of cell valid.now }
{
    let Valid {
        position: _position,
        ..
    } = valid;
    None
}

/// An answer is no lapse.
fn lapse_in_answer(cell: u8, answered: &Answered) -> Option<Lapse>
    ensures { result ≡ lapse_of cell answered.now }
{
    let Answered { op: _op, .. } = answered;
    None
}

/// The lapse that the node of a cell notes of its leases, if it is one.
fn lapse_in(cell: u8, note: &mega_leases::LeaseNote) -> Option<Lapse>
    ensures { result ≡ lapse_of cell (leases_met note.now) }
{
    use mega_leases::LeaseNote;
    match note {
        LeaseNote::Lapses { node, epoch } => Some(Lapse {
            cell,
            node: *node,
            epoch: *epoch,
        }),
        LeaseNote::Grants { .. }
        | LeaseNote::Counts { .. }
        | LeaseNote::Forgets { .. }
        | LeaseNote::Serves { .. }
        | LeaseNote::Loses { .. }
        | LeaseNote::Invalidates { .. } => None,
    }
}

/// The lapse that the node of a cell notes, if it is one.
fn lapse_of(cell: u8, note: &Note) -> Option<Lapse>
    ensures { result ≡ lapse_of cell (met_of note.now) }
{
    match note {
        Note::OfLeases(one) => lapse_in(cell, one),
        Note::Decided { .. } => None,
        Note::Applied { .. } => None,
        Note::MadeValid(valid) => lapse_in_valid(cell, valid),
        Note::Answered(answered) => lapse_in_answer(cell, answered),
    }
}

/// Keeps a lapse, if there is one.
fn keep(lapses: &mut BTreeSet<Lapse>, lapse: Option<Lapse>) -> Result<(), NoMemory>
    ensures { OnOk result ((other : LapseValue) → contains lapse_cmp lapses.new other ≡ (is_lapse lapse other || contains lapse_cmp lapses.old other)) }
{
    match lapse {
        Some(lapse) => {
            lapses.insert(lapse)?;
            Ok(())
        }
        None => Ok(()),
    }
}

/// Keeps the lapses among what the node of a cell notes.
pub fn keep_lapses(
    lapses: &mut BTreeSet<Lapse>,
    cell: u8,
    notes: &Items<Note>,
) -> Result<(), NoMemory>
    ensures { OnOk result ((met : ℕ → List Met) → AreLapsesOf lapses.old met → AreLapsesOf lapses.new (set_at met cell (onto (map met_of notes.now) (met cell)))) }
{
    for note in notes.as_slice() {
        keep(lapses, lapse_of(cell, note))?;
    }
    Ok(())
}

impl Safety {
    /// No epoch lapsed, and nothing was told.
    pub fn new(alloc: Global) -> Safety
        ensures lapses { (lapse : LapseValue) → contains lapse_cmp result.lapses lapse ≡ false }
        ensures told { result.is_told ≡ false }
    {
        Safety {
            lapses: BTreeSet::new(alloc),
            is_told: false,
        }
    }

    /// Whether an epoch of a node ever lapsed at a cell.
    pub fn has_lapsed(&self, lapse: Lapse) -> bool
        ensures { result ≡ contains lapse_cmp self.now.lapses lapse }
    {
        self.lapses.contains(&lapse)
    }
}
