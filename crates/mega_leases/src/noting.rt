//! Turns the answers of cell and coordinator into what the node notes.
ghost use Rattle.std.specs.Prelude.{◌≡◌, ◌++◌, map, flat_map, filter, get_or, IfOk, None, ◌-◌};
ghost use Rattle.std.specs.List.{range_with_len};
ghost use Rattle.mega_locks.specs.History.{nodes};
ghost use Rattle.mega_rules.specs.Coordinators.{counts_notes, forget_notes, is_cell_in, lost_note};
ghost use Rattle.mega_rules.specs.Locks.{grant_note, lapse_note};
ghost use Rattle.mega_leases.specs.Notes.{count_notes, forgotten_note, lapsed_notes, met_of};

use crate::note::LeaseNote;
use mega_base::{Epoch, Items, NoMemory, NodeId};
use mega_coordinator::Counted;
use mega_locks::Asked;
use std::alloc::Global;

/// What a node notes of its cell's answer.
pub(crate) fn grant_note(
    alloc: Global,
    node: NodeId,
    epoch: Epoch,
    answer: Asked,
) -> Result<Items<LeaseNote>, NoMemory>
    ensures { IfOk result (λ notes. map met_of notes ≡ grant_note node.0 epoch answer) }
{
    let mut notes = Items::new(alloc);
    match answer {
        Asked::Granted => {
            notes.push(LeaseNote::Grants { node, epoch })?;
            Ok(notes)
        }
        _ => Ok(notes),
    }
}

/// What a node notes of a cell that it counts, unless it counted it before.
fn count_note(
    alloc: Global,
    cell: u8,
    epoch: Epoch,
    was_counted: bool,
) -> Result<Items<LeaseNote>, NoMemory>
    ensures { IfOk result (λ notes. notes ≡ count_notes cell epoch was_counted) }
{
    let mut notes = Items::new(alloc);
    if was_counted {
        return Ok(notes);
    }
    notes.push(LeaseNote::Counts { cell, epoch })?;
    Ok(notes)
}

/// What a node notes of what a grant did at its coordinator.
pub(crate) fn counts_notes(
    alloc: Global,
    cell: u8,
    epoch: Epoch,
    was_counted: bool,
    counted: Counted,
) -> Result<Items<LeaseNote>, NoMemory>
    ensures { IfOk result (λ notes. map met_of notes ≡ counts_notes cell epoch was_counted counted) }
{
    match counted {
        Counted::No => Ok(Items::new(alloc)),
        Counted::Yes => count_note(alloc, cell, epoch, was_counted),
        Counted::Serving => {
            let mut notes = count_note(alloc, cell, epoch, was_counted)?;
            notes.push(LeaseNote::Serves { epoch })?;
            Ok(notes)
        }
    }
}

/// Whether a cell is marked, of marks by cell from 1.
pub(crate) fn is_marked(marks: &[bool; 5], cell: u8) -> bool
    ensures { result ≡ is_cell_in marks.now cell }
{
    match marks.get(usize::from(cell).saturating_sub(1)) {
        Some(mark) => *mark,
        None => false,
    }
}

/// The cells of a cluster, in order.
#[tactic(auto, using(crate::proofs::Ticked::one_cell_more))]
pub(crate) fn cells(alloc: Global, number: u8) -> Result<Items<u8>, NoMemory>
    ensures { IfOk result (λ made. made ≡ range_with_len 1 number) }
{
    let mut made = Items::new(alloc);
    for before in 0..number {
        made.push(before + 1)?;
    }
    Ok(made)
}

/// The cells that are marked, in order.
pub(crate) fn marked_cells(
    alloc: Global,
    number: u8,
    marks: &[bool; 5],
) -> Result<Items<u8>, NoMemory>
    ensures { IfOk result (λ made. made ≡ filter (is_cell_in marks.now) (range_with_len 1 number)) }
{
    let all = cells(alloc, number)?;
    let marked: Vec<u8> = all
        .as_slice()
        .iter()
        .copied()
        .filter(|cell| is_marked(marks, *cell))
        .collect(alloc)?;
    Ok(Items::from_vec(marked))
}

/// What a node notes of the cells that its coordinator forgets.
fn forget_notes(alloc: Global, epoch: Epoch, cells: &[u8]) -> Result<Items<LeaseNote>, NoMemory>
    ensures { IfOk result (λ notes. notes ≡ map (forgotten_note epoch) cells.now) }
{
    let mut notes = Items::new(alloc);
    for cell in cells {
        notes.push(LeaseNote::Forgets { cell: *cell, epoch })?;
    }
    Ok(notes)
}

/// Adds what a node notes of the epoch that it loses.
fn add_lost(notes: Items<LeaseNote>, lost: Option<Epoch>) -> Result<Items<LeaseNote>, NoMemory>
    ensures { IfOk result (λ made. map met_of made ≡ map met_of notes ++ lost_note lost) }
{
    let mut made = notes;
    match lost {
        Some(epoch) => {
            made.push(LeaseNote::Loses { epoch })?;
            Ok(made)
        }
        None => Ok(made),
    }
}

/// What a node notes of its coordinator's tick: the cells that it forgets in the epoch before the tick, and
/// the epoch that it loses.
pub(crate) fn tick_notes(
    alloc: Global,
    number: u8,
    epoch: Option<Epoch>,
    forgot: &[bool; 5],
    lost: Option<Epoch>,
) -> Result<Items<LeaseNote>, NoMemory>
    ensures { IfOk result (λ notes. map met_of notes ≡ forget_notes epoch (filter (is_cell_in forgot.now) (range_with_len 1 number)) ++ lost_note lost) }
{
    let Some(epoch) = epoch else {
        return add_lost(Items::new(alloc), lost);
    };
    let forgotten = marked_cells(alloc, number, forgot)?;
    let notes = forget_notes(alloc, epoch, forgotten.as_slice())?;
    add_lost(notes, lost)
}

/// Adds what a node notes of an epoch that its cell let lapse.
fn add_lapse(
    notes: Items<LeaseNote>,
    node: u8,
    lapsed: Option<Epoch>,
) -> Result<Items<LeaseNote>, NoMemory>
    ensures { IfOk result (λ made. made ≡ notes ++ lapsed_notes node lapsed) }
{
    let mut made = notes;
    match lapsed {
        Some(epoch) => {
            let node = NodeId(node);
            made.push(LeaseNote::Lapses { node, epoch })?;
            Ok(made)
        }
        None => Ok(made),
    }
}

/// What a node notes of the epochs that its cell let lapse, in order of node.
pub(crate) fn lapse_notes(
    alloc: Global,
    lapsed: &[Option<Epoch>; 9],
) -> Result<Items<LeaseNote>, NoMemory>
    ensures { IfOk result (λ notes. map met_of notes ≡ flat_map (λ node. lapse_note node (get_or lapsed.now (node - 1) None)) nodes) }
{
    let mut notes = Items::new(alloc);
    for before in 0..9u8 {
        notes = add_lapse(notes, before + 1, lapsed[usize::from(before)])?;
    }
    Ok(notes)
}
