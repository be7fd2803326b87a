//! What a tick does to cell and coordinator, and which cells it asks again.
ghost use Rattle.std.specs.Prelude.{◌≡◌, ◌-◌, ◌&&◌, ◌∷◌, ◌++◌, [], List, Some, None, map, flat_map, filter, get_or, nat_le, IfOk, if◌then◌else◌};
ghost use Rattle.std.specs.List.{range_with_len};
ghost use Rattle.mega_locks.specs.History.{Ticks as CellTicks, lapse_for, nodes};
ghost use Rattle.mega_coordinator.specs.History.{Ticks as CoordinatorTicks, counted_cells, epoch_after, serving, ticked};
ghost use Rattle.mega_rules.specs.Met.{Met, Ticks};
ghost use Rattle.mega_rules.specs.Clock.{does_again, last_tick};
ghost use Rattle.mega_rules.specs.Members.{is_full, keep_of};
ghost use Rattle.mega_rules.specs.Coordinators.{acquire_to, acquires, acquires_at, asked_cells, forget_notes, is_cell_in, lost_note};
ghost use Rattle.mega_rules.specs.Locks.{lapse_note};
ghost use Rattle.mega_rules.specs.Steps.{lapse_notes, lease_notes, onto};
ghost use Rattle.mega_rules.specs.Operations.{Setting};
ghost use Rattle.mega_leases.specs.Notes.{met_of};
ghost use Rattle.mega_leases.specs.Tells.{Holds, Tells};

use crate::leases::{Leases, is_again};
use crate::note::LeaseNote;
use crate::noting::{cells, lapse_notes, marked_cells, tick_notes};
use mega_base::{Epoch, Items, NoMemory};
use mega_coordinator::Ticked;
use mega_wire::{Body, Message};
use std::alloc::Global;

/// What a tick leads to: what the node notes of its coordinator and then of its cell, and the cells that it
/// asks for its epoch.
#[derive(Debug, Drop)]
pub struct Ticking {
    pub of_coordinator: Items<LeaseNote>,
    pub of_cell: Items<LeaseNote>,
    pub sends: Items<Message>,
}

/// What a tick did: the epoch before it, what the coordinator and the cell answered, and whether it is time
/// to ask again.
#[derive(Clone, Copy, Debug)]
struct Due {
    epoch: Option<Epoch>,
    told: Ticked,
    lapsed: [Option<Epoch>; 9],
    again: bool,
}

/// The tick at which what is done again was done last, after this one.
fn last_after(last: Option<u64>, again: bool, now: u64) -> Option<u64>
    ensures { result ≡ (if again then Some now else last) }
{
    if again { Some(now) } else { last }
}

/// Asks each of these cells for an epoch.
fn asks(
    alloc: Global,
    me: u8,
    epoch: Epoch,
    now: u64,
    cells: &[u8],
) -> Result<Items<Message>, NoMemory>
    ensures { IfOk result (λ sends. sends ≡ map (acquire_to me epoch now) cells.now) }
{
    let mut sends = Items::new(alloc);
    for cell in cells {
        let body = Body::Acquire {
            cell: *cell,
            epoch,
            clock: now,
        };
        sends.push(Message {
            from: me,
            to: *cell,
            body,
        })?;
    }
    Ok(sends)
}

impl Leases {
    /// The clock, the coordinator and the cell tick.
    fn advance(&mut self, now: u64) -> Due
        ensures epoch { (c me start : _) (asked told ticks : _) → Holds c me self.old start asked told ticks → result.epoch ≡ epoch_after start c.cells told }
        ensures told { (c me start : _) (asked told ticks : _) → Holds c me self.old start asked told ticks → result.told ≡ ticked start c.cells told now }
        ensures lapsed { (c me start : _) (asked told ticks : _) → Holds c me self.old start asked told ticks → result.lapsed ≡ map (lapse_for asked now (keep_of c)) nodes }
        ensures again { (c me start : _) (asked told ticks : _) → Holds c me self.old start asked told ticks → result.again ≡ does_again c.retry ticks now }
        ensures state { (c me start : _) (asked told ticks : _) → Holds c me self.old start asked told ticks → Holds c me self.new start (CellTicks now (keep_of c) ∷ asked) (CoordinatorTicks now ∷ told) (now ∷ ticks) }
        ensures numbers { self.new.numbers ≡ self.old.numbers }
    {
        let epoch = self.coordinator.epoch();
        let again = is_again(self.numbers.retry, now, self.last);
        let told = self.coordinator.tick(now);
        let lapsed = self.cell.lapse_due(now, self.numbers.keep);
        self.clock = now;
        self.last = last_after(self.last, again, now);
        Due {
            epoch,
            told,
            lapsed,
            again,
        }
    }

    /// What the node notes of its coordinator's tick; a node that is not full shows nothing of it.
    fn coordinator_notes(&self, alloc: Global, due: &Due) -> Result<Items<LeaseNote>, NoMemory>
        ensures { IfOk result (λ notes. map met_of notes ≡ (if self.now.numbers.full then forget_notes due.now.epoch (filter (is_cell_in due.now.told.forgot) (range_with_len 1 self.now.numbers.cells)) ++ lost_note due.now.told.lost else [])) }
    {
        if !self.numbers.full {
            return Ok(Items::new(alloc));
        }
        let told = due.told;
        tick_notes(
            alloc,
            self.numbers.cells,
            due.epoch,
            &told.forgot,
            told.lost,
        )
    }

    /// What the node notes of its cell's tick, where a cell lives in it.
    fn cell_notes(&self, alloc: Global, due: &Due) -> Result<Items<LeaseNote>, NoMemory>
        ensures { IfOk result (λ notes. map met_of notes ≡ (if nat_le self.now.numbers.me self.now.numbers.cells then flat_map (λ node. lapse_note node (get_or due.now.lapsed (node - 1) None)) nodes else [])) }
    {
        if self.numbers.me > self.numbers.cells {
            return Ok(Items::new(alloc));
        }
        lapse_notes(alloc, &due.lapsed)
    }

    /// The cells that the node asks for its epoch: those that its coordinator counts where it serves, and
    /// else all.
    fn asked_cells(&self, alloc: Global) -> Result<Items<u8>, NoMemory>
        ensures { IfOk result (λ made. (c me start : _) (asked told ticks : _) → Holds c me self.now start asked told ticks → made ≡ asked_cells c (counted_cells start c.cells told) (serving start c.cells told)) }
    {
        match self.coordinator.state() {
            Some(_) => marked_cells(alloc, self.numbers.cells, &self.coordinator.counted()),
            None => cells(alloc, self.numbers.cells),
        }
    }

    /// Asks for the present epoch.
    fn acquires(&self, alloc: Global) -> Result<Items<Message>, NoMemory>
        ensures { IfOk result (λ made. (c me start : _) (asked told ticks : _) → Holds c me self.now start asked told ticks → made ≡ acquires c me told start (last_tick ticks) (epoch_after start c.cells told)) }
    {
        let Some(epoch) = self.coordinator.epoch() else {
            return Ok(Items::new(alloc));
        };
        let cells = self.asked_cells(alloc)?;
        asks(alloc, self.numbers.me, epoch, self.clock, cells.as_slice())
    }

    /// The cells that a full node asks for its epoch where that is due.
    fn asks_again(&self, alloc: Global, due: &Due) -> Result<Items<Message>, NoMemory>
        ensures { IfOk result (λ made. (c me start : _) (asked told ticks : _) → Holds c me self.now start asked told ticks → made ≡ (if is_full c me && due.now.again then acquires c me told start (last_tick ticks) (epoch_after start c.cells told) else [])) }
    {
        if self.numbers.full && due.again {
            self.acquires(alloc)
        } else {
            Ok(Items::new(alloc))
        }
    }

    /// The node ticks: what it notes of its coordinator and then of its cell, and the cells that it asks for
    /// its epoch. A refusal leaves it as ticked, and loses what the tick leads to.
    pub fn ticks(&mut self, alloc: Global, now: u64) -> Result<Ticking, NoMemory>
        ensures lease_notes { IfOk result (λ made. (s : Setting) (met : List Met) → Tells s.cluster s.me self.old met → map met_of made.of_coordinator ≡ lease_notes s met now) }
        ensures lapse_notes { IfOk result (λ made. (s : Setting) (met : List Met) → Tells s.cluster s.me self.old met → map met_of made.of_cell ≡ lapse_notes s met now) }
        ensures acquires { IfOk result (λ made. (c me : _) (met : List Met) → Tells c me self.old met → made.sends ≡ acquires_at c me met now) }
        ensures state { (s : Setting) (met : List Met) → Tells s.cluster s.me self.old met → Tells s.cluster s.me self.new (onto (lapse_notes s met now) (onto (lease_notes s met now) (Ticks now ∷ met))) }
    {
        let due = self.advance(now);
        let of_coordinator = self.coordinator_notes(alloc, &due)?;
        let of_cell = self.cell_notes(alloc, &due)?;
        let sends = self.asks_again(alloc, &due)?;
        Ok(Ticking {
            of_coordinator,
            of_cell,
            sends,
        })
    }
}
