//! The lease of a coordinator: its epoch, and until when each lock cell is counted.
ghost use Rattle.std.specs.Prelude.{◌≡◌, ◌≤◌, ◌+◌, ◌/◌, ◌==◌, map, count_by, is_some, Some, None};
ghost use Rattle.std.specs.List.{list_any};
ghost use Rattle.mega_coordinator.specs.Lease.{after_grant, after_tick, counted_by, counts, epoch_of, first_lease, granted_answer, granted_lease, is_due, is_majority, is_present, left, lost_at, next_count, next_lease, past_ends, past_lease, state_of, tick_ends, until_with};

use crate::answers::Counted;
use crate::cells::Cells;
use mega_base::Epoch;

/// What a coordinator holds: its epoch's count in this start, `None` once the last one ended, whether the
/// epoch serves, and until when each cell is counted, by cell from 1.
#[derive(Clone, Copy, Debug)]
pub struct Lease {
    pub count: Option<u32>,
    pub serves: bool,
    pub until: [Option<u64>; 5],
}

/// Whether the time of a counted cell is reached.
fn is_due(until: Option<u64>, now: u64) -> bool
    ensures { result ≡ is_due now until }
{
    match until {
        Some(time) => time <= now,
        None => false,
    }
}

/// What is left of a cell's time.
fn left(until: Option<u64>, now: u64) -> Option<u64>
    ensures { result ≡ left now until }
{
    if is_due(until, now) { None } else { until }
}

/// Which cells' time is reached.
#[tactic(auto, using(mega_base::proofs::Mapped::so_far_all))]
pub fn due_cells(until: &[Option<u64>; 5], now: u64) -> [bool; 5]
    ensures { result ≡ map (is_due now) until.now }
{
    let mut due = [false; 5];
    for (index, time) in until.iter().enumerate() {
        due[index] = is_due(*time, now);
    }
    due
}

/// Whether the time of a counted cell is reached.
fn any_due(until: &[Option<u64>; 5], now: u64) -> bool
    ensures { result ≡ list_any (is_due now) until.now }
{
    until.iter().any(|time| is_due(*time, now))
}

/// The times of the cells that stay counted.
#[tactic(auto, using(mega_base::proofs::Mapped::so_far_all))]
fn left_cells(until: &[Option<u64>; 5], now: u64) -> [Option<u64>; 5]
    ensures { result ≡ map (left now) until.now }
{
    let mut after = *until;
    for (index, time) in until.iter().enumerate() {
        after[index] = left(*time, now);
    }
    after
}

/// Which cells are counted.
#[tactic(auto, using(mega_base::proofs::Mapped::so_far_all))]
fn counted_cells(until: &[Option<u64>; 5]) -> [bool; 5]
    ensures { result ≡ map is_some until.now }
{
    let mut counted = [false; 5];
    for (index, time) in until.iter().enumerate() {
        counted[index] = time.is_some();
    }
    counted
}

/// Whether the counted cells are a majority of the cluster's.
fn is_majority(cells: u8, until: &[Option<u64>; 5]) -> bool
    ensures { result ≡ is_majority cells until.now }
{
    until.iter().filter(|time| time.is_some()).count() >= usize::from(cells) / 2 + 1
}

impl Lease {
    /// The first lease of a start.
    pub fn first() -> Lease
        ensures { result ≡ first_lease }
    {
        Lease {
            count: Some(0),
            serves: false,
            until: [None; 5],
        }
    }

    /// The present epoch.
    pub fn epoch(&self, start: u32) -> Option<Epoch>
        ensures { result ≡ epoch_of start self.now }
    {
        match self.count {
            Some(count) => Some(Epoch { start, count }),
            None => None,
        }
    }

    /// The epoch that serves.
    pub fn state(&self, start: u32) -> Option<Epoch>
        ensures { result ≡ state_of start self.now }
    {
        if self.serves { self.epoch(start) } else { None }
    }

    /// Which cells are counted, by cell from 1.
    pub fn counted(&self) -> [bool; 5]
        ensures { result ≡ map is_some self.now.until }
    {
        counted_cells(&self.until)
    }

    /// Whether this is the present epoch.
    fn is_present(&self, start: u32, epoch: Epoch) -> bool
        ensures { result ≡ is_present start self.now epoch }
    {
        match self.count {
            Some(count) => epoch.start == start && epoch.count == count,
            None => false,
        }
    }

    /// The lease once the epoch ended.
    pub fn next(self) -> Lease
        ensures { result ≡ next_lease self }
    {
        let count = match self.count {
            Some(u32::MAX) | None => None,
            Some(count) => Some(count + 1),
        };
        Lease {
            count,
            serves: false,
            until: [None; 5],
        }
    }

    /// Whether a cell's grant of this epoch until this time counts.
    fn counts(&self, start: u32, cells: u8, cell: u8, epoch: Epoch, until: u64, now: u64) -> bool
        requires { cells ≤ 5 }
        ensures { result ≡ counts start cells self.now cell epoch until now }
    {
        self.is_present(start, epoch)
            && now < until
            && 0 < cell
            && cell <= cells
            && (!self.serves || self.until[usize::from(cell) - 1].is_some())
    }

    /// Whether this past of a cell ends the epoch.
    pub fn past_ends(&self, start: u32, epoch: Epoch) -> bool
        ensures { result ≡ past_ends start self.now epoch }
    {
        self.is_present(start, epoch) && !self.serves
    }

    /// Whether a tick at this clock reading ends the epoch.
    pub fn tick_ends(&self, cells: u8, now: u64) -> bool
        ensures { result ≡ tick_ends cells self.now now }
    {
        if self.serves {
            !is_majority(cells, &left_cells(&self.until, now))
        } else {
            any_due(&self.until, now)
        }
    }

    /// The lease after a tick at this clock reading.
    pub fn after_tick(self, cells: u8, now: u64) -> Lease
        ensures { result ≡ after_tick cells self now }
    {
        if self.tick_ends(cells, now) {
            return self.next();
        }
        Lease {
            count: self.count,
            serves: self.serves,
            until: left_cells(&self.until, now),
        }
    }

    /// What a cell's grant of this epoch until this time does, and the lease after it.
    pub fn granted(
        self,
        start: u32,
        cells: Cells,
        cell: u8,
        epoch: Epoch,
        until: u64,
        now: u64,
    ) -> (Counted, Lease)
        ensures answer { result.0 ≡ granted_answer start cells.number self cell epoch until now }
        ensures lease { result.1 ≡ granted_lease start cells.number self cell epoch until now }
    {
        if !self.counts(start, cells.number, cell, epoch, until, now) {
            return (Counted::No, self);
        }
        let lease = self.after_grant(cells.number, cell, until);
        let answer = if lease.serves && !self.serves {
            Counted::Serving
        } else {
            Counted::Yes
        };
        (answer, lease)
    }

    /// The lease after a cell answered that this epoch is past.
    pub fn after_past(self, start: u32, epoch: Epoch) -> Lease
        ensures { result ≡ past_lease start self epoch }
    {
        if self.past_ends(start, epoch) {
            self.next()
        } else {
            self
        }
    }

    /// The lease after a cell's grant that counts.
    fn after_grant(self, cells: u8, cell: u8, until: u64) -> Lease
        requires least { 1 ≤ cell }
        requires most { cell ≤ 5 }
        ensures { result ≡ after_grant cells self cell until }
    {
        let index = usize::from(cell) - 1;
        let mut times = self.until;
        times[index] = Some(until.max(times[index].unwrap_or(0)));
        Lease {
            count: self.count,
            serves: self.serves || is_majority(cells, &times),
            until: times,
        }
    }
}
