//! A clock in memory, which gives its readings in order.
ghost use Rattle.std.specs.Prelude.{◌≡◌, ◌≤◌, ℕ, List, [], All, drop, Some};
ghost use Rattle.mega_link.specs.Datagrams.{Gains};
ghost use Rattle.mega_link.specs.Readings.{NeverFalls};
ghost use Rattle.mega_link.specs.GivenList.{next_or};

use crate::clock::{Clock, LATEST};
use std::marker::Model;

/// A clock in memory, which gives its readings in order and stays at the last, or at 0 where there is none.
#[derive(Drop)]
pub struct MemClock {
    readings: Vec<u64>,
    index: usize,
    extra: u64,
    last: u64,
}

impl Model for MemClock {
    ghost use Rattle.std.specs.Prelude.{drop};
    ghost use Rattle.mega_link.specs.Memory.{Course};
    ghost use Rattle.mega_link.specs.GivenList.{told};
    ghost use Rattle.mega_link.specs.Readings.{IsCourse};

    ghost Value = { Course };

    ghost view = { λ clock. record { coming = drop clock.index clock.readings.items; readings = told clock.readings.items clock.index clock.extra clock.last; last = clock.last } };

    ghost invariant = { λ clock. IsCourse clock.readings.items clock.index clock.extra clock.last };
}

impl MemClock {
    /// A clock of these readings, which never fall and are at most 10^12.
    pub fn new(readings: Vec<u64>) -> MemClock
        requires never_fall { NeverFalls readings.items }
        requires latest { All (λ reading. reading ≤ LATEST) readings.items }
        ensures { result ≡ record { coming = readings.items; readings = Some []; last = 0 } }
    {
        MemClock {
            readings,
            index: 0,
            extra: 0,
            last: 0,
        }
    }
}

impl Clock for MemClock {
    ghost last = { λ clock. clock.last };

    ghost readings = { λ clock. clock.readings };

    fn now(&mut self) -> u64
        ensures never_back { self.old.last ≤ result }
        ensures latest { result ≤ LATEST }
        ensures last { self.new.last ≡ result }
        ensures told { Gains self.old.readings self.new.readings result }
        ensures next { result ≡ next_or self.old.coming self.old.last }
        ensures coming { self.new.coming ≡ drop 1 self.old.coming }
    {
        if self.index == self.readings.len() {
            self.extra = self.extra.saturating_add(1);
            return self.last;
        }
        let reading = self.readings[self.index];
        self.index += 1;
        self.last = reading;
        reading
    }
}
