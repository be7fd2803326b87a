//! Numbers drawn from a seed, one after another.
ghost use Rattle.std.specs.Prelude.{◌<◌};

use crate::draws::{drawn, next};

/// Numbers drawn from a seed.
#[derive(Drop)]
pub struct DrawnNumbers {
    state: u64,
}

impl DrawnNumbers {
    pub fn new(seed: u64) -> DrawnNumbers {
        DrawnNumbers { state: seed }
    }

    /// The next number, below `most`, or 0 where that is 0.
    pub fn draw(&mut self, most: u64) -> u64
        ensures { 0 < most → result < most }
    {
        self.state = next(self.state);
        if most == 0 {
            return 0;
        }
        drawn(self.state, most)
    }
}
