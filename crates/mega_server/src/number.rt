//! The number of a node.
ghost use Rattle.std.specs.Prelude.{◌≡◌, ◌≤◌};

/// The number of a node: 1 to 9.
#[derive(Clone, Copy, Debug, Drop)]
pub struct Number {
    of: u8,
    ghost in_range: { (1 ≤ of) × (of ≤ 9) },
}

impl Number {
    /// This number.
    pub fn new(of: u8) -> Number
        requires least { 1 ≤ of }
        requires most { of ≤ 9 }
        ensures { result.of ≡ of }
    {
        Number { of }
    }

    /// As a byte.
    pub fn get(&self) -> u8
        ensures number { result ≡ self.now.of }
        ensures least { 1 ≤ result }
        ensures most { result ≤ 9 }
    {
        self.of
    }
}
