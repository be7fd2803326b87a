//! Why a node is served no longer.
use mega_base::NoMemory;

/// Why a node did not step. It is down from then on.
#[derive(Clone, Copy, PartialEq, Eq, Debug, Drop)]
pub enum NodeFault {
    /// A device failed, and its count of faults rose.
    DiskFault,
    /// A device file would have this length, more than 2^40.
    Full { length: u64 },
    /// The bytes that were read of this record are none of the format.
    BadRecord { number: u64 },
    /// Its log refused a record before.
    Spent,
    /// What it was given, or what its step made, is none of the formats.
    Unformed,
    /// An allocation was refused.
    NoMemory,
}

/// Why a node is served no longer.
#[derive(Clone, Copy, PartialEq, Eq, Debug, Drop)]
pub enum ServeFault {
    /// The node did not step.
    Node(NodeFault),
    /// The sink failed, and its count of faults rose.
    SinkFault,
    /// An allocation was refused.
    NoMemory,
}

impl From<NoMemory> for ServeFault {
    ghost use Rattle.std.specs.Prelude.{◌≡◌};
    ghost use Rattle.mega_page.specs.declared.fault.ServeFault.TheVariants.{NoMemory as OutOfMemory};

    ghost from_gives = { λ _ fault. fault ≡ OutOfMemory };

    fn from(_refused: NoMemory) -> ServeFault {
        ServeFault::NoMemory
    }
}
