//! Why operations do not act.
ghost use Rattle.std.specs.Prelude.{◌≡◌};
ghost use Rattle.mega_answers.specs.declared.fault.ActFault.TheVariants.{Unserved};
ghost use Rattle.mega_answers.specs.Faults.{error_of, of_store};

use mega_base::NoMemory;
use mega_disk::StoreError;

/// Why operations did not act.
#[derive(Clone, Copy, PartialEq, Eq, Debug, Drop)]
pub enum ActFault {
    /// A device of the rows failed, and its count of faults rose.
    DiskFault,
    /// A device file would have this length, more than 2^40.
    Full { length: u64 },
    /// The bytes that were read of this run are none of the format.
    BadRecord { number: u64 },
    /// A batch of more than 16 transactions was asked for.
    Unserved,
    /// An allocation was refused.
    NoMemory,
}

impl From<NoMemory> for ActFault {
    ghost use Rattle.mega_answers.specs.declared.fault.ActFault.TheVariants.{NoMemory as OutOfMemory};

    ghost from_gives = { λ _ fault. fault ≡ OutOfMemory };

    fn from(_refused: NoMemory) -> ActFault {
        ActFault::NoMemory
    }
}

/// The fault that an error of the store is.
pub(crate) fn fault_by(error: StoreError) -> ActFault
    ensures exact { of_store result ≡ error_of error }
    ensures built { result ≡ Unserved → ⊥ }
{
    match error {
        StoreError::DiskFault => ActFault::DiskFault,
        StoreError::Full { length } => ActFault::Full { length },
        StoreError::BadRecord { number } => ActFault::BadRecord { number },
        StoreError::NoMemory => ActFault::NoMemory,
    }
}
