//! Why a backup is not written, or its lines are not read.
use mega_base::{Bytes, NoMemory, Position};

/// Why a backup is not written or read.
#[derive(Debug, Drop)]
pub enum BackupFault {
    /// Only so many entries are there.
    Short { has: Position },
    /// This line, counted from 1, is none of a backup, or is missing.
    Malformed { line: u64 },
    /// The put of the row under this key makes an entry that is too large.
    TooLarge { key: Bytes },
    /// The sink failed, and its count of faults rose.
    SinkFault,
    /// An allocation was refused.
    NoMemory,
}

impl From<NoMemory> for BackupFault {
    ghost use Rattle.std.specs.Prelude.{◌≡◌};
    ghost use Rattle.mega_backup.specs.declared.fault.BackupFault.TheVariants.{NoMemory as OutOfMemory};

    ghost from_gives = { λ _ fault. fault ≡ OutOfMemory };

    fn from(_refused: NoMemory) -> BackupFault {
        BackupFault::NoMemory
    }
}
