//! How a voter answers a prepare and an accept (Lamport 2001), and why its logs refuse a call.
ghost use Rattle.std.specs.Prelude.{◌≡◌};

use mega_acceptor::mega_ballot::Ballot;
use mega_acceptor::mega_entry::Entry;
use mega_base::NoMemory;
use mega_disk::RecordError;

/// How a voter answers a prepare (Lamport 2001, phase 1).
#[derive(Drop)]
pub enum Promised {
    /// It promised the ballot, and reports the vote of greatest ballot that it made there, if any.
    Yes(Option<(Ballot, Entry)>),
    /// It showed this greater ballot there before.
    Shown(Ballot),
}

/// How a voter answers an accept (Lamport 2001, phase 2).
#[derive(Drop)]
pub enum Voted {
    /// It accepted.
    Yes,
    /// It showed this greater ballot there before.
    Shown(Ballot),
    /// It accepted this other entry at ballot zero before.
    Other(Entry),
}

/// Why the logs of a voter refused a call.
#[derive(Clone, Copy, PartialEq, Eq, Debug, Drop)]
pub enum LogFault {
    /// The device failed, and its count of faults rose.
    DiskFault,
    /// The file would have this many bytes, more than 2^40.
    Full { length: u64 },
    /// A write since the opening was refused for another cause than `Full`: open the logs again.
    Spent,
    /// The record of this number, counted from 1, is none of the format; no record before it is.
    BadRecord { number: u64 },
    /// An allocation was refused.
    NoMemory,
}

impl From<NoMemory> for LogFault {
    ghost use Rattle.mega_wal.specs.declared.answers.LogFault.TheVariants.{NoMemory as OutOfMemory};

    ghost from_gives = { λ _ fault. fault ≡ OutOfMemory };

    fn from(_refused: NoMemory) -> LogFault {
        LogFault::NoMemory
    }
}

/// What the logs answer where their records refused a call.
impl From<RecordError> for LogFault {
    ghost use Rattle.mega_wal.specs.Faults.{fault_of};

    ghost from_gives = { λ error fault. fault ≡ fault_of error };

    fn from(error: RecordError) -> LogFault {
        match error {
            RecordError::DiskFault => LogFault::DiskFault,
            RecordError::Full { length } => LogFault::Full { length },
            RecordError::Spent => LogFault::Spent,
            RecordError::NoMemory => LogFault::NoMemory,
        }
    }
}
