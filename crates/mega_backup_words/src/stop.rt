//! Why a backup or a restore stops, its status, and the last line that tells of it.
ghost use Rattle.std.specs.Prelude.{◌≡◌, IfOk};
ghost use Rattle.mega_backup_words.specs.Endings.{large_line};

use mega_backup::BackupFault;
use mega_base::{Bytes, NoMemory, Position};
use std::alloc::Global;

/// Why a backup or a restore ends before its end.
#[derive(Drop)]
pub enum Stop {
    /// The header breaks this rule.
    Header { rule: u8 },
    /// A call of the source failed.
    Source,
    /// A call of the sink failed.
    Sink,
    /// A call of the device failed.
    Device,
    /// An allocation was refused.
    NoMemory,
    /// This line, counted from 1 behind the line `---`, is none of a backup, or is missing.
    Malformed { line: u64 },
    /// Only so many entries are there.
    Short { has: Position },
    /// The put of the row under this key makes an entry that is too large.
    TooLarge { key: Bytes },
    /// A record of the log is none of the format.
    BadRecord,
}

impl From<NoMemory> for Stop {
    ghost use Rattle.std.specs.Prelude.{◌≡◌};
    ghost use Rattle.mega_backup_words.specs.declared.stop.Stop.TheVariants.{NoMemory as OutOfMemory};

    ghost from_gives = { λ _ stop. stop ≡ OutOfMemory };

    fn from(_refused: NoMemory) -> Stop {
        Stop::NoMemory
    }
}

impl From<BackupFault> for Stop {
    ghost use Rattle.std.specs.Prelude.{◌≡◌};
    ghost use Rattle.mega_backup_words.specs.Stops.{stop_of};

    ghost from_gives = { λ fault stop. stop ≡ stop_of fault };

    fn from(fault: BackupFault) -> Stop {
        match fault {
            BackupFault::Short { has } => Stop::Short { has },
            BackupFault::Malformed { line } => Stop::Malformed { line },
            BackupFault::TooLarge { key } => Stop::TooLarge { key },
            BackupFault::SinkFault => Stop::Sink,
            BackupFault::NoMemory => Stop::NoMemory,
        }
    }
}

impl Stop {
    ghost use Rattle.mega_backup_words.specs.Endings.{last_line, status_of};

    /// The status with which the program ends.
    pub fn status(&self) -> u8
        ensures { result ≡ status_of self.now }
    {
        match self {
            Stop::Header { .. } => 3,
            Stop::Source => 5,
            Stop::Sink => 6,
            Stop::Device => 7,
            Stop::NoMemory => 8,
            Stop::Malformed { .. } => 12,
            Stop::Short { .. } => 13,
            Stop::TooLarge { .. } => 14,
            Stop::BadRecord => 16,
        }
    }

    /// The last line that tells of the stop, where it has one.
    pub fn last_line(&self, alloc: Global) -> Result<Bytes, NoMemory>
        ensures { IfOk result (λ line. line ≡ last_line self.now) }
    {
        match self {
            Stop::Header { rule } => {
                let told = format!(in alloc; "header {rule}\n")?;
                Bytes::from_slice(alloc, told.as_bytes())
            }
            Stop::Malformed { line } => {
                let told = format!(in alloc; "malformed {line}\n")?;
                Bytes::from_slice(alloc, told.as_bytes())
            }
            Stop::Short { has } => {
                let told = format!(in alloc; "short {}\n", has.0)?;
                Bytes::from_slice(alloc, told.as_bytes())
            }
            Stop::TooLarge { key } => large_line(alloc, key.as_slice()),
            Stop::Source | Stop::Sink | Stop::Device | Stop::NoMemory | Stop::BadRecord => {
                Ok(Bytes::new(alloc))
            }
        }
    }
}

/// The line that tells of a row that is too large, by its key in hex.
fn large_line(alloc: Global, key: &[u8]) -> Result<Bytes, NoMemory>
    ensures { IfOk result (λ line. line ≡ large_line key.now) }
{
    let digits = hex::encode(alloc, key)?;
    let mut line = Bytes::from_slice(alloc, b"toolarge ")?;
    line.extend_from_slice(digits.as_bytes())?;
    line.push(b'\n')?;
    Ok(line)
}
