//! Why a replay stops, its status, and the last line that tells of it.
ghost use Rattle.std.specs.Prelude.{◌≡◌, ◌++◌, OnOk, OnErr, IsOk};

use mega_base::{Bytes, NoMemory};
use std::alloc::Global;

/// Why a replay ends before the end of its input. Lines of the schedule are counted from 1; the header
/// is line 0.
#[derive(Clone, Copy, PartialEq, Debug, Drop)]
pub enum Stop {
    /// The header breaks this rule.
    Header { rule: u8 },
    /// This line is no event, for this reason.
    Schedule { line: u64, reason: u8 },
    /// The world refuses the event of this line.
    Refused { line: u64, why: u8 },
    /// This line starts a node that started 4,294,967,295 times.
    Limit { line: u64 },
    /// A call of the source failed.
    Source,
    /// A call of the sink failed.
    Sink,
    /// An allocation was refused.
    NoMemory,
}

impl Stop {
    ghost use Rattle.mega_replay_output.specs.Statuses.{status_of};
    ghost use Rattle.mega_replay_output.specs.LastLines.{last_line};
    ghost use Rattle.mega_replay_output.specs.Stops.{IsUntold};

    /// The status with which the program ends.
    pub fn status(&self) -> u8
        ensures { result ≡ status_of self.now }
    {
        match self {
            Stop::Header { .. } => 3,
            Stop::Schedule { .. } | Stop::Refused { .. } => 4,
            Stop::Source => 5,
            Stop::Sink => 6,
            Stop::NoMemory => 8,
            Stop::Limit { .. } => 10,
        }
    }

    /// Appends the last line that tells of the stop, where it has one. A refusal leaves `out`.
    pub fn tell(&self, alloc: Global, out: &mut Bytes) -> Result<(), NoMemory>
        ensures ok { OnOk result (out.new ≡ out.old ++ last_line self.now) }
        ensures err { OnErr result (out.new ≡ out.old) }
        ensures none { IsUntold self.now → IsOk result }
    {
        match self {
            Stop::Header { rule } => {
                let told = format!(in alloc; "header {rule}\n")?;
                out.extend_from_slice(told.as_bytes())
            }
            Stop::Schedule { line, reason } => {
                let told = format!(in alloc; "refused {line} schedule {reason}\n")?;
                out.extend_from_slice(told.as_bytes())
            }
            Stop::Refused { line, why } => {
                let told = format!(in alloc; "refused {line} world {why}\n")?;
                out.extend_from_slice(told.as_bytes())
            }
            Stop::Limit { .. } | Stop::Source | Stop::Sink | Stop::NoMemory => Ok(()),
        }
    }
}
