//! How a run of the word `two` ends where it is not cut off: its status, and the last line, which is the whole output.
ghost use Rattle.std.specs.Prelude.{◌≡◌, IfOk};
ghost use Rattle.mega_two_words.specs.Endings.{ended_line, last_line, status_of, word_of};

use mega_base::{Bytes, NoMemory, Text};
use mega_two_driver::Ended;
use std::alloc::Global;

/// How a run ends where it is not cut off.
#[derive(Drop)]
pub enum Last {
    /// The header breaks this rule.
    Header { rule: u8 },
    /// There is no change, for this reason.
    Refused { reason: u8 },
    /// The change with this name ended so, or has not ended.
    Ended { name: Text, ended: Option<Ended> },
}

/// The word of an end; a change that has not ended is open.
fn word_of(ended: Option<Ended>) -> &'static str
    ensures { result.now ≡ word_of ended }
{
    match ended {
        Some(Ended::Committed) => "committed",
        Some(Ended::Aborted) => "aborted",
        Some(Ended::Used) => "used",
        Some(Ended::Open) => "open",
        None => "open",
    }
}

fn ended_line(alloc: Global, name: &str, ended: Option<Ended>) -> Result<Bytes, NoMemory>
    ensures { IfOk result (λ line. line ≡ ended_line name.now ended) }
{
    let word = word_of(ended);
    let told = format!(in alloc; "two {name} {word}\n")?;
    Bytes::from_slice(alloc, told.as_bytes())
}

impl Last {
    /// The status with which the program ends.
    pub(crate) fn status(&self) -> u8
        ensures { result ≡ status_of self.now }
    {
        match self {
            Last::Header { .. } => 3,
            Last::Refused { .. } => 4,
            Last::Ended { .. } => 0,
        }
    }

    /// The last line.
    pub(crate) fn line(&self, alloc: Global) -> Result<Bytes, NoMemory>
        ensures { IfOk result (λ line. line ≡ last_line self.now) }
    {
        match self {
            Last::Header { rule } => {
                let told = format!(in alloc; "header {rule}\n")?;
                Bytes::from_slice(alloc, told.as_bytes())
            }
            Last::Refused { reason } => {
                let told = format!(in alloc; "refused 1 schedule {reason}\n")?;
                Bytes::from_slice(alloc, told.as_bytes())
            }
            Last::Ended { name, ended } => ended_line(alloc, name.as_str(), *ended),
        }
    }
}
