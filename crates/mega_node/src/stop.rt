//! Why a node's call ends before its turns are made, and its status.
ghost use Rattle.std.specs.Prelude.{◌≡◌, ◌++◌, OnErr, OnOk};
ghost use Rattle.mega_node.specs.Headers.{header_line};

use mega_base::{Bytes, NoMemory};
use std::alloc::Global;

/// Why a call ends before its turns are made.
#[derive(Clone, Copy, PartialEq, Eq, Debug, Drop)]
pub enum Stop {
    /// The header breaks this rule.
    Header { rule: u8 },
    /// A call of the source failed.
    Source,
    /// A call of the sink failed.
    Sink,
    /// A device failed.
    Device,
    /// An allocation was refused.
    NoMemory,
    /// What a step was given, made or read is none of the formats, or its log refused a record before.
    Unformed,
    /// The link was not bound.
    Link,
    /// The log's file would have this length in bytes, more than 2^40.
    Full { length: u64 },
    /// The node started 4,294,967,295 times.
    StartsFull,
    /// The record of this number on the log is none of the format.
    BadRecord { number: u64 },
}

impl Stop {
    ghost use Rattle.mega_node.specs.Statuses.{status_of};

    /// The status with which the program ends.
    pub fn status(&self) -> u8
        ensures { result ≡ status_of self.now }
    {
        match self {
            Stop::Header { .. } => 3,
            Stop::Source => 5,
            Stop::Sink => 6,
            Stop::Device => 7,
            Stop::NoMemory | Stop::Unformed => 8,
            Stop::Link => 9,
            Stop::Full { .. } | Stop::StartsFull => 10,
            Stop::BadRecord { .. } => 16,
        }
    }
}

/// Appends the last line, which tells of the rule that a header breaks. A refusal leaves `out`.
pub(crate) fn put_rule(alloc: Global, rule: u8, out: &mut Bytes) -> Result<(), NoMemory>
    ensures ok { OnOk result (out.new ≡ out.old ++ header_line rule) }
    ensures err { OnErr result (out.new ≡ out.old) }
{
    let told = format!(in alloc; "header {rule}\n")?;
    out.extend_from_slice(told.as_bytes())
}
