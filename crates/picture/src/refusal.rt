//! Why an input has no page, and the line and the status that tell it.
ghost use Rattle.std.specs.Prelude.{◌≡◌, ◌++◌, OnOk};
ghost use Rattle.mega_picture.specs.Pages.{line_number};
ghost use Rattle.picture.specs.Stops.{status_of, IsRefusal, no_transcript, rule_line, item_line, unsent_line, again_line, node_line, many_line, flaw_line, line_of};

use mega_base::{Bytes, NoMemory};
use mega_picture::Flaw;
use std::alloc::Global;

/// Why an input has no page. Lines of the transcript are counted from 1.
#[derive(Clone, Copy, Drop)]
pub enum Refusal {
    /// No line `---` stands behind the header.
    NoTranscript,
    /// The header breaks this rule of headers.
    Header { rule: u8 },
    /// This line is none of an item.
    NotItem { line: u64 },
    /// An item cannot be drawn; the first row has this line.
    Flawed { first: u64, flaw: Flaw },
    /// More lines than a page has stand in the window that begins here.
    TooMany { first: u64 },
}

/// How far the last line of the greatest window is behind its first.
const FURTHEST: u32 = 3999;

/// The number of the line in a row of the window that begins with this line.
pub fn line_at(first: u64, row: u32) -> u64
    ensures { result ≡ line_number first row }
{
    first.saturating_add(u64::from(row))
}

impl Refusal {
    /// The status with which the program ends.
    pub fn status(self) -> u8
        ensures value { result ≡ status_of self }
        ensures only { IsRefusal result }
    {
        match self {
            Refusal::NoTranscript => 3,
            Refusal::Header { .. } => 3,
            Refusal::NotItem { .. } => 4,
            Refusal::Flawed { .. } => 4,
            Refusal::TooMany { .. } => 4,
        }
    }

    /// Appends the line that tells of the refusal.
    pub fn tell(self, alloc: Global, out: &mut Bytes) -> Result<(), NoMemory>
        ensures { OnOk result (out.new ≡ out.old ++ line_of self) }
    {
        match self {
            Refusal::NoTranscript => tell_no_transcript(out),
            Refusal::Header { rule } => tell_rule(alloc, out, rule),
            Refusal::NotItem { line } => tell_item(alloc, out, line),
            Refusal::Flawed { first, flaw } => tell_flaw(alloc, out, first, flaw),
            Refusal::TooMany { first } => tell_many(alloc, out, first, line_at(first, FURTHEST)),
        }
    }
}

#[tactic(auto, unfolding(crate::specs::Stops::no_transcript))]
fn tell_no_transcript(out: &mut Bytes) -> Result<(), NoMemory>
    ensures { OnOk result (out.new ≡ out.old ++ no_transcript) }
{
    out.extend_from_slice(b"header: no line --- stands behind it\n")
}

#[tactic(auto, unfolding(crate::specs::Stops::rule_line))]
fn tell_rule(alloc: Global, out: &mut Bytes, rule: u8) -> Result<(), NoMemory>
    ensures { OnOk result (out.new ≡ out.old ++ rule_line rule) }
{
    let told = format!(in alloc; "header: it breaks rule {rule}\n")?;
    out.extend_from_slice(told.as_bytes())
}

#[tactic(auto, unfolding(crate::specs::Stops::item_line))]
fn tell_item(alloc: Global, out: &mut Bytes, line: u64) -> Result<(), NoMemory>
    ensures { OnOk result (out.new ≡ out.old ++ item_line line) }
{
    let told = format!(in alloc; "line {line}: it is no line of a transcript\n")?;
    out.extend_from_slice(told.as_bytes())
}

#[tactic(auto, unfolding(crate::specs::Stops::many_line))]
fn tell_many(alloc: Global, out: &mut Bytes, first: u64, last: u64) -> Result<(), NoMemory>
    ensures { OnOk result (out.new ≡ out.old ++ many_line first last) }
{
    let told = format!(in alloc; "more than 4000 lines: take --from {first} --to {last}\n")?;
    out.extend_from_slice(told.as_bytes())
}

#[tactic(auto, unfolding(crate::specs::Stops::unsent_line))]
fn tell_unsent(alloc: Global, out: &mut Bytes, line: u64, number: u64) -> Result<(), NoMemory>
    ensures { OnOk result (out.new ≡ out.old ++ unsent_line line number) }
{
    let told = format!(in alloc;
        "line {line}: message {number} was not sent before it in the lines drawn\n"
    )?;
    out.extend_from_slice(told.as_bytes())
}

#[tactic(auto, unfolding(crate::specs::Stops::again_line))]
fn tell_again(alloc: Global, out: &mut Bytes, line: u64, number: u64) -> Result<(), NoMemory>
    ensures { OnOk result (out.new ≡ out.old ++ again_line line number) }
{
    let told = format!(in alloc; "line {line}: message {number} was sent before\n")?;
    out.extend_from_slice(told.as_bytes())
}

#[tactic(auto, unfolding(crate::specs::Stops::node_line))]
fn tell_node(alloc: Global, out: &mut Bytes, line: u64, node: u8) -> Result<(), NoMemory>
    ensures { OnOk result (out.new ≡ out.old ++ node_line line node) }
{
    let told = format!(in alloc; "line {line}: the header has no node {node}\n")?;
    out.extend_from_slice(told.as_bytes())
}

/// Tells why an item cannot be drawn.
fn tell_flaw(alloc: Global, out: &mut Bytes, first: u64, flaw: Flaw) -> Result<(), NoMemory>
    ensures { OnOk result (out.new ≡ out.old ++ flaw_line first flaw) }
{
    match flaw {
        Flaw::NotSent { row, number } => tell_unsent(alloc, out, line_at(first, row), number),
        Flaw::SentBefore { row, number } => tell_again(alloc, out, line_at(first, row), number),
        Flaw::NoNode { row, node } => tell_node(alloc, out, line_at(first, row), node),
    }
}
