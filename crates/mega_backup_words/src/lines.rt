//! The lines of a backup, of which only so many bytes may come.
ghost use Rattle.std.specs.Prelude.{◌≡◌, ◌≢◌, ◌+◌, ◌-◌, ◌≤◌, ◌++◌, ◌∷◌, [], Ok, Err, IfOk, IfErr, OnOk, length};
ghost use Rattle.std.specs.Io.KnownBytes.{prepend_known};
ghost use Rattle.mega_base.specs.Causes.{Rose};
ghost use Rattle.mega_header.specs.Known.{Passes, IfKnown};
ghost use Rattle.mega_backup_words.specs.Inputs.{lines_within};
ghost use Rattle.mega_backup_words.specs.Stops.{IsReadStop};

use crate::stop::Stop;
use mega_base::{Bytes, Copied, NoMemory};
use mega_io::{Ended, LineError, LineReader, Source};
use std::alloc::Global;

/// What was read of the lines next.
#[derive(Clone, Copy, Drop)]
enum Next {
    /// A line, behind which others may stand.
    Line,
    /// The last line that counts.
    Last,
    /// The end.
    End,
}

/// What was read where a line ended with a line feed, and so many bytes might come. The line in which more came counts as an
/// empty one.
fn ended_line(line: &mut Bytes, room: usize) -> Next
    ensures line { result ≡ Next.Line → (length line.old + 1 ≤ room) × (line.new ≡ line.old) }
    ensures last { result ≡ Next.Last → (room ≤ length line.old) × (line.new ≡ []) }
    ensures more { result ≢ Next.End }
{
    if line.len() < room {
        return Next::Line;
    }
    line.clear();
    Next::Last
}

/// What was read where a line ended with the input.
fn last_line(line: &Bytes) -> Next
    ensures end { result ≡ Next.End → line.now ≡ [] }
    ensures last { result ≡ Next.Last → line.now ≢ [] }
    ensures more { result ≢ Next.Line }
{
    if line.is_empty() {
        Next::End
    } else {
        Next::Last
    }
}

/// Reads the next line, where so many bytes may come.
fn next_line<I: Source>(
    reader: &mut LineReader,
    input: &mut I,
    line: &mut Bytes,
    room: usize,
) -> Result<Next, Stop>
    ensures line { result ≡ Ok Next.Line → (length line.new + 1 ≤ room) × Passes (prepend_known reader.old (I.left input.old)) (prepend_known reader.new (I.left input.new)) (λ old new. lines_within room old ≡ line.new ∷ lines_within (room - (length line.new + 1)) new) }
    ensures last { result ≡ Ok Next.Last → IfKnown (prepend_known reader.old (I.left input.old)) (λ old. lines_within room old ≡ line.new ∷ []) }
    ensures end { result ≡ Ok Next.End → IfKnown (prepend_known reader.old (I.left input.old)) (λ old. lines_within room old ≡ []) }
    ensures source { result ≡ Err Stop.Source → Rose (I.faults input.old) (I.faults input.new) }
    ensures only { IfErr result IsReadStop }
    ensures count { I.faults input.old ≤ I.faults input.new }
{
    match reader.next_line(input, line, room) {
        Ok(Ended::Feed) => Ok(ended_line(line, room)),
        Ok(Ended::Input) => Ok(last_line(line)),
        Ok(Ended::Long) => {
            line.clear();
            Ok(Next::Last)
        }
        Err(LineError::Failed) => Err(Stop::Source),
        Err(LineError::NoMemory) => Err(Stop::NoMemory),
    }
}

/// Adds a line.
fn add(alloc: Global, line: &Bytes, lines: &mut Vec<Bytes>) -> Result<(), Stop>
    ensures ok { OnOk result (lines.new.items ≡ lines.old.items ++ line.now ∷ []) }
    ensures only { IfErr result (λ stop. stop ≡ Stop.NoMemory) }
{
    let line = line.copy(alloc)?;
    match lines.push(line) {
        Ok(()) => Ok(()),
        Err(_) => Err(Stop::NoMemory),
    }
}

/// Reads the lines that are left of an input, where so many bytes may come: the line in which more come counts as an empty one,
/// and what stands behind it does not count.
pub fn read_lines<I: Source>(
    alloc: Global,
    reader: &mut LineReader,
    input: &mut I,
    most: usize,
) -> Result<Vec<Bytes>, Stop>
    ensures read { IfOk result (λ lines. IfKnown (prepend_known reader.old (I.left input.old)) (λ old. lines_within most old ≡ lines.items)) }
    ensures source { result ≡ Err Stop.Source → Rose (I.faults input.old) (I.faults input.new) }
    ensures only { IfErr result IsReadStop }
    ensures count { I.faults input.old ≤ I.faults input.new }
{
    let mut lines = Vec::new(alloc);
    let mut line = Bytes::new(alloc);
    let mut room = most;
    for _ in 0..u64::MAX {
        match next_line(reader, input, &mut line, room) {
            Ok(Next::Line) => {
                room -= line.len() + 1;
                add(alloc, &line, &mut lines)?;
            }
            Ok(Next::Last) => {
                add(alloc, &line, &mut lines)?;
                return Ok(lines);
            }
            Ok(Next::End) => return Ok(lines),
            Err(stop) => return Err(stop),
        }
    }
    Err(Stop::NoMemory)
}
