//! Reads a source line by line, in large pieces.
ghost use Rattle.std.specs.Prelude.{◌≡◌, ◌≢◌, ◌≤◌, ◌<◌, ◌++◌, ◌∷◌, [], List, ℕ, Option, Some, Ok, Err, IfOk, OnOk, OnErr, take, drop, length, slice_index, All, true, false};
ghost use Rattle.std.specs.Io.KnownBytes.{prepend_known, Consumes, Keeps, IsAtEnd};
ghost use Rattle.mega_base.specs.Causes.{Rose};

use crate::source::{Failed, Source};
use mega_base::{Bytes, NoMemory};
use std::alloc::Global;
use std::marker::Model;

/// How many bytes are read at once.
const CHUNK: usize = 65_536;

/// What a line ended with.
#[derive(Clone, Copy, PartialEq, Debug, Drop)]
pub enum Ended {
    /// A line feed, which is not of the line.
    Feed,
    /// The end of the input.
    Input,
    /// Nothing yet: it is longer than a line may be, and read so far.
    Long,
}

/// Why no line was read.
#[derive(Clone, Copy, PartialEq, Debug, Drop)]
pub enum LineError {
    /// A call of the source failed.
    Failed,
    /// An allocation was refused.
    NoMemory,
}

/// How many bytes stand before the first line feed, or in all where there is none.
fn unbroken_length(bytes: &[u8]) -> usize
    ensures bound { result ≤ length bytes.now }
    ensures unbroken { All (λ byte. byte ≢ 10) (take result bytes.now) }
    ensures feed { result < length bytes.now → slice_index bytes.now result ≡ 10 }
{
    for (index, byte) in bytes.iter().enumerate() {
        if *byte == b'\n' {
            return index;
        }
    }
    bytes.len()
}

/// Reads a source line by line, in large pieces. Contracts see the bytes that were read and belong to
/// no line yet.
#[derive(Drop)]
pub struct LineReader {
    chunk: Vec<u8>,
    filled: usize,
    at: usize,
}

impl Model for LineReader {
    ghost use Rattle.std.specs.Prelude.{List, ℕ, ◌≤◌, ◌<◌, drop, take, length};

    ghost Value = { List ℕ };

    ghost view = { λ r. drop r.at (take r.filled r.chunk.items) };

    ghost invariant = { λ r. (r.at ≤ r.filled) × (r.filled ≤ length r.chunk.items) × (0 < length r.chunk.items) };
}

impl LineReader {
    ghost use Rattle.mega_io.specs.TextLines.{BreaksOff, ReadsLine, IsUnbroken, ReadsPart};

    /// A reader that has read nothing yet.
    pub fn new(alloc: Global) -> Result<LineReader, NoMemory>
        ensures { IfOk result (λ reader. reader ≡ []) }
    {
        let chunk = vec![in alloc; 0u8; CHUNK]?;
        Ok(LineReader {
            chunk,
            filled: 0,
            at: 0,
        })
    }

    /// Reads the next piece of the source where none is left of the last one, and tells whether some
    /// byte is there now.
    fn refill<I: Source>(&mut self, source: &mut I) -> Result<bool, Failed>
        ensures kept { Keeps (prepend_known self.old (I.left source.old)) (prepend_known self.new (I.left source.new)) }
        ensures end { result ≡ Ok false → (self.new ≡ []) × IsAtEnd (I.left source.new) }
        ensures none { OnErr result (self.new ≡ []) }
        ensures cause { OnErr result (Rose (I.faults source.old) (I.faults source.new)) }
        ensures count { I.faults source.old ≤ I.faults source.new }
    {
        if self.at < self.filled {
            return Ok(true);
        }
        let count = source.read(&mut self.chunk)?;
        self.at = 0;
        self.filled = count;
        Ok(0 < count)
    }

    /// Moves the bytes that are there into the line, up to a line feed, and tells whether there was one.
    fn take_front(&mut self, line: &mut Bytes) -> Result<bool, NoMemory>
        ensures part { IfOk result (λ broken. ReadsPart self.old self.new line.old line.new broken) }
    {
        let (front, _) = self.chunk.as_slice().split_at(self.filled);
        let (_, rest) = front.split_at(self.at);
        let length = unbroken_length(rest);
        let (part, _) = rest.split_at(length);
        line.extend_from_slice(part)?;
        if length == rest.len() {
            self.at = self.filled;
            return Ok(false);
        }
        self.at += length + 1;
        Ok(true)
    }

    /// Reads the next line into `line`, which is emptied before. A line of more than `most` bytes is
    /// not read to its end. `Failed` comes only where the source's count of faults rose; then what was read
    /// and not given yet has no line feed, and is in `line`.
    pub fn next_line<I: Source>(
        &mut self,
        source: &mut I,
        line: &mut Bytes,
        most: usize,
    ) -> Result<Ended, LineError>
        ensures line { IfOk result (ReadsLine most (prepend_known self.old (I.left source.old)) (prepend_known self.new (I.left source.new)) line.new) }
        ensures fault { result ≡ Err LineError.Failed → BreaksOff (prepend_known self.old (I.left source.old)) self.new (I.left source.new) line.new }
        ensures cause { result ≡ Err LineError.Failed → Rose (I.faults source.old) (I.faults source.new) }
        ensures count { I.faults source.old ≤ I.faults source.new }
    {
        line.clear();
        for _ in 0..u64::MAX {
            match self.refill(source) {
                Ok(true) => {}
                Ok(false) => return Ok(Ended::Input),
                Err(_) => return Err(LineError::Failed),
            }
            match self.take_front(line) {
                Ok(broken) => {
                    if line.len() > most {
                        return Ok(Ended::Long);
                    }
                    if broken {
                        return Ok(Ended::Feed);
                    }
                }
                Err(_) => return Err(LineError::NoMemory),
            }
        }
        Err(LineError::NoMemory)
    }
}
