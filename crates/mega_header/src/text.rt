//! The text of a header, line by line, up to the line that ends it.
ghost use Rattle.std.specs.Prelude.{◌≡◌, ◌≢◌, ◌≤◌, ◌+◌, ◌++◌, ◌∷◌, ℕ, List, Option, [], true, false, Ok, Err, IfErr, length};
ghost use Rattle.std.specs.Io.KnownBytes.{prepend_known};
ghost use Rattle.mega_base.specs.Causes.{Rose};
ghost use Rattle.mega_io.specs.TextLines.{BreaksOff};
ghost use Rattle.mega_header.specs.Parts.{is_mark};
ghost use Rattle.mega_header.specs.Known.{Breaks, HasFront, HasHeader, HasNoMark, HeaderFails, Takes};

use crate::heading::HeadingFault;
use mega_base::Bytes;
use mega_io::{Ended, LineError, LineReader, Source};

/// The most bytes that a header may have.
const LONGEST_HEADER: usize = 262_144;

/// What was read of a header next.
#[derive(Clone, Copy, PartialEq, Debug, Drop)]
enum Part {
    /// A line, which was added to the header's text.
    Line,
    /// The line `---`, behind which the schedule begins.
    Mark,
    /// The input's end.
    End,
    /// More than a header may have.
    Long,
}

/// Whether a line is the one between a header and a schedule; a carriage return may stand at its end.
fn is_mark(line: &[u8]) -> bool
    ensures { result ≡ is_mark line.now }
{
    line == b"---".as_slice() || line == b"---\r".as_slice()
}

/// Adds the last line of an input, which has no line feed, to a header's text, where it is no mark.
fn add_last(line: &[u8], text: &mut Bytes) -> Result<Part, HeadingFault>
    ensures mark { result ≡ Ok Part.Mark → (is_mark line.now ≡ true) × (text.new ≡ text.old) }
    ensures end { result ≡ Ok Part.End → (is_mark line.now ≡ false) × (text.new ≡ text.old ++ line.now) }
    ensures line { result ≢ Ok Part.Line }
    ensures long { result ≢ Ok Part.Long }
    ensures only { IfErr result (λ fault. fault ≡ HeadingFault.NoMemory) }
{
    if is_mark(line) {
        return Ok(Part::Mark);
    }
    match text.extend_from_slice(line) {
        Ok(()) => Ok(Part::End),
        Err(_) => Err(HeadingFault::NoMemory),
    }
}

/// Adds a line and its line feed to a header's text, where it is no mark.
fn add_line(line: &[u8], text: &mut Bytes) -> Result<Part, HeadingFault>
    ensures mark { result ≡ Ok Part.Mark → (is_mark line.now ≡ true) × (text.new ≡ text.old) }
    ensures line { result ≡ Ok Part.Line → (is_mark line.now ≡ false) × (text.new ≡ text.old ++ (line.now ++ 10 ∷ [])) }
    ensures end { result ≢ Ok Part.End }
    ensures long { result ≢ Ok Part.Long }
    ensures only { IfErr result (λ fault. fault ≡ HeadingFault.NoMemory) }
{
    if is_mark(line) {
        return Ok(Part::Mark);
    }
    match text.extend_from_slice(line) {
        Ok(()) => {}
        Err(_) => return Err(HeadingFault::NoMemory),
    }
    match text.push(b'\n') {
        Ok(()) => Ok(Part::Line),
        Err(_) => Err(HeadingFault::NoMemory),
    }
}

/// Reads the next line of a header, and adds it to the header's text.
fn next_part<I: Source>(
    reader: &mut LineReader,
    input: &mut I,
    line: &mut Bytes,
    text: &mut Bytes,
) -> Result<Part, HeadingFault>
    ensures line { result ≡ Ok Part.Line → (first : Option (List ℕ)) → HasFront first (prepend_known reader.old (I.left input.old)) text.old → HasFront first (prepend_known reader.new (I.left input.new)) text.new }
    ensures mark { result ≡ Ok Part.Mark → (first : Option (List ℕ)) → HasFront first (prepend_known reader.old (I.left input.old)) text.old → HasHeader first (prepend_known reader.new (I.left input.new)) text.new }
    ensures same { result ≡ Ok Part.Mark → text.new ≡ text.old }
    ensures taken { result ≡ Ok Part.Mark → (is_mark line.new ≡ true) × Takes (prepend_known reader.old (I.left input.old)) (prepend_known reader.new (I.left input.new)) (length line.new + 1) }
    ensures end { result ≡ Ok Part.End → (first : Option (List ℕ)) → HasFront first (prepend_known reader.old (I.left input.old)) text.old → HasNoMark first text.new }
    ensures long { result ≡ Ok Part.Long → (least : ℕ) (first : Option (List ℕ)) → HasFront first (prepend_known reader.old (I.left input.old)) text.old → Breaks least first 6 }
    ensures fault { result ≡ Err HeadingFault.Source → BreaksOff (prepend_known reader.old (I.left input.old)) reader.new (I.left input.new) line.new }
    ensures source { result ≡ Err HeadingFault.Source → Rose (I.faults input.old) (I.faults input.new) }
    ensures unbroken { (rule : ℕ) → result ≢ Err (HeadingFault.Rule rule) }
    ensures count { I.faults input.old ≤ I.faults input.new }
{
    match reader.next_line(input, line, LONGEST_HEADER) {
        Ok(Ended::Feed) => add_line(line.as_slice(), text),
        Ok(Ended::Input) => add_last(line.as_slice(), text),
        Ok(Ended::Long) => Ok(Part::Long),
        Err(LineError::Failed) => Err(HeadingFault::Source),
        Err(LineError::NoMemory) => Err(HeadingFault::NoMemory),
    }
}

/// Reads a header's text, and tells whether the line `---` stands behind it. A text of more bytes than a
/// header may have is not read to its end.
pub(crate) fn read_text<I: Source>(
    reader: &mut LineReader,
    input: &mut I,
    line: &mut Bytes,
    text: &mut Bytes,
) -> Result<bool, HeadingFault>
    requires { text.old ≡ [] }
    ensures marked { result ≡ Ok true → HasHeader (prepend_known reader.old (I.left input.old)) (prepend_known reader.new (I.left input.new)) text.new }
    ensures taken { result ≡ Ok true → (length text.new ≤ 262144) × (length line.new ≤ 4) × Takes (prepend_known reader.old (I.left input.old)) (prepend_known reader.new (I.left input.new)) (length text.new + length line.new + 1) }
    ensures unmarked { result ≡ Ok false → HasNoMark (prepend_known reader.old (I.left input.old)) text.new }
    ensures broken { (rule : ℕ) → result ≡ Err (HeadingFault.Rule rule) → (least : ℕ) → Breaks least (prepend_known reader.old (I.left input.old)) rule }
    ensures fault { result ≡ Err HeadingFault.Source → HeaderFails (prepend_known reader.old (I.left input.old)) (I.left input.new) }
    ensures source { result ≡ Err HeadingFault.Source → Rose (I.faults input.old) (I.faults input.new) }
    ensures count { I.faults input.old ≤ I.faults input.new }
{
    for _ in 0..u64::MAX {
        match next_part(reader, input, line, text) {
            Ok(Part::Line) => {}
            Ok(Part::Mark) => return Ok(true),
            Ok(Part::End) => return Ok(false),
            Ok(Part::Long) => return Err(HeadingFault::Rule { rule: 6 }),
            Err(fault) => return Err(fault),
        }
        if LONGEST_HEADER < text.len() {
            return Err(HeadingFault::Rule { rule: 6 });
        }
    }
    Err(HeadingFault::NoMemory)
}
