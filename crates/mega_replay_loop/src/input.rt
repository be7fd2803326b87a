//! The next line of the input.
ghost use Rattle.std.specs.Prelude.{◌≡◌, ◌≢◌, ◌≤◌, [], Ok, Err, IfErr, length};
ghost use Rattle.std.specs.Io.KnownBytes.{prepend_known, IsAtEnd};
ghost use Rattle.mega_base.specs.Causes.{Rose};
ghost use Rattle.mega_io.specs.TextLines.{BreaksOff};
ghost use Rattle.mega_header.specs.Known.{Ends, Follows};
ghost use Rattle.mega_replay_loop.specs.Known.{IsTooLong};
ghost use Rattle.mega_replay_output.specs.Stops.{IsReadStop};

use mega_base::Bytes;
use mega_io::{Ended, LineError, LineReader, Source};
use mega_replay_output::Stop;

/// The most bytes that a line of a schedule may have.
const LONGEST_LINE: usize = 65_536;

/// What was read of a schedule next.
#[derive(Clone, Copy, PartialEq, Debug, Drop)]
pub enum Next {
    /// A line.
    Line,
    /// The end.
    End,
    /// A line that is longer than a line may be.
    Long,
}

/// Reads the next line of a schedule.
pub fn next_line<I: Source>(
    reader: &mut LineReader,
    input: &mut I,
    line: &mut Bytes,
) -> Result<Next, Stop>
    ensures line { result ≡ Ok Next.Line → Follows (prepend_known reader.old (I.left input.old)) (prepend_known reader.new (I.left input.new)) line.new }
    ensures short { result ≡ Ok Next.Line → length line.new ≤ 65536 }
    ensures end { result ≡ Ok Next.End → Ends (prepend_known reader.old (I.left input.old)) × IsAtEnd (I.left input.new) }
    ensures long { result ≡ Ok Next.Long → IsTooLong (prepend_known reader.old (I.left input.old)) }
    ensures fault { result ≡ Err Stop.Source → BreaksOff (prepend_known reader.old (I.left input.old)) reader.new (I.left input.new) line.new }
    ensures stops { result ≡ Err Stop.Source → Rose (I.faults input.old) (I.faults input.new) }
    ensures only { IfErr result IsReadStop }
    ensures count { I.faults input.old ≤ I.faults input.new }
{
    match reader.next_line(input, line, LONGEST_LINE) {
        Ok(Ended::Feed) => Ok(Next::Line),
        Ok(Ended::Input) => Ok(last_line(line)),
        Ok(Ended::Long) => Ok(Next::Long),
        Err(LineError::Failed) => Err(Stop::Source),
        Err(LineError::NoMemory) => Err(Stop::NoMemory),
    }
}

/// What was read at the input's end: a line without a line feed, or none.
fn last_line(line: &Bytes) -> Next
    ensures line { result ≡ Next.Line → line.now ≢ [] }
    ensures end { result ≡ Next.End → line.now ≡ [] }
    ensures long { result ≢ Next.Long }
{
    if line.is_empty() {
        Next::End
    } else {
        Next::Line
    }
}
