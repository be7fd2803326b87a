//! The start of a run of the word `two`: a header with addresses, and the change that is to be driven.
ghost use Rattle.std.specs.Prelude.{◌≡◌, ◌≤◌, ℕ, Result, Ok, Err, IfOk, IfErr, OnOk, Some, None, true, false};
ghost use Rattle.std.specs.Option.{option_copied};
ghost use Rattle.std.specs.Io.KnownBytes.{prepend_known};
ghost use Rattle.mega_base.specs.Causes.{Rose};
ghost use Rattle.mega_io.specs.TextLines.{lines_of};
ghost use Rattle.mega_header.specs.Known.{IfKnown};
ghost use Rattle.mega_two_driver.specs.Answers.{GivesOrReason};
ghost use Rattle.mega_two_driver.specs.declared.two.Two.{Two as Change};
ghost use Rattle.mega_two_driver.specs.Driver.{begun, recovered};
ghost use Rattle.mega_two_words.specs.Endings.{IsReadStop};
ghost use Rattle.mega_two_words.specs.Inputs.{IsLine, first_of, or_refused, starts, told_behind, told_by, told_in, with_cluster};

use crate::last::Last;
use crate::stop::Stop;
use mega_base::{Bytes, NoMemory, Text};
use mega_cluster::Cluster;
use mega_header::{Heading, HeadingFault, read_heading};
use mega_io::{LineError, LineReader, Source};
use mega_schema::Schema;
use mega_two_driver::{Two, TwoFault};
use std::alloc::Global;

/// The most bytes that the line of a change may have.
const MOST_BYTES: usize = 16_384;

/// A cluster, and the change that is to be driven there.
#[derive(Drop)]
pub struct Start {
    pub cluster: Cluster,
    pub two: Two,
}

/// A change, or the last line that says why there is none.
fn or_refused(begun: Result<Two, TwoFault>) -> Result<Result<Two, Last>, NoMemory>
    ensures { IfOk result (λ first. (answer : Result Change ℕ) → GivesOrReason begun answer → first ≡ or_refused answer) }
{
    match begun {
        Ok(two) => Ok(Ok(two)),
        Err(TwoFault::Refused { reason }) => Ok(Err(Last::Refused { reason })),
        Err(TwoFault::NoMemory) => Err(NoMemory),
    }
}

fn begin(alloc: Global, schema: &Schema, line: &[u8]) -> Result<Result<Two, Last>, NoMemory>
    ensures { IfOk result (λ first. first ≡ or_refused (begun schema.now line.now)) }
{
    or_refused(Two::begin(alloc, schema, line))
}

fn recover(alloc: Global, schema: &Schema, name: &Text) -> Result<Result<Two, Last>, NoMemory>
    ensures { IfOk result (λ first. first ≡ or_refused (recovered schema.now name.now)) }
{
    or_refused(Two::recover(alloc, schema, name))
}

/// Reads the next line, or none at the end. One that is too long is not read to its end.
fn read_line<I: Source>(
    reader: &mut LineReader,
    input: &mut I,
    line: &mut Bytes,
) -> Result<(), Stop>
    ensures read { OnOk result (IfKnown (prepend_known reader.old (I.left input.old)) (λ left. IsLine line.new (first_of (lines_of left)))) }
    ensures source { result ≡ Err Stop.Source → Rose (I.faults input.old) (I.faults input.new) }
    ensures only { IfErr result IsReadStop }
    ensures count { I.faults input.old ≤ I.faults input.new }
{
    match reader.next_line(input, line, MOST_BYTES) {
        Ok(_) => Ok(()),
        Err(LineError::Failed) => Err(Stop::Source),
        Err(LineError::NoMemory) => Err(Stop::NoMemory),
    }
}

/// The change that the line behind a header tells, where the line `---` stands there.
fn begin_behind<I: Source>(
    alloc: Global,
    schema: &Schema,
    marked: bool,
    reader: &mut LineReader,
    input: &mut I,
) -> Result<Result<Two, Last>, Stop>
    ensures marked { marked ≡ true → IfOk result (λ first. IfKnown (prepend_known reader.old (I.left input.old)) (λ left. first ≡ told_behind schema.now (Some (lines_of left)))) }
    ensures unmarked { marked ≡ false → IfOk result (λ first. first ≡ told_behind schema.now None) }
    ensures source { result ≡ Err Stop.Source → Rose (I.faults input.old) (I.faults input.new) }
    ensures only { IfErr result IsReadStop }
    ensures count { I.faults input.old ≤ I.faults input.new }
{
    if !marked {
        return Ok(Err(Last::Header { rule: 9 }));
    }
    let mut line = Bytes::new(alloc);
    read_line(reader, input, &mut line)?;
    let first = begin(alloc, schema, line.as_slice())?;
    Ok(first)
}

/// The change that is asked, by name or by the line behind a header.
fn told_behind<I: Source>(
    alloc: Global,
    schema: &Schema,
    marked: bool,
    name: Option<&Text>,
    reader: &mut LineReader,
    input: &mut I,
) -> Result<Result<Two, Last>, Stop>
    ensures marked { marked ≡ true → IfOk result (λ first. IfKnown (prepend_known reader.old (I.left input.old)) (λ left. first ≡ told_by schema.now (option_copied name.entry) (Some (lines_of left)))) }
    ensures unmarked { marked ≡ false → IfOk result (λ first. first ≡ told_by schema.now (option_copied name.entry) None) }
    ensures source { result ≡ Err Stop.Source → Rose (I.faults input.old) (I.faults input.new) }
    ensures only { IfErr result IsReadStop }
    ensures count { I.faults input.old ≤ I.faults input.new }
{
    match name {
        Some(name) => Ok(recover(alloc, schema, name)?),
        None => begin_behind(alloc, schema, marked, reader, input),
    }
}

/// The change that is asked in a cluster, where there is an address for each node.
fn told_in<I: Source>(
    alloc: Global,
    cluster: &Cluster,
    marked: bool,
    name: Option<&Text>,
    reader: &mut LineReader,
    input: &mut I,
) -> Result<Result<Two, Last>, Stop>
    ensures marked { marked ≡ true → IfOk result (λ first. IfKnown (prepend_known reader.old (I.left input.old)) (λ left. first ≡ told_in cluster.now (option_copied name.entry) (Some (lines_of left)))) }
    ensures unmarked { marked ≡ false → IfOk result (λ first. first ≡ told_in cluster.now (option_copied name.entry) None) }
    ensures source { result ≡ Err Stop.Source → Rose (I.faults input.old) (I.faults input.new) }
    ensures only { IfErr result IsReadStop }
    ensures count { I.faults input.old ≤ I.faults input.new }
{
    if cluster.addresses.len() != cluster.nodes.len() {
        return Ok(Err(Last::Header { rule: 8 }));
    }
    told_behind(alloc, &cluster.schema, marked, name, reader, input)
}

/// The start behind a header.
fn start_behind<I: Source>(
    alloc: Global,
    name: Option<&Text>,
    heading: Heading,
    reader: &mut LineReader,
    input: &mut I,
) -> Result<Result<Start, Last>, Stop>
    ensures marked { heading.marked ≡ true → IfOk result (λ first. IfKnown (prepend_known reader.old (I.left input.old)) (λ left. first ≡ with_cluster heading.cluster (told_in heading.cluster (option_copied name.entry) (Some (lines_of left))))) }
    ensures unmarked { heading.marked ≡ false → IfOk result (λ first. first ≡ with_cluster heading.cluster (told_in heading.cluster (option_copied name.entry) None)) }
    ensures source { result ≡ Err Stop.Source → Rose (I.faults input.old) (I.faults input.new) }
    ensures only { IfErr result IsReadStop }
    ensures count { I.faults input.old ≤ I.faults input.new }
{
    let Heading {
        cluster,
        marked,
        ..
    } = heading;
    match told_in(alloc, &cluster, marked, name, reader, input) {
        Ok(Ok(two)) => Ok(Ok(Start { cluster, two })),
        Ok(Err(last)) => {
            drop(cluster);
            Ok(Err(last))
        }
        Err(stop) => {
            drop(cluster);
            Err(stop)
        }
    }
}

/// Why a header was not read.
fn header_ended(fault: HeadingFault) -> Result<Result<Start, Last>, Stop>
    ensures rule { IfOk result (λ first. (rule : ℕ) × (fault ≡ HeadingFault.Rule rule) × (first ≡ Err (Last.Header rule))) }
    ensures source { result ≡ Err Stop.Source → fault ≡ HeadingFault.Source }
    ensures only { IfErr result IsReadStop }
{
    match fault {
        HeadingFault::Rule { rule } => Ok(Err(Last::Header { rule })),
        HeadingFault::Source => Err(Stop::Source),
        HeadingFault::NoMemory => Err(Stop::NoMemory),
    }
}

/// Reads a header of at least so many nodes, with an address for each, and finds the change: by its name where one is given, and
/// else by the line behind the line `---`.
pub(crate) fn find_start<I: Source>(
    alloc: Global,
    number: u8,
    name: Option<&Text>,
    input: &mut I,
) -> Result<Result<Start, Last>, Stop>
    ensures started { IfOk result (λ first. IfKnown (I.left input.old) (λ input. first ≡ starts number (option_copied name.entry) input)) }
    ensures source { result ≡ Err Stop.Source → Rose (I.faults input.old) (I.faults input.new) }
    ensures only { IfErr result IsReadStop }
    ensures count { I.faults input.old ≤ I.faults input.new }
{
    let mut reader = LineReader::new(alloc)?;
    let mut line = Bytes::new(alloc);
    match read_heading(alloc, number, &mut reader, input, &mut line) {
        Ok(heading) => start_behind(alloc, name, heading, &mut reader, input),
        Err(fault) => header_ended(fault),
    }
}
