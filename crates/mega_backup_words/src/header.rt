//! The header that stands in front: of a log, its cluster; of a backup, its cluster and the lines behind it.
ghost use Rattle.std.specs.Prelude.{◌≡◌, ◌≤◌, ◌-◌, ℕ, Some, Ok, Err, IfOk, IfErr, OnOk, true, false};
ghost use Rattle.std.specs.Io.KnownBytes.{prepend_known};
ghost use Rattle.mega_base.specs.Causes.{Rose};
ghost use Rattle.mega_cluster.specs.declared.cluster.Cluster.{Cluster as Members};
ghost use Rattle.mega_header.specs.Known.{Breaks, IfKnown};
ghost use Rattle.mega_header.specs.Parts.{cluster_in, lines_behind};
ghost use Rattle.mega_backup_words.specs.Endings.{ending_of};
ghost use Rattle.mega_backup_words.specs.Inputs.{lines_within, most_bytes, restore_of};
ghost use Rattle.mega_backup_words.specs.Stops.{IsHeaderStop};

use crate::lines::read_lines;
use crate::stop::Stop;
use mega_base::Bytes;
use mega_cluster::Cluster;
use mega_header::{Heading, HeadingFault, read_heading};
use mega_io::{LineReader, Source};
use std::alloc::Global;

/// The most bytes that the input of a restore may have.
const MOST_BYTES: usize = 1_073_741_824;

/// A cluster, and the lines behind its header.
#[derive(Drop)]
pub struct Parts {
    pub cluster: Cluster,
    pub lines: Vec<Bytes>,
}

/// Why a header was not read.
fn stop_of(fault: HeadingFault) -> Stop
    ensures rule { (rule : ℕ) → result ≡ Stop.Header rule → fault ≡ HeadingFault.Rule rule }
    ensures source { result ≡ Stop.Source → fault ≡ HeadingFault.Source }
    ensures only { IsHeaderStop result }
{
    match fault {
        HeadingFault::Rule { rule } => Stop::Header { rule },
        HeadingFault::Source => Stop::Source,
        HeadingFault::NoMemory => Stop::NoMemory,
    }
}

/// Reads a header of at least so many nodes, which ends with the line `---` or with the input.
pub fn read_header<I: Source>(alloc: Global, least: u8, input: &mut I) -> Result<(), Stop>
    ensures read { OnOk result ((cluster : Members) × IfKnown (I.left input.old) (λ input. cluster_in least input ≡ Ok cluster)) }
    ensures broken { (rule : ℕ) → result ≡ Err (Stop.Header rule) → Breaks least (I.left input.old) rule }
    ensures source { result ≡ Err Stop.Source → Rose (I.faults input.old) (I.faults input.new) }
    ensures only { IfErr result IsHeaderStop }
    ensures count { I.faults input.old ≤ I.faults input.new }
{
    let mut reader = LineReader::new(alloc)?;
    let mut line = Bytes::new(alloc);
    match read_heading(alloc, least, &mut reader, input, &mut line) {
        Ok(heading) => {
            drop(heading);
            Ok(())
        }
        Err(fault) => Err(stop_of(fault)),
    }
}

/// Reads a header, the line `---` and the lines behind it.
pub fn read_parts<I: Source>(alloc: Global, input: &mut I) -> Result<Parts, Stop>
    ensures read { IfOk result (λ parts. IfKnown (I.left input.old) (λ input. (cluster_in 1 input ≡ Ok parts.cluster) × (lines_behind (lines_within most_bytes input) ≡ Some parts.lines.items))) }
    ensures broken { (rule : ℕ) → result ≡ Err (Stop.Header rule) → IfKnown (I.left input.old) (λ input. (at : ℕ) → restore_of at input ≡ ending_of (Stop.Header rule)) }
    ensures source { result ≡ Err Stop.Source → Rose (I.faults input.old) (I.faults input.new) }
    ensures only { IfErr result IsHeaderStop }
    ensures count { I.faults input.old ≤ I.faults input.new }
{
    let mut reader = LineReader::new(alloc)?;
    let mut line = Bytes::new(alloc);
    match read_heading(alloc, 1, &mut reader, input, &mut line) {
        Ok(heading) => read_behind(alloc, heading, MOST_BYTES, &mut reader, input),
        Err(fault) => Err(stop_of(fault)),
    }
}

/// Reads the lines behind a header, where the line `---` stands behind it, of an input that may have so many bytes.
fn read_behind<I: Source>(
    alloc: Global,
    heading: Heading,
    most: usize,
    reader: &mut LineReader,
    input: &mut I,
) -> Result<Parts, Stop>
    requires { heading.marked ≡ true → heading.taken ≤ most }
    ensures marked { IfOk result (λ parts. (heading.marked ≡ true) × (parts.cluster ≡ heading.cluster)) }
    ensures read { IfOk result (λ parts. IfKnown (prepend_known reader.old (I.left input.old)) (λ left. lines_within (most - heading.taken) left ≡ parts.lines.items)) }
    ensures unmarked { (rule : ℕ) → result ≡ Err (Stop.Header rule) → (rule ≡ 9) × (heading.marked ≡ false) }
    ensures source { result ≡ Err Stop.Source → Rose (I.faults input.old) (I.faults input.new) }
    ensures only { IfErr result IsHeaderStop }
    ensures count { I.faults input.old ≤ I.faults input.new }
{
    let Heading {
        cluster,
        marked,
        taken,
    } = heading;
    if !marked {
        drop(cluster);
        return Err(Stop::Header { rule: 9 });
    }
    match read_lines(alloc, reader, input, most - taken) {
        Ok(lines) => Ok(Parts { cluster, lines }),
        Err(stop) => {
            drop(cluster);
            Err(stop)
        }
    }
}
