//! The header of a replay, which ends with the line `---`.
ghost use Rattle.std.specs.Prelude.{◌≡◌, ◌≤◌, ℕ, Err, IfOk, IfErr};
ghost use Rattle.std.specs.Io.KnownBytes.{prepend_known};
ghost use Rattle.mega_base.specs.Causes.{Rose};
ghost use Rattle.mega_header.specs.Known.{HeaderFails};
ghost use Rattle.mega_replay_loop.specs.Known.{IsBroken, IsHeaded, IsRead};
ghost use Rattle.mega_replay_output.specs.Stops.{IsHeaderStop};

use mega_base::Bytes;
use mega_cluster::Cluster;
use mega_header::{Heading, HeadingFault, read_heading};
use mega_io::{LineReader, Source};
use mega_replay_output::Stop;
use std::alloc::Global;

/// Reads a header and the line `---` after it.
pub fn read_header<I: Source>(
    alloc: Global,
    reader: &mut LineReader,
    input: &mut I,
    line: &mut Bytes,
) -> Result<Cluster, Stop>
    ensures headed { IfOk result (λ cluster. IsHeaded (prepend_known reader.old (I.left input.old)) (prepend_known reader.new (I.left input.new)) cluster) }
    ensures read { IfOk result IsRead }
    ensures broken { (rule : ℕ) → result ≡ Err (Stop.Header rule) → IsBroken (prepend_known reader.old (I.left input.old)) rule }
    ensures fault { result ≡ Err Stop.Source → HeaderFails (prepend_known reader.old (I.left input.old)) (I.left input.new) }
    ensures source { result ≡ Err Stop.Source → Rose (I.faults input.old) (I.faults input.new) }
    ensures only { IfErr result IsHeaderStop }
    ensures count { I.faults input.old ≤ I.faults input.new }
{
    match read_heading(alloc, 1, reader, input, line) {
        Ok(
            Heading {
                cluster,
                marked,
                ..
            },
        ) => {
            if !marked {
                drop(cluster);
                return Err(Stop::Header { rule: 9 });
            }
            Ok(cluster)
        }
        Err(HeadingFault::Rule { rule }) => Err(Stop::Header { rule }),
        Err(HeadingFault::Source) => Err(Stop::Source),
        Err(HeadingFault::NoMemory) => Err(Stop::NoMemory),
    }
}
