//! The cluster of the header, which has the node and an address for each node.
ghost use Rattle.std.specs.Prelude.{◌≡◌, ◌≤◌, ℕ, List, Ok, Err, IfErr, IfOk};
ghost use Rattle.mega_base.specs.Causes.{Rose};
ghost use Rattle.mega_cluster.specs.Header.{read_of};
ghost use Rattle.mega_header.specs.Known.{HeaderFails};
ghost use Rattle.mega_node.specs.Headers.{IsBroken, IsHeaded, IsRead, addressed};
ghost use Rattle.mega_node.specs.Stops.{IsHeaderStop};

use crate::stop::Stop;
use mega_base::Bytes;
use mega_cluster::Cluster;
use mega_header::{HeadingFault, read_heading};
use mega_io::{LineReader, Source};
use std::alloc::Global;

/// The cluster, where it has one address for each node.
fn addressed(cluster: Cluster) -> Result<Cluster, Stop>
    ensures ok { IfOk result (λ c. (c ≡ cluster) × (addressed cluster ≡ Ok cluster)) }
    ensures err { IfErr result (λ stop. (stop ≡ Stop.Header 8) × (addressed cluster ≡ Err 8)) }
{
    if cluster.addresses.len() == cluster.nodes.len() {
        return Ok(cluster);
    }
    drop(cluster);
    Err(Stop::Header { rule: 8 })
}

/// Why no header was read.
fn stop_of(fault: HeadingFault) -> Stop
    ensures rule { (rule : ℕ) → result ≡ Stop.Header rule → fault ≡ HeadingFault.Rule rule }
    ensures source { result ≡ Stop.Source → fault ≡ HeadingFault.Source }
    ensures only { IsHeaderStop result }
{
    match fault {
        HeadingFault::Rule { rule } => Stop::Header { rule },
        HeadingFault::Source => Stop::Source,
        HeadingFault::NoMemory => Stop::NoMemory,
    }
}

/// Reads the header, and gives the cluster in which the node of this number is.
pub(crate) fn read_members<I: Source>(
    alloc: Global,
    number: u8,
    input: &mut I,
) -> Result<Cluster, Stop>
    ensures headed { IfOk result (IsHeaded number (I.left input.old)) }
    ensures read { IfOk result (IsRead number) }
    ensures broken { (rule : ℕ) → result ≡ Err (Stop.Header rule) → IsBroken number (I.left input.old) rule }
    ensures fault { result ≡ Err Stop.Source → HeaderFails (I.left input.old) (I.left input.new) }
    ensures source { result ≡ Err Stop.Source → Rose (I.faults input.old) (I.faults input.new) }
    ensures only { IfErr result IsHeaderStop }
    ensures count { I.faults input.old ≤ I.faults input.new }
{
    let mut reader = match LineReader::new(alloc) {
        Ok(reader) => reader,
        Err(_) => return Err(Stop::NoMemory),
    };
    let mut line = Bytes::new(alloc);
    match read_heading(alloc, number, &mut reader, input, &mut line) {
        Ok(heading) => addressed(heading.cluster),
        Err(fault) => Err(stop_of(fault)),
    }
}
