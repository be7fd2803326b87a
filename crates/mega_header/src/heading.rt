//! The cluster of a header.
ghost use Rattle.std.specs.Prelude.{◌≡◌, ◌≢◌, ◌≤◌, ℕ, List, true, false, Ok, Err, IfOk};
ghost use Rattle.std.specs.Io.KnownBytes.{prepend_known};
ghost use Rattle.mega_base.specs.Causes.{Rose};
ghost use Rattle.mega_cluster.specs.Header.{read_of};
ghost use Rattle.mega_header.specs.Known.{Breaks, HasHeader, HasNoMark, HeaderFails, Takes};

use crate::text::read_text;
use mega_base::Bytes;
use mega_cluster::{Cluster, HeaderFault, read};
use mega_io::{LineReader, Source};
use std::alloc::Global;

/// A header that was read: its cluster, whether the line `---` stands behind it, and how many bytes it has, with that
/// line and its line feed.
#[derive(Drop)]
pub struct Heading {
    pub cluster: Cluster,
    pub marked: bool,
    pub taken: usize,
}

/// Why a header was not read.
#[derive(Clone, Copy, PartialEq, Debug, Drop)]
pub enum HeadingFault {
    /// It breaks this rule, and none that is tried before.
    Rule { rule: u8 },
    /// A call of the source failed.
    Source,
    /// An allocation was refused.
    NoMemory,
}

/// The cluster of a header's text, which has at least so many nodes.
fn cluster_of(alloc: Global, least: u8, text: &[u8]) -> Result<Cluster, HeadingFault>
    ensures ok { IfOk result (λ cluster. read_of least text.now ≡ Ok cluster) }
    ensures broken { (rule : ℕ) → result ≡ Err (HeadingFault.Rule rule) → read_of least text.now ≡ Err rule }
    ensures unfailed { result ≢ Err HeadingFault.Source }
{
    match read(alloc, text, least) {
        Ok(cluster) => Ok(cluster),
        Err(HeaderFault::Rule { rule }) => Err(HeadingFault::Rule { rule }),
        Err(HeaderFault::NoMemory) => Err(HeadingFault::NoMemory),
    }
}

/// Reads a header of at least so many nodes, and the line `---` behind it, where that is there.
pub fn read_heading<I: Source>(
    alloc: Global,
    least: u8,
    reader: &mut LineReader,
    input: &mut I,
    line: &mut Bytes,
) -> Result<Heading, HeadingFault>
    ensures marked { IfOk result (λ heading. heading.marked ≡ true → (text : List ℕ) × (read_of least text ≡ Ok heading.cluster) × HasHeader (prepend_known reader.old (I.left input.old)) (prepend_known reader.new (I.left input.new)) text) }
    ensures unmarked { IfOk result (λ heading. heading.marked ≡ false → (text : List ℕ) × (read_of least text ≡ Ok heading.cluster) × HasNoMark (prepend_known reader.old (I.left input.old)) text) }
    ensures taken { IfOk result (λ heading. heading.marked ≡ true → (heading.taken ≤ 262149) × Takes (prepend_known reader.old (I.left input.old)) (prepend_known reader.new (I.left input.new)) heading.taken) }
    ensures broken { (rule : ℕ) → result ≡ Err (HeadingFault.Rule rule) → Breaks least (prepend_known reader.old (I.left input.old)) rule }
    ensures fault { result ≡ Err HeadingFault.Source → HeaderFails (prepend_known reader.old (I.left input.old)) (I.left input.new) }
    ensures source { result ≡ Err HeadingFault.Source → Rose (I.faults input.old) (I.faults input.new) }
    ensures count { I.faults input.old ≤ I.faults input.new }
{
    let mut text = Bytes::new(alloc);
    let marked = match read_text(reader, input, line, &mut text) {
        Ok(marked) => marked,
        Err(fault) => return Err(fault),
    };
    let taken = if marked {
        text.len() + line.len() + 1
    } else {
        text.len()
    };
    match cluster_of(alloc, least, text.as_slice()) {
        Ok(cluster) => Ok(Heading {
            cluster,
            marked,
            taken,
        }),
        Err(fault) => Err(fault),
    }
}
