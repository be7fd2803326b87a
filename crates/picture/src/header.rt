//! The header of an input: the lines up to the line `---`, and the cluster that they describe.
ghost use Rattle.std.specs.Prelude.{◌≡◌, ◌<◌, ◌++◌, ◌∷◌, [], IfOk, IfSome, OnOk, length};
ghost use Rattle.picture.specs.Stops.{Gives};
ghost use Rattle.picture.specs.Inputs.{is_mark, mark_place, text_of, cluster_of};

use crate::refusal::Refusal;
use crate::stop::Stop;
use mega_base::{Bytes, NoMemory};
use mega_cluster::{Cluster, HeaderFault, read};
use std::alloc::Global;

/// Whether a line is the one between a header and a transcript; a carriage return may stand at its end.
fn is_mark(line: &[u8]) -> bool
    ensures { result ≡ is_mark line.now }
{
    line == b"---".as_slice() || line == b"---\r".as_slice()
}

/// Where that line stands first.
#[tactic(auto, using(crate::proofs::Heading::place_on, crate::proofs::Heading::place_here, crate::proofs::Heading::place_none))]
pub fn mark_place(lines: &[Bytes]) -> Option<usize>
    ensures value { result ≡ mark_place lines.now }
    ensures bound { IfSome result (λ place. place < length lines.now) }
{
    for (index, line) in lines.iter().enumerate() {
        if is_mark(line.as_slice()) {
            return Some(index);
        }
    }
    None
}

/// Appends a line with its line feed.
fn put_line(out: &mut Bytes, line: &[u8]) -> Result<(), NoMemory>
    ensures { OnOk result (out.new ≡ out.old ++ (line.now ++ 10 ∷ [])) }
{
    out.extend_from_slice(line)?;
    out.push(b'\n')
}

/// The text of lines, each with its line feed.
#[tactic(auto, using(crate::proofs::Heading::text_on))]
fn text_of(alloc: Global, lines: &[Bytes]) -> Result<Bytes, NoMemory>
    ensures { IfOk result (λ text. text ≡ text_of lines.now) }
{
    let mut text = Bytes::new(alloc);
    for line in lines {
        put_line(&mut text, line.as_slice())?;
    }
    Ok(text)
}

/// The cluster of a header's lines.
#[tactic(auto, unfolding(crate::specs::Inputs::cluster_of))]
pub fn cluster_of(alloc: Global, lines: &[Bytes]) -> Result<Cluster, Stop>
    ensures { Gives result (cluster_of lines.now) }
{
    let text = match text_of(alloc, lines) {
        Ok(text) => text,
        Err(_) => return Err(Stop::NoMemory),
    };
    match read(alloc, text.as_slice(), 1) {
        Ok(cluster) => Ok(cluster),
        Err(HeaderFault::Rule { rule }) => Err(Stop::Refused {
            refusal: Refusal::Header { rule },
        }),
        Err(HeaderFault::NoMemory) => Err(Stop::NoMemory),
    }
}
