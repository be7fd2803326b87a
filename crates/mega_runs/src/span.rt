//! Where the versions of a range of keys stand in a run.
ghost use Rattle.std.specs.Prelude.{◌≡◌, ℕ, List, [], min, IfNone, IfSome};
ghost use Rattle.mega_runs.specs.declared.body.Version.{Version as SomeVersion};
ghost use Rattle.mega_runs.specs.Index.{IsIndexed};
ghost use Rattle.mega_runs.specs.Ranges.{IsSpanOf, SpansRange, count_of_blocks, size_of_blocks};

use crate::index::{Block, Indexed};
use crate::search::between;
use mega_base::Bytes;

/// Versions of a run that stand together: the place and size of their bytes, and their count.
#[derive(Drop)]
pub(crate) struct Span {
    pub start: u64,
    pub size: u64,
    pub count: u32,
}

/// The versions of a run among which all those of the keys from `from` on and before `to` stand, where there are any.
pub(crate) fn span_within(run: &Indexed, from: &Bytes, to: &Bytes) -> Option<Span>
    ensures { (file : List ℕ) (end : ℕ) (versions : List SomeVersion) → IsIndexed file end versions run.now → SpansRange file from.now to.now versions result }
{
    span_of(run, between(run.blocks.as_slice(), from, to))
}

/// The versions of blocks of a run that stand one behind another.
fn span_of(run: &Indexed, blocks: &[Block]) -> Option<Span>
    ensures none { IfNone result (blocks.now ≡ []) }
    ensures some { IfSome result (IsSpanOf run.now blocks.now) }
{
    match blocks.first() {
        Some(first) => Some(Span {
            start: first.start,
            size: size_of(blocks, run.size),
            count: count_of(blocks, run.count),
        }),
        None => None,
    }
}

/// How many bytes blocks have, of so many at most.
fn size_of(blocks: &[Block], most: u64) -> u64
    ensures { result ≡ min (size_of_blocks blocks.now) most }
{
    let mut size = 0u64;
    let mut rest = blocks;
    while let Some((block, behind)) = rest.split_first() {
        size = size.saturating_add(block.size);
        rest = behind;
    }
    size.min(most)
}

/// How many versions blocks have, of so many at most.
fn count_of(blocks: &[Block], most: u32) -> u32
    ensures { result ≡ min (count_of_blocks blocks.now) most }
{
    let mut count = 0u32;
    let mut rest = blocks;
    while let Some((block, behind)) = rest.split_first() {
        count = count.saturating_add(block.count);
        rest = behind;
    }
    count.min(most)
}
