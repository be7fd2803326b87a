//! The page of a window of an input's lines.
ghost use Rattle.std.specs.Prelude.{◌≡◌, ◌≤◌, ◌<◌, Some, drop, length, take};
ghost use Rattle.picture.specs.Stops.{Gives};
ghost use Rattle.picture.specs.Drawings.{page_unless, page_of, window_lines, drawn, drawing_at, drawing_of};

use crate::header::{cluster_of, mark_place};
use crate::items::told_of_lines;
use crate::lines::lines_of;
use crate::refusal::Refusal;
use crate::stop::Stop;
use crate::words::Window;
use mega_base::{Bytes, NodeKind};
use mega_cluster::Cluster;
use mega_picture::{Flaw, ItemLine, MOST, flaw_of, put_page};
use std::alloc::Global;

/// The page of items, unless one of them has a flaw.
fn page_unless(
    alloc: Global,
    nodes: &[NodeKind],
    first: u64,
    told: &[ItemLine],
    flaw: Option<Flaw>,
) -> Result<Bytes, Stop>
    requires { length told.now ≤ 4000 }
    ensures { Gives result (page_unless nodes.now first told.now flaw) }
{
    if let Some(flaw) = flaw {
        return Err(Stop::Refused {
            refusal: Refusal::Flawed { first, flaw },
        });
    }
    let mut page = Bytes::new(alloc);
    match put_page(alloc, &mut page, nodes, first, told) {
        Ok(()) => Ok(page),
        Err(_) => Err(Stop::NoMemory),
    }
}

/// The page of items that can be drawn.
#[tactic(auto, unfolding(crate::specs::Drawings::page_of))]
fn page_of(alloc: Global, nodes: &[NodeKind], first: u64, told: &[ItemLine]) -> Result<Bytes, Stop>
    requires { length told.now ≤ 4000 }
    ensures { Gives result (page_of nodes.now first told.now) }
{
    let count = nodes.len().min(255) as u8;
    match flaw_of(alloc, count, told) {
        Ok(flaw) => page_unless(alloc, nodes, first, told, flaw),
        Err(_) => Err(Stop::NoMemory),
    }
}

/// The lines behind so many.
#[tactic(auto, using(crate::proofs::Windows::none_behind))]
fn behind(lines: &[Bytes], count: u64) -> &[Bytes]
    ensures { result.now ≡ drop count lines.now }
{
    if lines.len() as u64 <= count {
        return &[];
    }
    let (_, rest) = lines.split_at(count as usize);
    rest
}

/// The first lines, so many at most.
#[tactic(auto, using(crate::proofs::Windows::all_before))]
fn front(lines: &[Bytes], count: u64) -> &[Bytes]
    ensures { result.now ≡ take count lines.now }
{
    if lines.len() as u64 <= count {
        return lines;
    }
    let (front, _) = lines.split_at(count as usize);
    front
}

/// The lines of a window.
#[tactic(auto, unfolding(crate::specs::Drawings::window_lines))]
fn window_lines(window: Window, lines: &[Bytes]) -> &[Bytes]
    ensures { result.now ≡ window_lines window lines.now }
{
    let passed = window.from.saturating_sub(1);
    front(behind(lines, passed), window.to.saturating_sub(passed))
}

/// The page of these lines; the first one has this number.
#[tactic(auto, unfolding(crate::specs::Drawings::drawn), using(crate::proofs::Windows::after, crate::proofs::Windows::stopped))]
fn drawn(alloc: Global, cluster: &Cluster, first: u64, lines: &[Bytes]) -> Result<Bytes, Stop>
    ensures { Gives result (drawn cluster.now first lines.now) }
{
    if MOST < lines.len() {
        return Err(Stop::Refused {
            refusal: Refusal::TooMany { first },
        });
    }
    match told_of_lines(alloc, &cluster.schema, first, lines) {
        Ok(told) => page_of(alloc, cluster.nodes.as_slice(), first, told.as_slice()),
        Err(stop) => Err(stop),
    }
}

/// The page of a window of an input's lines, of which the one in this place is `---`.
#[tactic(auto, using(crate::proofs::Windows::after, crate::proofs::Windows::stopped))]
fn drawing_behind(
    alloc: Global,
    window: Window,
    lines: &[Bytes],
    place: usize,
) -> Result<Bytes, Stop>
    requires { place < length lines.now }
    ensures { Gives result (drawing_at window lines.now (Some place)) }
{
    let (header, _) = lines.split_at(place);
    let (_, rest) = lines.split_at(place + 1);
    match cluster_of(alloc, header) {
        Ok(cluster) => drawn(alloc, &cluster, window.from, window_lines(window, rest)),
        Err(stop) => Err(stop),
    }
}

/// The page of a window of an input's lines.
#[tactic(auto, unfolding(crate::specs::Drawings::drawing_of))]
pub fn drawing_of(alloc: Global, window: Window, input: &[u8]) -> Result<Bytes, Stop>
    ensures { Gives result (drawing_of window input.now) }
{
    let lines = match lines_of(alloc, input) {
        Ok(lines) => lines,
        Err(_) => return Err(Stop::NoMemory),
    };
    match mark_place(lines.as_slice()) {
        Some(place) => drawing_behind(alloc, window, lines.as_slice(), place),
        None => Err(Stop::Refused {
            refusal: Refusal::NoTranscript,
        }),
    }
}
