//! How arrows are spelled in a page.
ghost use Rattle.std.specs.Prelude.{◌≡◌, ◌≤◌, ◌++◌, OnOk, IfOk, length, string_bytes};
ghost use Rattle.mega_picture.specs.Rows.{Follows};
ghost use Rattle.mega_picture.specs.ArrowTexts.{class_of, line_path, back_path, bow_path, bend_of, short_of, path_between, path_back, path_of, opening_of, drawn, arrow_text, text_if, arrow_texts};

use crate::arrows::{Arrow, End, arrow_of};
use crate::escape::put_fitted;
use crate::item_line::ItemLine;
use crate::journeys::Journeys;
use crate::kinds::tone_of;
use crate::sheet::{Sheet, step};
use mega_base::{Bytes, NoMemory};
use std::alloc::Global;

/// How far from the receiver's lane the arrow of a message that is dropped ends.
const SHORT: u64 = 22;

/// How far down the arrow of a message that is never taken goes.
const FALL: u64 = 20;

/// The class of an end, which says how the line looks.
fn class_of(end: End) -> &'static str
    ensures { result.now ≡ class_of end }
{
    match end {
        End::Taken { .. } => "taken",
        End::Dropped { .. } => "lost",
        End::Fades => "fades",
        End::Again { .. } => "again",
    }
}

/// The line from a point to another.
fn line_path(alloc: Global, x: u64, y: u64, to_x: u64, to_y: u64) -> Result<String, NoMemory>
    ensures { IfOk result (λ path. string_bytes path ≡ line_path x y to_x to_y) }
{
    let path = format!(in alloc; "M{x} {y}L{to_x} {to_y}")?;
    Ok(path)
}

/// The last part of a line that comes back so far down, and so far aside.
#[tactic(auto, unfolding(crate::specs::ArrowTexts::back_path))]
fn back_path(alloc: Global, down: u64, aside: &str) -> Result<String, NoMemory>
    ensures { IfOk result (λ path. string_bytes path ≡ back_path down aside.now) }
{
    let path = format!(in alloc; "{down} {aside} {down}")?;
    Ok(path)
}

/// The line from a point out to the left, bent so far, and back to a place below, so far aside.
fn bow_path(
    alloc: Global,
    x: u64,
    y: u64,
    bend: u64,
    aside: &str,
    to_y: u64,
) -> Result<String, NoMemory>
    ensures { IfOk result (λ path. string_bytes path ≡ bow_path x y bend aside.now to_y) }
{
    let back = back_path(alloc, to_y.saturating_sub(y), aside)?;
    let path = format!(in alloc; "M{x} {y}c-{bend} 0 -{bend} {back}")?;
    Ok(path)
}

/// How far out a line from a row to its own lane is bent: otherwise than from the six rows before, so that they stand
/// apart.
fn bend_of(row: u32) -> u64
    ensures { result ≡ bend_of row }
{
    32 + u64::from(row % 7) * 5
}

/// A place short of another, seen from a third one.
fn short_of(x: u64, to: u64) -> u64
    requires { to ≤ 100000 }
    ensures { result ≡ short_of x to }
{
    if x < to {
        to.saturating_sub(SHORT)
    } else {
        to + SHORT
    }
}

/// The line of an arrow between two lanes.
fn path_between(alloc: Global, x: u64, to: u64, y: u64, end: End) -> Result<String, NoMemory>
    requires x { x ≤ 100000 }
    requires to { to ≤ 100000 }
    requires y { y ≤ 281474976710656 }
    ensures { IfOk result (λ path. string_bytes path ≡ path_between x to y end) }
{
    match end {
        End::Taken { row } => line_path(alloc, x, y, to, step(row)),
        End::Dropped { row } => line_path(alloc, x, y, short_of(x, to), step(row)),
        End::Fades => line_path(alloc, x, y, (x + to) / 2, y + FALL),
        End::Again { row } => line_path(alloc, x, y, to, step(row)),
    }
}

/// The line of an arrow of a node to itself.
fn path_back(alloc: Global, x: u64, y: u64, bend: u64, end: End) -> Result<String, NoMemory>
    requires { y ≤ 281474976710656 }
    ensures { IfOk result (λ path. string_bytes path ≡ path_back x y bend end) }
{
    match end {
        End::Taken { row } => bow_path(alloc, x, y, bend, "0", step(row)),
        End::Dropped { row } => bow_path(alloc, x, y, bend, "-22", step(row)),
        End::Fades => bow_path(alloc, x, y, bend, "-22", y + FALL),
        End::Again { row } => bow_path(alloc, x, y, bend, "0", step(row)),
    }
}

/// The line of an arrow.
#[tactic(auto, unfolding(crate::specs::ArrowTexts::path_of))]
fn path_of(alloc: Global, sheet: Sheet, arrow: Arrow) -> Result<String, NoMemory>
    ensures { IfOk result (λ path. string_bytes path ≡ path_of sheet arrow) }
{
    let x = sheet.lane(arrow.from);
    let y = step(arrow.row);
    if arrow.from == arrow.to {
        path_back(alloc, x, y, bend_of(arrow.row), arrow.end)
    } else {
        path_between(alloc, x, sheet.lane(arrow.to), y, arrow.end)
    }
}

/// Opens the group of an arrow.
#[tactic(auto, unfolding(crate::specs::ArrowTexts::opening_of))]
fn put_opening(alloc: Global, out: &mut Bytes, arrow: Arrow) -> Result<(), NoMemory>
    ensures { OnOk result (out.new ≡ out.old ++ opening_of arrow) }
{
    let class = class_of(arrow.end);
    let tone = tone_of(arrow.position);
    let text = format!(in alloc; "<g class=\"{class} p{tone}\"><title>")?;
    out.extend_from_slice(text.as_bytes())
}

/// Closes the title of an arrow, and draws this line.
#[tactic(auto, unfolding(crate::specs::ArrowTexts::drawn))]
fn put_drawn(alloc: Global, out: &mut Bytes, path: &str) -> Result<(), NoMemory>
    ensures { OnOk result (out.new ≡ out.old ++ drawn path.now) }
{
    let text = format!(in alloc; "</title><path d=\"{path}\"/>")?;
    out.extend_from_slice(text.as_bytes())
}

/// Closes the title of an arrow, and draws its line.
fn put_path(alloc: Global, out: &mut Bytes, sheet: Sheet, arrow: Arrow) -> Result<(), NoMemory>
    ensures { OnOk result (out.new ≡ out.old ++ drawn (path_of sheet arrow)) }
{
    let path = path_of(alloc, sheet, arrow)?;
    put_drawn(alloc, out, path.as_str())?;
    Ok(())
}

/// Writes an arrow with a line of the transcript as its title.
#[tactic(auto, unfolding(crate::specs::ArrowTexts::arrow_text))]
fn put_arrow(
    alloc: Global,
    out: &mut Bytes,
    sheet: Sheet,
    arrow: Arrow,
    line: &[u8],
) -> Result<(), NoMemory>
    ensures { OnOk result (out.new ≡ out.old ++ arrow_text sheet arrow line.now) }
{
    put_opening(alloc, out, arrow)?;
    put_fitted(out, line, sheet.title_room())?;
    put_path(alloc, out, sheet, arrow)?;
    out.extend_from_slice(b"</g>\n")
}

/// Writes an arrow where there is one.
fn put_if(
    alloc: Global,
    out: &mut Bytes,
    sheet: Sheet,
    arrow: Option<Arrow>,
    line: &[u8],
) -> Result<(), NoMemory>
    ensures { OnOk result (out.new ≡ out.old ++ text_if sheet line.now arrow) }
{
    match arrow {
        Some(arrow) => put_arrow(alloc, out, sheet, arrow, line),
        None => Ok(()),
    }
}

/// Writes the arrows of all messages.
#[tactic(auto, using(crate::proofs::Drawing::arrows_on))]
pub fn put_arrows(
    alloc: Global,
    out: &mut Bytes,
    sheet: Sheet,
    journeys: &Journeys,
    told: &[ItemLine],
) -> Result<(), NoMemory>
    requires few { length told.now ≤ 4000 }
    requires rows { Follows journeys.now told.now }
    ensures { OnOk result (out.new ≡ out.old ++ arrow_texts sheet told.now) }
{
    for (index, one) in told.iter().enumerate() {
        let arrow = arrow_of(journeys, told, index as u32, &one.item);
        put_if(alloc, out, sheet, arrow, one.line.as_slice())?;
    }
    Ok(())
}
