//! How marks are spelled in a page.
ghost use Rattle.std.specs.Prelude.{◌≡◌, ◌≤◌, ◌++◌, OnOk, length};
ghost use Rattle.mega_picture.specs.Rows.{Follows};
ghost use Rattle.mega_picture.specs.MarkTexts.{x_of, beside_of, class_of, room_of, mark_opening, use_text, text_opening, caption_text, figure_text, mark_text, text_if, mark_texts};

use crate::escape::{put_cut, put_fitted};
use crate::groups::Groups;
use crate::item_line::ItemLine;
use crate::journeys::Journeys;
use crate::kinds::tone_of;
use crate::labels::put_label;
use crate::marks::{Mark, Place, mark_of, word_of};
use crate::sheet::{Sheet, step};
use mega_base::{Bytes, NoMemory};
use std::alloc::Global;

/// Where the left edge of what goes across all lanes is.
const EDGE: u64 = 52;

/// How far beside and below its mark's middle a label stands.
const BESIDE: u64 = 11;

const BELOW: u64 = 4;

/// Where a mark stands.
fn x_of(sheet: Sheet, place: Place) -> u64
    ensures value { result ≡ x_of sheet place }
    ensures bound { result ≤ 100000 }
{
    match place {
        Place::Right { node } => sheet.lane(node),
        Place::Left { node } => sheet.lane(node),
        Place::Across => EDGE,
    }
}

/// Where the label of a mark begins, or ends where it stands to the left.
fn beside_of(sheet: Sheet, place: Place) -> u64
    ensures { result ≡ beside_of sheet place }
{
    match place {
        Place::Left { node } => sheet.lane(node).saturating_sub(BESIDE),
        Place::Right { node } => sheet.lane(node) + BESIDE,
        Place::Across => EDGE + BESIDE,
    }
}

/// The class of a label, which says at which end its place is.
fn class_of(place: Place) -> &'static str
    ensures { result.now ≡ class_of place }
{
    match place {
        Place::Left { .. } => "e",
        Place::Right { .. } => "b",
        Place::Across => "b",
    }
}

/// How many bytes of a label there is room for.
fn room_of(sheet: Sheet, place: Place) -> usize
    ensures { result ≡ room_of sheet place }
{
    match place {
        Place::Left { .. } => sheet.label_room(),
        Place::Right { .. } => sheet.label_room(),
        Place::Across => sheet.width() as usize,
    }
}

/// Opens the group of a mark.
#[tactic(auto, unfolding(crate::specs::MarkTexts::mark_opening))]
fn put_mark_opening(alloc: Global, out: &mut Bytes, tone: u64) -> Result<(), NoMemory>
    ensures { OnOk result (out.new ≡ out.old ++ mark_opening tone) }
{
    let text = format!(in alloc; "<g class=\"mark p{tone}\"><title>")?;
    out.extend_from_slice(text.as_bytes())
}

/// Closes the title of a mark, and draws its shape.
fn put_use(alloc: Global, out: &mut Bytes, shape: &str, x: u64, y: u64) -> Result<(), NoMemory>
    ensures { OnOk result (out.new ≡ out.old ++ use_text shape.now x y) }
{
    let text = format!(in alloc; "</title><use href=\"#{shape}\" x=\"{x}\" y=\"{y}\"/>")?;
    out.extend_from_slice(text.as_bytes())
}

/// Opens the label of a mark.
fn put_text_opening(
    alloc: Global,
    out: &mut Bytes,
    class: &str,
    x: u64,
    y: u64,
) -> Result<(), NoMemory>
    ensures { OnOk result (out.new ≡ out.old ++ text_opening class.now x y) }
{
    let text = format!(in alloc; "<text class=\"{class}\" x=\"{x}\" y=\"{y}\">")?;
    out.extend_from_slice(text.as_bytes())
}

/// Writes the label of a mark in a row, and closes the group of the mark.
#[tactic(auto, unfolding(crate::specs::MarkTexts::caption_text))]
fn put_caption(
    alloc: Global,
    out: &mut Bytes,
    sheet: Sheet,
    row: u32,
    place: Place,
    label: &[u8],
) -> Result<(), NoMemory>
    ensures { OnOk result (out.new ≡ out.old ++ caption_text sheet row place label.now) }
{
    let y = step(row) + BELOW;
    put_text_opening(alloc, out, class_of(place), beside_of(sheet, place), y)?;
    put_cut(out, label, room_of(sheet, place))?;
    out.extend_from_slice(b"</text></g>\n")?;
    Ok(())
}

/// Draws the shape of a mark in a row, and writes its label.
#[tactic(auto, unfolding(crate::specs::MarkTexts::figure_text))]
fn put_figure(
    alloc: Global,
    out: &mut Bytes,
    sheet: Sheet,
    row: u32,
    mark: Mark,
    label: &[u8],
) -> Result<(), NoMemory>
    ensures { OnOk result (out.new ≡ out.old ++ figure_text sheet row mark label.now) }
{
    put_use(
        alloc,
        out,
        word_of(mark.shape),
        x_of(sheet, mark.place),
        step(row),
    )?;
    put_caption(alloc, out, sheet, row, mark.place, label)
}

/// Writes a mark with a line of the transcript as its title, and a label beside it.
#[tactic(auto, unfolding(crate::specs::MarkTexts::mark_text))]
fn put_mark(
    alloc: Global,
    out: &mut Bytes,
    sheet: Sheet,
    row: u32,
    mark: Mark,
    line: &[u8],
    label: &[u8],
) -> Result<(), NoMemory>
    ensures { OnOk result (out.new ≡ out.old ++ mark_text sheet row mark line.now label.now) }
{
    put_mark_opening(alloc, out, tone_of(mark.position))?;
    put_fitted(out, line, sheet.title_room())?;
    put_figure(alloc, out, sheet, row, mark, label)
}

/// Writes the mark of an item where it has one.
fn put_if(
    alloc: Global,
    out: &mut Bytes,
    sheet: Sheet,
    groups: &Groups,
    row: u32,
    mark: Option<Mark>,
    one: &ItemLine,
) -> Result<(), NoMemory>
    ensures { OnOk result (out.new ≡ out.old ++ text_if sheet groups.now row one.now mark) }
{
    let Some(mark) = mark else {
        return Ok(());
    };
    let line = one.line.as_slice();
    let mut label = Bytes::new(alloc);
    put_label(alloc, &mut label, groups, &one.item, line)?;
    put_mark(alloc, out, sheet, row, mark, line, label.as_slice())
}

/// Writes the marks of all items.
#[tactic(auto, using(crate::proofs::Drawing::marks_on))]
pub fn put_marks(
    alloc: Global,
    out: &mut Bytes,
    sheet: Sheet,
    journeys: &Journeys,
    groups: &Groups,
    told: &[ItemLine],
) -> Result<(), NoMemory>
    requires few { length told.now ≤ 4000 }
    requires rows { Follows journeys.now told.now }
    ensures { OnOk result (out.new ≡ out.old ++ mark_texts sheet groups.now told.now) }
{
    for (index, one) in told.iter().enumerate() {
        let mark = mark_of(journeys, told, &one.item);
        put_if(alloc, out, sheet, groups, index as u32, mark, one)?;
    }
    Ok(())
}
