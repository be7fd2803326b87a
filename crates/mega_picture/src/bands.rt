//! The bands along lanes where nodes are up, and where their coordinators serve.
ghost use Rattle.std.specs.Prelude.{◌≡◌, ◌≤◌, ◌++◌, OnOk, length};
ghost use Rattle.mega_picture.specs.Bands.{turn_if, turn_of, width_of, class_of, rect_text, band_text, ended, turned, since_after, band_texts};

use crate::item_line::ItemLine;
use crate::sheet::{Sheet, step};
use mega_base::{Bytes, NoMemory};
use mega_transcript::Item;
use std::alloc::Global;

/// What an item does to a band along the lane of a node.
#[derive(Clone, Copy, Drop)]
pub enum Turn {
    /// It begins one, and ends the one before.
    Begins,
    /// It ends the one that is there.
    Ends,
    /// Nothing.
    Stays,
}

/// The bands of a node.
#[derive(Clone, Copy, Drop)]
pub enum Band {
    /// It is up.
    Up,
    /// Its coordinator serves.
    Serves,
}

/// The turn, where it is here that it happens.
fn turn_if(here: bool, turn: Turn) -> Turn
    ensures { result ≡ turn_if here turn }
{
    if here { turn } else { Turn::Stays }
}

/// What an item does to a band of a node.
pub fn turn_of(band: Band, node: u8, item: &Item) -> Turn
    ensures { result ≡ turn_of band node item.now }
{
    match (band, item) {
        (Band::Up, Item::Start { node: at, .. }) => turn_if(at.0 == node, Turn::Begins),
        (Band::Up, Item::Crash { node: at }) => turn_if(at.0 == node, Turn::Ends),
        (Band::Serves, Item::Serving { node: at, .. }) => turn_if(at.0 == node, Turn::Begins),
        (Band::Serves, Item::Lost { node: at, .. }) => turn_if(at.0 == node, Turn::Ends),
        (Band::Serves, Item::Crash { node: at }) => turn_if(at.0 == node, Turn::Ends),
        _ => Turn::Stays,
    }
}

/// How wide a band is.
fn width_of(band: Band) -> u64
    ensures { result ≡ width_of band }
{
    match band {
        Band::Up => 2,
        Band::Serves => 14,
    }
}

/// The class of a band.
fn class_of(band: Band) -> &'static str
    ensures { result.now ≡ class_of band }
{
    match band {
        Band::Up => "up",
        Band::Serves => "serves",
    }
}

/// Draws a rectangle of a class.
fn put_rect(
    alloc: Global,
    out: &mut Bytes,
    class: &str,
    x: u64,
    y: u64,
    width: u64,
    height: u64,
) -> Result<(), NoMemory>
    ensures { OnOk result (out.new ≡ out.old ++ rect_text class.now x y width height) }
{
    let text = format!(in alloc;
        "<rect class=\"{class}\" x=\"{x}\" y=\"{y}\" width=\"{width}\" height=\"{height}\"/>\n"
    )?;
    out.extend_from_slice(text.as_bytes())
}

/// Writes a band of a node between two steps.
#[tactic(auto, unfolding(crate::specs::Bands::band_text))]
fn put_band(
    alloc: Global,
    out: &mut Bytes,
    sheet: Sheet,
    band: Band,
    node: u8,
    from: u32,
    to: u32,
) -> Result<(), NoMemory>
    ensures { OnOk result (out.new ≡ out.old ++ band_text sheet band node from to) }
{
    let width = width_of(band);
    let x = sheet.lane(node).saturating_sub(width / 2);
    let y = step(from);
    let height = step(to).saturating_sub(y);
    put_rect(alloc, out, class_of(band), x, y, width, height)
}

/// Writes the band that is there, up to a step.
fn put_ended(
    alloc: Global,
    out: &mut Bytes,
    sheet: Sheet,
    band: Band,
    node: u8,
    since: Option<u32>,
    to: u32,
) -> Result<(), NoMemory>
    ensures { OnOk result (out.new ≡ out.old ++ ended sheet band node since to) }
{
    match since {
        Some(from) => put_band(alloc, out, sheet, band, node, from, to),
        None => Ok(()),
    }
}

/// Writes the band that an item in a row ends, where it does.
fn put_turn(
    alloc: Global,
    out: &mut Bytes,
    sheet: Sheet,
    band: Band,
    node: u8,
    since: Option<u32>,
    row: u32,
    turn: Turn,
) -> Result<(), NoMemory>
    ensures { OnOk result (out.new ≡ out.old ++ turned sheet band node since row turn) }
{
    match turn {
        Turn::Stays => Ok(()),
        Turn::Begins => put_ended(alloc, out, sheet, band, node, since, row),
        Turn::Ends => put_ended(alloc, out, sheet, band, node, since, row),
    }
}

/// Since which row a band is there, after an item in a row.
fn since_after(since: Option<u32>, row: u32, turn: Turn) -> Option<u32>
    ensures { result ≡ since_after since row turn }
{
    match turn {
        Turn::Stays => since,
        Turn::Begins => Some(row),
        Turn::Ends => None,
    }
}

/// Writes the bands of a node, the last one to the foot of the page.
#[tactic(auto, using(crate::proofs::Banding::bands_on))]
pub fn put_bands(
    alloc: Global,
    out: &mut Bytes,
    sheet: Sheet,
    band: Band,
    node: u8,
    told: &[ItemLine],
) -> Result<(), NoMemory>
    requires { length told.now ≤ 4000 }
    ensures { OnOk result (out.new ≡ out.old ++ band_texts sheet band node told.now) }
{
    let mut since = None;
    for (index, one) in told.iter().enumerate() {
        let row = index as u32;
        let turn = turn_of(band, node, &one.item);
        put_turn(alloc, out, sheet, band, node, since, row, turn)?;
        since = since_after(since, row, turn);
    }
    put_ended(alloc, out, sheet, band, node, since, sheet.steps)
}
