//! A whole page: its head, what is drawn, and what is written around it.
ghost use Rattle.std.specs.Prelude.{◌≡◌, ◌≤◌, ◌<◌, ◌++◌, OnOk, length};
ghost use Rattle.mega_picture.specs.Pages.{opening, paper, head_with, head, lane_bands, all_bands, drawing, page};

use crate::arrow_names::put_arrow_names;
use crate::arrow_texts::put_arrows;
use crate::bands::{Band, put_bands};
use crate::groups::Groups;
use crate::item_line::ItemLine;
use crate::journeys::Journeys;
use crate::mark_texts::put_marks;
use crate::page_notes::put_writing;
use crate::sheet::Sheet;
use crate::style::{SHAPES, STYLE};
use crate::validity::put_validities;
use mega_base::{Bytes, NoMemory, NodeKind};
use std::alloc::Global;

#[tactic(auto, unfolding(crate::specs::Pages::opening))]
fn put_opening(alloc: Global, out: &mut Bytes, width: u64, height: u64) -> Result<(), NoMemory>
    ensures { OnOk result (out.new ≡ out.old ++ opening width height) }
{
    let text = format!(in alloc;
        "<svg xmlns=\"http://www.w3.org/2000/svg\" width=\"{width}\" height=\"{height}\" viewBox=\"0 0 {width} {height}\">\n"
    )?;
    out.extend_from_slice(text.as_bytes())
}

#[tactic(auto, unfolding(crate::specs::Pages::paper))]
fn put_paper(alloc: Global, out: &mut Bytes, width: u64, height: u64) -> Result<(), NoMemory>
    ensures { OnOk result (out.new ≡ out.old ++ paper width height) }
{
    let text = format!(in alloc; "<rect class=\"page\" width=\"{width}\" height=\"{height}\"/>\n")?;
    out.extend_from_slice(text.as_bytes())
}

/// Writes the opening of a page, with this style and these shapes.
#[tactic(auto, unfolding(crate::specs::Pages::head_with))]
fn put_head_with(
    alloc: Global,
    out: &mut Bytes,
    style: &str,
    shapes: &str,
    width: u64,
    height: u64,
) -> Result<(), NoMemory>
    ensures { OnOk result (out.new ≡ out.old ++ head_with style.now shapes.now width height) }
{
    put_opening(alloc, out, width, height)?;
    out.extend_from_slice(style.as_bytes())?;
    out.extend_from_slice(shapes.as_bytes())?;
    put_paper(alloc, out, width, height)
}

/// Writes the opening of a page, its style and its shapes.
fn put_head(alloc: Global, out: &mut Bytes, width: u64, height: u64) -> Result<(), NoMemory>
    ensures { OnOk result (out.new ≡ out.old ++ head width height) }
{
    put_head_with(alloc, out, STYLE, SHAPES, width, height)
}

/// Writes the bands of the lane of a node, counted from 0.
#[tactic(auto, unfolding(crate::specs::Pages::lane_bands))]
fn put_lane(
    alloc: Global,
    out: &mut Bytes,
    sheet: Sheet,
    groups: &Groups,
    told: &[ItemLine],
    index: u8,
) -> Result<(), NoMemory>
    requires few { length told.now ≤ 4000 }
    requires within { index < 255 }
    ensures { OnOk result (out.new ≡ out.old ++ lane_bands sheet groups.now told.now index) }
{
    let node = index + 1;
    put_bands(alloc, out, sheet, Band::Serves, node, told)?;
    put_bands(alloc, out, sheet, Band::Up, node, told)?;
    put_validities(alloc, out, sheet, groups, node, told)
}

/// Writes the bands of all lanes.
#[tactic(auto, using(crate::proofs::Paging::bands_on))]
fn put_lanes(
    alloc: Global,
    out: &mut Bytes,
    sheet: Sheet,
    groups: &Groups,
    told: &[ItemLine],
) -> Result<(), NoMemory>
    requires { length told.now ≤ 4000 }
    ensures { OnOk result (out.new ≡ out.old ++ all_bands sheet groups.now told.now) }
{
    for index in 0..sheet.nodes {
        put_lane(alloc, out, sheet, groups, told, index)?;
    }
    Ok(())
}

/// Writes what is drawn of the lines: bands, arrows and marks.
#[tactic(auto, unfolding(crate::specs::Pages::drawing))]
fn put_drawing(
    alloc: Global,
    out: &mut Bytes,
    sheet: Sheet,
    groups: &Groups,
    told: &[ItemLine],
) -> Result<(), NoMemory>
    requires { length told.now ≤ 4000 }
    ensures { OnOk result (out.new ≡ out.old ++ drawing sheet groups.now told.now) }
{
    let journeys = Journeys::new(alloc, told)?;
    put_lanes(alloc, out, sheet, groups, told)?;
    put_arrows(alloc, out, sheet, &journeys, told)?;
    put_arrow_names(alloc, out, sheet, told)?;
    put_marks(alloc, out, sheet, &journeys, groups, told)
}

/// Appends the page of a transcript's items, at most 4,000, under a header with these nodes; `first` is the number of the
/// first one's line. `NoMemory` alone refuses, and may leave a part of the page.
#[tactic(auto, unfolding(crate::specs::Pages::page_on))]
pub fn put_page(
    alloc: Global,
    out: &mut Bytes,
    nodes: &[NodeKind],
    first: u64,
    told: &[ItemLine],
) -> Result<(), NoMemory>
    requires { length told.now ≤ 4000 }
    ensures { OnOk result (out.new ≡ out.old ++ page nodes.now first told.now) }
{
    let sheet = Sheet {
        nodes: nodes.len().min(255) as u8,
        steps: told.len() as u32,
    };
    let groups = Groups::new(alloc, told)?;
    let count = groups.keys().len() as u32;
    put_head(alloc, out, sheet.width(), sheet.height(count))?;
    put_drawing(alloc, out, sheet, &groups, told)?;
    put_writing(alloc, out, sheet, groups.keys(), nodes, first, told)?;
    out.extend_from_slice(b"</svg>\n")
}
