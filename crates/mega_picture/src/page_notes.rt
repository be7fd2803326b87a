//! What is written around a drawing: numbers of lines, names of lanes, and which group each number stands for.
ghost use Rattle.std.specs.Prelude.{◌≡◌, ◌≤◌, ◌<◌, ◌++◌, OnOk, length, Option};
ghost use Rattle.mega_picture.specs.Pages.{line_number, number_text, number_at, line_numbers, name_text, kind_text, name_at, lane_names, names_at, all_names, is_of_client, has_clients, clients, group_text, groups_from, writing};

use crate::item_line::ItemLine;
use crate::kinds::node_word;
use crate::sheet::{NAMED, Sheet, step};
use mega_base::{Bytes, NoMemory, NodeKind};
use mega_transcript::Item;
use std::alloc::Global;

/// After how many lines the number of one is told.
const NUMBERED: u64 = 5;

/// How far the names of lanes stand above a step.
const ABOVE: u64 = 17;

/// How far two lines below the lanes are apart.
const APART: u64 = 22;

fn put_number_text(alloc: Global, out: &mut Bytes, y: u64, number: u64) -> Result<(), NoMemory>
    ensures { OnOk result (out.new ≡ out.old ++ number_text y number) }
{
    let text = format!(in alloc; "<text class=\"n\" x=\"46\" y=\"{y}\">{number}</text>\n")?;
    out.extend_from_slice(text.as_bytes())
}

/// Writes the number of the line in a row, where it is a fifth one.
#[tactic(auto, unfolding(crate::specs::Pages::number_at))]
fn put_number(alloc: Global, out: &mut Bytes, first: u64, row: u32) -> Result<(), NoMemory>
    ensures { OnOk result (out.new ≡ out.old ++ number_at first row) }
{
    let number = first.saturating_add(u64::from(row));
    if number % NUMBERED == 0 {
        put_number_text(alloc, out, step(row) + 3, number)
    } else {
        Ok(())
    }
}

/// Writes the numbers of lines, of every fifth one.
#[tactic(auto, using(crate::proofs::Paging::numbers_on))]
fn put_numbers(alloc: Global, out: &mut Bytes, sheet: Sheet, first: u64) -> Result<(), NoMemory>
    ensures { OnOk result (out.new ≡ out.old ++ line_numbers sheet first) }
{
    for row in 0..sheet.steps {
        put_number(alloc, out, first, row)?;
    }
    Ok(())
}

fn put_name_text(
    alloc: Global,
    out: &mut Bytes,
    x: u64,
    y: u64,
    node: u8,
    word: &str,
) -> Result<(), NoMemory>
    ensures { OnOk result (out.new ≡ out.old ++ name_text x y node word.now) }
{
    let text = format!(in alloc;
        "<text class=\"name\" x=\"{x}\" y=\"{y}\">{node} {word}</text>\n"
    )?;
    out.extend_from_slice(text.as_bytes())
}

/// Writes the name of a lane, counted from 0, of a node of this kind.
fn put_kind(
    alloc: Global,
    out: &mut Bytes,
    sheet: Sheet,
    y: u64,
    index: u8,
    kind: Option<NodeKind>,
) -> Result<(), NoMemory>
    requires { index < 255 }
    ensures { OnOk result (out.new ≡ out.old ++ kind_text sheet y index kind) }
{
    match kind {
        Some(kind) => {
            let node = index + 1;
            put_name_text(alloc, out, sheet.lane(node), y, node, node_word(kind))
        }
        None => Ok(()),
    }
}

/// Writes the name of a lane, counted from 0, at a height.
#[tactic(auto, unfolding(crate::specs::Pages::name_at))]
fn put_name(
    alloc: Global,
    out: &mut Bytes,
    sheet: Sheet,
    nodes: &[NodeKind],
    y: u64,
    index: u8,
) -> Result<(), NoMemory>
    requires { index < 255 }
    ensures { OnOk result (out.new ≡ out.old ++ name_at sheet nodes.now y index) }
{
    let kind = nodes.get(usize::from(index)).copied();
    put_kind(alloc, out, sheet, y, index, kind)
}

/// Writes the names of all lanes at a height.
#[tactic(auto, using(crate::proofs::Paging::names_on))]
fn put_names(
    alloc: Global,
    out: &mut Bytes,
    sheet: Sheet,
    nodes: &[NodeKind],
    y: u64,
) -> Result<(), NoMemory>
    ensures { OnOk result (out.new ≡ out.old ++ lane_names sheet nodes.now y) }
{
    for index in 0..sheet.nodes {
        put_name(alloc, out, sheet, nodes, y, index)?;
    }
    Ok(())
}

/// Writes the names of the lanes above a step that has them.
#[tactic(auto, unfolding(crate::specs::Pages::names_at))]
fn put_names_at(
    alloc: Global,
    out: &mut Bytes,
    sheet: Sheet,
    nodes: &[NodeKind],
    row: u32,
) -> Result<(), NoMemory>
    ensures { OnOk result (out.new ≡ out.old ++ names_at sheet nodes.now row) }
{
    if row % NAMED == 0 {
        put_names(alloc, out, sheet, nodes, step(row).saturating_sub(ABOVE))
    } else {
        Ok(())
    }
}

/// Writes the names of the lanes above the first step and above every fortieth.
#[tactic(auto, using(crate::proofs::Paging::all_names_on))]
fn put_all_names(
    alloc: Global,
    out: &mut Bytes,
    sheet: Sheet,
    nodes: &[NodeKind],
) -> Result<(), NoMemory>
    ensures { OnOk result (out.new ≡ out.old ++ all_names sheet nodes.now) }
{
    for row in 0..sheet.steps.max(1) {
        put_names_at(alloc, out, sheet, nodes, row)?;
    }
    Ok(())
}

/// Whether a message comes from a client or goes to one.
fn is_of_client(item: &Item) -> bool
    ensures { result ≡ is_of_client item.now }
{
    match item {
        Item::Sent { message, .. } => message.from == 0 || message.to == 0,
        _ => false,
    }
}

/// Whether some message comes from a client or goes to one.
#[tactic(auto, using(crate::proofs::Paging::client_on, crate::proofs::Paging::client_here, crate::proofs::Paging::client_none))]
fn has_clients(told: &[ItemLine]) -> bool
    ensures { result ≡ has_clients told.now }
{
    for one in told {
        if is_of_client(&one.item) {
            return true;
        }
    }
    false
}

/// Writes the name of the lane of clients, where some message is of one.
#[tactic(auto, unfolding(crate::specs::Pages::clients))]
fn put_clients(out: &mut Bytes, told: &[ItemLine]) -> Result<(), NoMemory>
    ensures { OnOk result (out.new ≡ out.old ++ clients told.now) }
{
    if has_clients(told) {
        out.extend_from_slice(b"<text class=\"name\" x=\"66\" y=\"49\">clients</text>\n")
    } else {
        Ok(())
    }
}

/// Writes which group a number stands for.
#[tactic(auto, unfolding(crate::specs::Pages::group_text))]
fn put_group(
    alloc: Global,
    out: &mut Bytes,
    sheet: Sheet,
    number: u32,
    key: &[u8],
) -> Result<(), NoMemory>
    ensures { OnOk result (out.new ≡ out.old ++ group_text sheet number key.now) }
{
    let y = sheet.foot() + u64::from(number) * APART;
    let key = hex::encode(alloc, key)?;
    let text = format!(in alloc; "<text x=\"66\" y=\"{y}\">g{number} {key}</text>\n")?;
    out.extend_from_slice(text.as_bytes())
}

/// Writes which group each number stands for, below the lanes.
#[tactic(auto, using(crate::proofs::Paging::groups_on))]
fn put_groups(alloc: Global, out: &mut Bytes, sheet: Sheet, keys: &[Bytes]) -> Result<(), NoMemory>
    requires { length keys.now ≤ 4000 }
    ensures { OnOk result (out.new ≡ out.old ++ groups_from sheet 0 keys.now) }
{
    for (index, key) in keys.iter().enumerate() {
        put_group(alloc, out, sheet, index as u32 + 1, key.as_slice())?;
    }
    Ok(())
}

/// Writes what stands around a drawing. `first` is the number of the first line.
#[tactic(auto, unfolding(crate::specs::Pages::writing))]
pub fn put_writing(
    alloc: Global,
    out: &mut Bytes,
    sheet: Sheet,
    keys: &[Bytes],
    nodes: &[NodeKind],
    first: u64,
    told: &[ItemLine],
) -> Result<(), NoMemory>
    requires { length keys.now ≤ 4000 }
    ensures { OnOk result (out.new ≡ out.old ++ writing sheet keys.now nodes.now first told.now) }
{
    put_numbers(alloc, out, sheet, first)?;
    put_all_names(alloc, out, sheet, nodes)?;
    put_clients(out, told)?;
    put_groups(alloc, out, sheet, keys)
}
