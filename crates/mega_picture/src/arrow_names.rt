//! The numbers and kinds of messages, beside the beginnings of their arrows.
ghost use Rattle.std.specs.Prelude.{◌≡◌, ◌≤◌, ◌++◌, OnOk, length};
ghost use Rattle.mega_picture.specs.ArrowNames.{right_name, left_name, message_name, name_if, arrow_names};

use crate::item_line::ItemLine;
use crate::kinds::{kind_name, kind_of};
use crate::sheet::{Sheet, step};
use mega_base::{Bytes, NoMemory};
use mega_transcript::Item;
use mega_wire::Message;
use std::alloc::Global;

/// How far beside and above its arrow's beginning a name stands.
const BESIDE: u64 = 9;

const ABOVE: u64 = 5;

/// A name to the right of a point.
fn put_right(
    alloc: Global,
    out: &mut Bytes,
    x: u64,
    y: u64,
    number: u64,
    name: &str,
) -> Result<(), NoMemory>
    requires { x ≤ 100000 }
    ensures { OnOk result (out.new ≡ out.old ++ right_name x y number name.now) }
{
    let at = x + BESIDE;
    let text = format!(in alloc; "<text x=\"{at}\" y=\"{y}\">{number} {name}</text>")?;
    out.extend_from_slice(text.as_bytes())
}

/// A name to the left of a point.
fn put_left(
    alloc: Global,
    out: &mut Bytes,
    x: u64,
    y: u64,
    number: u64,
    name: &str,
) -> Result<(), NoMemory>
    ensures { OnOk result (out.new ≡ out.old ++ left_name x y number name.now) }
{
    let at = x.saturating_sub(BESIDE);
    let text = format!(in alloc; "<text class=\"e\" x=\"{at}\" y=\"{y}\">{number} {name}</text>")?;
    out.extend_from_slice(text.as_bytes())
}

/// Writes the number and kind of a message beside its arrow's beginning, on the side to which it goes.
#[tactic(auto, unfolding(crate::specs::ArrowNames::message_name))]
fn put_message_name(
    alloc: Global,
    out: &mut Bytes,
    sheet: Sheet,
    row: u32,
    number: u64,
    message: &Message,
) -> Result<(), NoMemory>
    ensures { OnOk result (out.new ≡ out.old ++ message_name sheet row number message.now) }
{
    let x = sheet.lane(message.from);
    let y = step(row).saturating_sub(ABOVE);
    let name = kind_name(kind_of(&message.body));
    if message.from < message.to {
        put_right(alloc, out, x, y, number, name)
    } else {
        put_left(alloc, out, x, y, number, name)
    }
}

/// Writes the name of the message that an item sends, where it sends one.
fn put_name(
    alloc: Global,
    out: &mut Bytes,
    sheet: Sheet,
    row: u32,
    item: &Item,
) -> Result<(), NoMemory>
    ensures { OnOk result (out.new ≡ out.old ++ name_if sheet row item.now) }
{
    match item {
        Item::Sent { number, message } => {
            put_message_name(alloc, out, sheet, row, *number, message)
        }
        _ => Ok(()),
    }
}

/// Writes the names of all messages.
#[tactic(auto, using(crate::proofs::Drawing::names_on))]
pub fn put_arrow_names(
    alloc: Global,
    out: &mut Bytes,
    sheet: Sheet,
    told: &[ItemLine],
) -> Result<(), NoMemory>
    requires { length told.now ≤ 4000 }
    ensures { OnOk result (out.new ≡ out.old ++ arrow_names sheet told.now) }
{
    for (index, one) in told.iter().enumerate() {
        put_name(alloc, out, sheet, index as u32, &one.item)?;
    }
    Ok(())
}
