//! The arrows of messages: from where one is sent to where it is taken, dropped, or never comes.
ghost use Rattle.std.specs.Prelude.{◌≡◌, ◌≤◌, ℕ, List, length, Some};
ghost use Rattle.mega_picture.specs.declared.item_line.ItemLine.{ItemLine as ItemLineValue};
ghost use Rattle.mega_picture.specs.Rows.{Follows};
ghost use Rattle.mega_picture.specs.Arrows.{end_of, arrow_with, is_row, again_of, arrow_of};

use crate::item_line::ItemLine;
use crate::journeys::{Journeys, message_at};
use crate::kinds::position_of;
use mega_transcript::Item;
use mega_wire::Message;

/// How an arrow ends.
#[derive(Clone, Copy, Drop)]
pub enum End {
    /// In the row in which the message is first taken.
    Taken { row: u32 },
    /// In a cross, in the row in which it is dropped.
    Dropped { row: u32 },
    /// It fades out: the message is never taken.
    Fades,
    /// In a row in which the message is taken again: the arrow is thin.
    Again { row: u32 },
}

/// The arrow of a message, from the row in which it is sent. A position 0 is none.
#[derive(Clone, Copy, Drop)]
pub struct Arrow {
    pub position: u64,
    pub from: u8,
    pub to: u8,
    pub row: u32,
    pub end: End,
}

/// How the arrow of a message ends: where it is first taken, else where it is dropped, else it fades out.
fn end_of(journeys: &Journeys, number: u64) -> End
    ensures { (told : List ItemLineValue) → Follows journeys.now told → result ≡ end_of told number }
{
    if let Some(row) = journeys.taken(number) {
        return End::Taken { row };
    }
    match journeys.dropped(number) {
        Some(row) => End::Dropped { row },
        None => End::Fades,
    }
}

/// The arrow of a message with this end.
fn arrow_with(message: &Message, row: u32, end: End) -> Arrow
    ensures { result ≡ arrow_with message.now row end }
{
    Arrow {
        position: position_of(&message.body),
        from: message.from,
        to: message.to,
        row,
        end,
    }
}

/// Whether this row is the one.
fn is_row(first: Option<u32>, row: u32) -> bool
    ensures { result ≡ is_row first row }
{
    match first {
        Some(first) => first == row,
        None => false,
    }
}

/// The thin arrow of a message that is taken in a row, where that is not the first time.
fn again_of(journeys: &Journeys, told: &[ItemLine], row: u32, number: u64) -> Option<Arrow>
    requires { Follows journeys.now told.now }
    ensures { result ≡ again_of told.now row number }
{
    if is_row(journeys.taken(number), row) {
        return None;
    }
    let sent = journeys.sent(number);
    match (sent, message_at(told, sent)) {
        (Some(sent), Some(message)) => { Some(arrow_with(message, sent, End::Again { row })) }
        _ => None,
    }
}

/// The arrow that an item in a row has: a message that is sent has one, and one that is taken again a thin one.
pub fn arrow_of(journeys: &Journeys, told: &[ItemLine], row: u32, item: &Item) -> Option<Arrow>
    requires { Follows journeys.now told.now }
    ensures { result ≡ arrow_of told.now row item.now }
{
    match item {
        Item::Sent { number, message } => {
            Some(arrow_with(message, row, end_of(journeys, *number)))
        }
        Item::Taken { number } => again_of(journeys, told, row, *number),
        _ => None,
    }
}
