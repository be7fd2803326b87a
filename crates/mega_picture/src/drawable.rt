//! Which items cannot be drawn.
ghost use Rattle.std.specs.Prelude.{◌≡◌, ◌≤◌, IfOk, length, List, if◌then◌else◌, Some, None};
ghost use Rattle.mega_picture.specs.declared.item_line.ItemLine.{ItemLine as ItemLineValue};
ghost use Rattle.mega_picture.specs.Rows.{Follows};
ghost use Rattle.mega_picture.specs.Flaws.{greatest_node, is_before, is_sent_before, message_flaw, flaw_at, flaw_of};

use crate::item_line::ItemLine;
use crate::journeys::Journeys;
use mega_base::NoMemory;
use mega_transcript::Item;
use std::alloc::Global;

/// Why the item in a row, counted from 0, cannot be drawn.
#[derive(Clone, Copy, Drop)]
pub enum Flaw {
    /// The message that it takes or drops was not sent before it.
    NotSent { row: u32, number: u64 },
    /// The message that it sends was sent before.
    SentBefore { row: u32, number: u64 },
    /// No lane is there for this node.
    NoNode { row: u32, node: u8 },
}

/// The greatest number of a node that an item names, 0 for none.
fn greatest_node(item: &Item) -> u8
    ensures { result ≡ greatest_node item.now }
{
    match item {
        Item::Start { node, .. } => node.0,
        Item::Unsent { node, .. } => node.0,
        Item::Tick { node, .. } => node.0,
        Item::Begin { op, .. } => op.node.0,
        Item::Taken { .. } => 0,
        Item::Dropped { .. } => 0,
        Item::Sent { message, .. } => message.from.max(message.to),
        Item::Grant { cell, node, .. } => (*cell).max(node.0),
        Item::Lapse { cell, node, .. } => (*cell).max(node.0),
        Item::Counts { node, .. } => node.0,
        Item::Forgets { node, .. } => node.0,
        Item::Serving { node, .. } => node.0,
        Item::Lost { node, .. } => node.0,
        Item::Valid { node, .. } => node.0,
        Item::Invalid { node, .. } => node.0,
        Item::Decide { node, .. } => node.0,
        Item::Apply { node, .. } => node.0,
        Item::Answer { op, .. } => op.node.0,
        Item::Crash { node } => node.0,
        Item::Cut => 0,
        Item::Unsafe => 0,
    }
}

fn is_before(first: Option<u32>, row: u32) -> bool
    ensures { result ≡ is_before first row }
{
    match first {
        Some(first) => first < row,
        None => false,
    }
}

/// A message that is taken or dropped in a row was sent before it.
fn unless_sent(is_sent: bool, row: u32, number: u64) -> Option<Flaw>
    ensures { result ≡ (if is_sent then None else Some (Flaw.NotSent row number)) }
{
    if is_sent {
        None
    } else {
        Some(Flaw::NotSent { row, number })
    }
}

/// A message that is sent in a row was not sent before it.
fn if_sent(is_sent: bool, row: u32, number: u64) -> Option<Flaw>
    ensures { result ≡ (if is_sent then Some (Flaw.SentBefore row number) else None) }
{
    if is_sent {
        Some(Flaw::SentBefore { row, number })
    } else {
        None
    }
}

/// Whether a message was sent before a row.
fn is_sent_before(journeys: &Journeys, number: u64, row: u32) -> bool
    ensures { (told : List ItemLineValue) → Follows journeys.now told → result ≡ is_sent_before told number row }
{
    is_before(journeys.sent(number), row)
}

/// Why the message of an item in a row cannot be drawn, if so.
fn message_flaw(journeys: &Journeys, row: u32, item: &Item) -> Option<Flaw>
    ensures { (told : List ItemLineValue) → Follows journeys.now told → result ≡ message_flaw told row item.now }
{
    match item {
        Item::Taken { number } => {
            unless_sent(is_sent_before(journeys, *number, row), row, *number)
        }
        Item::Dropped { number } => {
            unless_sent(is_sent_before(journeys, *number, row), row, *number)
        }
        Item::Sent { number, .. } => {
            if_sent(is_sent_before(journeys, *number, row), row, *number)
        }
        _ => None,
    }
}

/// Why the item in a row cannot be drawn, if so.
fn flaw_at(journeys: &Journeys, nodes: u8, row: u32, item: &Item) -> Option<Flaw>
    ensures { (told : List ItemLineValue) → Follows journeys.now told → result ≡ flaw_at told nodes row item.now }
{
    let node = greatest_node(item);
    if nodes < node {
        return Some(Flaw::NoNode { row, node });
    }
    message_flaw(journeys, row, item)
}

/// The first item that cannot be drawn with so many nodes, if there is one.
#[tactic(auto, using(crate::proofs::Flawing::flaw_on, crate::proofs::Flawing::flaw_here))]
pub fn flaw_of(alloc: Global, nodes: u8, told: &[ItemLine]) -> Result<Option<Flaw>, NoMemory>
    requires { length told.now ≤ 4000 }
    ensures { IfOk result (λ flaw. flaw ≡ flaw_of nodes told.now) }
{
    let journeys = Journeys::new(alloc, told)?;
    for (index, one) in told.iter().enumerate() {
        if let Some(flaw) = flaw_at(&journeys, nodes, index as u32, &one.item) {
            return Ok(Some(flaw));
        }
    }
    Ok(None)
}
