//! The items of a tape: each holds what its types do, and so what is spelled of it is of bytes.
ghost use Rattle.std.specs.Prelude.{All};
ghost use Rattle.hex.specs.Hex.{IsBytes};
ghost use Rattle.mega_entry.specs.Entries.{IsEntry, entry_text};
ghost use Rattle.mega_wire.specs.Messages.{IsMessage, message_text};
ghost use Rattle.mega_transcript.specs.Lines.{HasLine};
ghost use Rattle.mega_field_ranges.specs.Held.{HoldsItem};
ghost use Rattle.mega_transcript.specs.PlainNames.{IsEpoch, IsGroup, IsNode, IsPosition, IsU8};

use crate::held::{Held, hold_both};
use mega_base::{Epoch, GroupId, NodeId, Position};
use mega_entry::Entry;
use mega_transcript::Item;
use mega_wire::Message;

/// The text of a message of the format is of bytes.
fn hold_message(message: &Message)
    requires { IsMessage message.now }
    ensures { IsBytes (message_text message.now) }
{
    message.body.hold();
}

/// The text of an entry of the format is of bytes.
fn hold_entry(entry: &Entry)
    requires { IsEntry entry.now }
    ensures { IsBytes (entry_text entry.now) }
{
    entry.hold();
}

/// A node, a cell and an epoch.
fn hold_lock(node: &NodeId, cell: &u8, epoch: &Epoch)
    ensures node { IsNode node.now }
    ensures cell { IsU8 cell.now }
    ensures epoch { IsEpoch epoch.now }
{
    node.hold();
    cell.hold();
    epoch.hold();
}

/// A node, a group and a position of it.
fn hold_place(node: &NodeId, group: &GroupId, position: &Position)
    ensures { IsNode node.now × (IsGroup group.now × IsPosition position.now) }
{
    node.hold();
    group.hold();
    position.hold();
}

/// An item that has a line holds what its types do.
fn hold_item(item: &Item)
    requires { HasLine item.now }
    ensures { HoldsItem item.now }
{
    match item {
        Item::Start { node, start } => hold_both(node, start),
        Item::Unsent { node, message } => {
            node.hold();
            hold_message(message);
        }
        Item::Tick { node, now } => hold_both(node, now),
        Item::Begin { op, .. } => op.hold(),
        Item::Taken { number } => number.hold(),
        Item::Dropped { number } => number.hold(),
        Item::Sent { number, message } => {
            number.hold();
            hold_message(message);
        }
        Item::Grant { cell, node, epoch } => hold_lock(node, cell, epoch),
        Item::Lapse { cell, node, epoch } => hold_lock(node, cell, epoch),
        Item::Counts { node, cell, epoch } => hold_lock(node, cell, epoch),
        Item::Forgets { node, cell, epoch } => hold_lock(node, cell, epoch),
        Item::Serving { node, epoch } => hold_both(node, epoch),
        Item::Lost { node, epoch } => hold_both(node, epoch),
        Item::Valid {
            node,
            group,
            position,
        } => hold_place(node, group, position),
        Item::Invalid {
            node,
            group,
            position,
        } => hold_place(node, group, position),
        Item::Decide {
            node,
            group,
            position,
            entry,
        } => {
            hold_place(node, group, position);
            hold_entry(entry);
        }
        Item::Apply {
            node,
            group,
            position,
        } => hold_place(node, group, position),
        Item::Answer { op, answer } => hold_both(op, answer),
        Item::Crash { node } => node.hold(),
        Item::Cut => {}
        Item::Unsafe => {}
    }
}

/// Items that have lines hold what their types do. They are read, and nothing else is done: no bytes are made.
pub fn hold(items: &[Item])
    requires { All HasLine items.now }
    ensures { All HoldsItem items.now }
{
    for item in items {
        hold_item(item);
    }
}
