//! What a step gives out, where each item and each message has a spelling.
ghost use Rattle.std.specs.Prelude.{◌≡◌, ◌≢◌, ◌++◌, ◌∷◌, [], All, IsTrue, IfOk, Err};
ghost use Rattle.mega_wire.specs.Messages.{IsMessage};
ghost use Rattle.mega_transcript.specs.Lines.{HasLine};
ghost use Rattle.mega_server.specs.Forming.{notes_shown};

use mega_base::Items;
use mega_durable::item_of;
use mega_durable::mega_core::mega_step_parts::{Note, Step};
use mega_serve::{Made, NodeFault};
use mega_transcript::Item;
use mega_well_formed::{is_entry, is_message};
use mega_wire::Message;
use std::alloc::Global;

/// Whether an item has a line.
fn has_line(item: &Item) -> bool
    ensures { IsTrue result → HasLine item.now }
{
    match item {
        Item::Unsent { message, .. } => is_message(message),
        Item::Sent { message, .. } => is_message(message),
        Item::Decide { entry, .. } => is_entry(entry),
        _ => true,
    }
}

/// Whether all messages have a spelling.
fn are_messages(messages: &[Message]) -> bool
    ensures { IsTrue result → All IsMessage messages.now }
{
    for message in messages {
        if !is_message(message) {
            return false;
        }
    }
    true
}

/// The items that show what a node notes, where each has a line.
pub fn items_of(alloc: Global, me: u8, notes: Items<Note>) -> Result<Items<Item>, NodeFault>
    ensures shown { IfOk result (λ items. items ≡ notes_shown me notes) }
    ensures lines { IfOk result (λ items. All HasLine items) }
    ensures failed { result ≢ Err NodeFault.DiskFault }
    ensures full { (n : _) → result ≢ Err (NodeFault.Full n) }
{
    let mut items = Items::new(alloc);
    for note in notes.into_vec() {
        let item = item_of(me, note);
        if !has_line(&item) {
            return Err(NodeFault::Unformed);
        }
        match items.push(item) {
            Ok(()) => {}
            Err(_) => return Err(NodeFault::NoMemory),
        }
    }
    Ok(items)
}

/// What a step shows and sends, where each of it has a spelling.
pub(crate) fn formed(alloc: Global, me: u8, step: Step) -> Result<Made, NodeFault>
    ensures items { IfOk result (λ made. made.items ≡ notes_shown me step.notes) }
    ensures sends { IfOk result (λ made. made.sends ≡ step.sends) }
    ensures lines { IfOk result (λ made. All HasLine made.items) }
    ensures messages { IfOk result (λ made. All IsMessage made.sends) }
    ensures failed { result ≢ Err NodeFault.DiskFault }
    ensures full { (n : _) → result ≢ Err (NodeFault.Full n) }
{
    let Step { notes, sends } = step;
    if !are_messages(sends.as_slice()) {
        return Err(NodeFault::Unformed);
    }
    match items_of(alloc, me, notes) {
        Ok(items) => Ok(Made { items, sends }),
        Err(fault) => {
            drop(sends);
            Err(fault)
        }
    }
}
