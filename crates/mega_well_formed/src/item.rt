//! Whether what is staged may be written: each item is of its format.
ghost use Rattle.std.specs.Prelude.{◌≡◌, ◌↔◌, All, IsTrue};
ghost use Rattle.mega_base.specs.Codec.{IsNested};
ghost use Rattle.mega_base.specs.Names.{IsGroup, IsNode, IsPositionIn, IsEpoch};
ghost use Rattle.mega_ballot.specs.Ballots.{IsBallot};
ghost use Rattle.mega_entry.specs.Entries.{IsEntry, entry_text};
ghost use Rattle.mega_wal.specs.Items.{IsItem};

use crate::formed::Formed;
use mega_ballot::Ballot;
use mega_base::{Epoch, GroupId, NodeId, Position};
use mega_entry::Entry;
use mega_wal::JournalItem;

/// The greatest length of an entry's text, and of a group's key.
pub(crate) const LONGEST: usize = 65_536;

/// The greatest position of an item.
pub(crate) const LAST_POSITION: u64 = 1_000_000;

/// Whether an entry has a text of at most 65,536 bytes.
pub fn is_entry(entry: &Entry) -> bool
    ensures { IsTrue result ↔ IsNested 65536 entry_text IsEntry entry.now }
{
    entry.room_behind(LONGEST).is_some()
}

/// Whether an item may name a group and a position.
pub(crate) fn is_place(group: &GroupId, position: Position) -> bool
    ensures { IsTrue result ↔ (IsGroup group.now × IsPositionIn 1 1000000 position) }
{
    group.key.len() <= LONGEST && 1 <= position.0 && position.0 <= LAST_POSITION
}

/// Whether a ballot has a text: that of round 0 has no operation.
pub(crate) fn is_ballot(ballot: Ballot) -> bool
    ensures { IsTrue result ↔ IsBallot ballot }
{
    let op = ballot.op;
    ballot.round != 0 || (op.node.0 == 0 && op.start == 0 && op.number == 0)
}

/// Whether an item may name a node and an epoch.
fn is_lock(node: NodeId, epoch: Epoch) -> bool
    ensures { IsTrue result ↔ (IsNode node × IsEpoch epoch) }
{
    let _start = epoch.start;
    let _count = epoch.count;
    1 <= node.0 && node.0 <= 9
}

/// Whether an item may be written.
fn is_item(item: &JournalItem) -> bool
    ensures { IsTrue result ↔ IsItem item.now }
{
    match item {
        JournalItem::Start => true,
        JournalItem::Promise {
            group,
            position,
            ballot,
        } => is_place(group, *position) && is_ballot(*ballot),
        JournalItem::Accept {
            group,
            position,
            ballot,
            entry,
        } => is_place(group, *position) && is_ballot(*ballot) && is_entry(entry),
        JournalItem::Decide {
            group,
            position,
            entry,
        } => is_place(group, *position) && is_entry(entry),
        JournalItem::Grant { node, epoch } => is_lock(*node, *epoch),
        JournalItem::Lapse { node, epoch } => is_lock(*node, *epoch),
        JournalItem::Starts { starts } => {
            let _starts = *starts;
            true
        }
    }
}

/// Whether all items may be written in a record: each is of its format. The time is linear in the length of their text.
pub fn are_items(items: &[JournalItem]) -> bool
    ensures { IsTrue result ↔ All IsItem items.now }
{
    for item in items {
        if !is_item(item) {
            return false;
        }
    }
    true
}
