//! The items that say all that is kept, as one record for a replacement.
ghost use Rattle.std.specs.Prelude.{◌≡◌, ◌++◌, ◌∷◌, [], ◌<◌, ◌^◌, All, OnOk, IfOk, length, ◌&&◌, ◌||◌};
ghost use Rattle.std.specs.List.{flat_map};
ghost use Rattle.std.specs.List.Sorted.{IsStrictlySortedBy};
ghost use Rattle.std.specs.Ordering.{nat_cmp};
ghost use Rattle.std.specs.Map.{keys_of};
ghost use Rattle.mega_wal.specs.Compaction.{AreOrdered, IsOfFormat, IsOrderedKept, IsOrderedLog, compacted, decided_items, grant_items, log_items, promise_items, slot_items, vote_items};
ghost use Rattle.mega_wal.specs.Items.{IsItem, record_text};

use crate::groups::{Groups, Log};
use crate::item::JournalItem;
use crate::kept::{Grants, Kept};
use mega_acceptor::Slot;
use mega_acceptor::mega_ballot::Ballot;
use mega_acceptor::mega_entry::Entry;
use mega_base::{Bytes, Copied, Epoch, GroupId, Items, NoMemory, NodeId, Position, put_list};
use std::alloc::Global;

/// Adds the vote of a place.
fn add_vote(
    alloc: Global,
    items: &mut Vec<JournalItem>,
    group: &GroupId,
    at: u64,
    vote: &Option<(Ballot, Entry)>,
) -> Result<(), NoMemory>
    ensures { OnOk result (items.new.items ≡ items.old.items ++ vote_items group.now at vote.now) }
{
    match vote {
        Some((ballot, entry)) => {
            let item = JournalItem::Accept {
                group: group.copy(alloc)?,
                position: Position(at),
                ballot: *ballot,
                entry: entry.copy(alloc)?,
            };
            items.push(item)?;
            Ok(())
        }
        None => Ok(()),
    }
}

/// Adds the promise of a place, where it is above the vote.
fn add_promise(
    alloc: Global,
    items: &mut Vec<JournalItem>,
    group: &GroupId,
    at: u64,
    slot: &Slot,
) -> Result<(), NoMemory>
    ensures { OnOk result (items.new.items ≡ items.old.items ++ promise_items group.now at slot.now) }
{
    if slot.is_promise_above_vote() {
        let item = JournalItem::Promise {
            group: group.copy(alloc)?,
            position: Position(at),
            ballot: slot.promised,
        };
        items.push(item)?;
    }
    Ok(())
}

/// Adds the decision of a place.
fn add_decision(
    alloc: Global,
    items: &mut Vec<JournalItem>,
    group: &GroupId,
    at: u64,
    decided: &Option<Entry>,
) -> Result<(), NoMemory>
    ensures { OnOk result (items.new.items ≡ items.old.items ++ decided_items group.now at decided.now) }
{
    match decided {
        Some(entry) => {
            let item = JournalItem::Decide {
                group: group.copy(alloc)?,
                position: Position(at),
                entry: entry.copy(alloc)?,
            };
            items.push(item)?;
            Ok(())
        }
        None => Ok(()),
    }
}

/// Adds what is kept of a place.
fn add_slot(
    alloc: Global,
    items: &mut Vec<JournalItem>,
    group: &GroupId,
    at: u64,
    slot: &Slot,
) -> Result<(), NoMemory>
    ensures { OnOk result (items.new.items ≡ items.old.items ++ slot_items group.now (at, slot.now)) }
{
    add_vote(alloc, items, group, at, &slot.accepted)?;
    add_promise(alloc, items, group, at, slot)?;
    add_decision(alloc, items, group, at, &slot.decided)
}

/// Adds what is kept of a group, in order of position.
fn add_log(
    alloc: Global,
    items: &mut Vec<JournalItem>,
    group: &GroupId,
    log: &Log,
) -> Result<(), NoMemory>
    ensures items { OnOk result (items.new.items ≡ items.old.items ++ log_items (group.now, log.now)) }
    ensures ordered { OnOk result (IsOrderedLog log.now) }
{
    for (at, slot) in &log.slots {
        add_slot(alloc, items, group, *at, slot)?;
    }
    Ok(())
}

/// Adds what is kept of all groups, in order.
fn add_groups(alloc: Global, items: &mut Vec<JournalItem>, groups: &Groups) -> Result<(), NoMemory>
    ensures items { OnOk result (items.new.items ≡ items.old.items ++ flat_map log_items groups.now.entries) }
    ensures ordered { OnOk result (AreOrdered groups.now) }
{
    for (group, log) in groups {
        add_log(alloc, items, group, log)?;
    }
    Ok(())
}

/// Adds what was granted to a node.
fn add_grant(
    items: &mut Vec<JournalItem>,
    node: u8,
    epoch: Epoch,
    held: bool,
) -> Result<(), NoMemory>
    ensures { OnOk result (items.new.items ≡ items.old.items ++ grant_items (node, (epoch, held))) }
{
    let node = NodeId(node);
    items.push(JournalItem::Grant { node, epoch })?;
    if !held {
        items.push(JournalItem::Lapse { node, epoch })?;
    }
    Ok(())
}

/// Adds what was granted to all nodes, in order.
fn add_grants(items: &mut Vec<JournalItem>, grants: &Grants) -> Result<(), NoMemory>
    ensures items { OnOk result (items.new.items ≡ items.old.items ++ flat_map grant_items grants.now.entries) }
    ensures ordered { OnOk result (IsStrictlySortedBy nat_cmp (keys_of grants.now.entries)) }
{
    for (node, (epoch, held)) in grants {
        add_grant(items, *node, *epoch, *held)?;
    }
    Ok(())
}

/// The items that say what is kept, the oldest first.
pub fn compacted(alloc: Global, kept: &Kept) -> Result<Vec<JournalItem>, NoMemory>
    ensures items { IfOk result (λ items. items.items ≡ compacted kept.now) }
    ensures ordered { OnOk result (IsOrderedKept kept.now) }
{
    let mut items = Vec::new(alloc);
    let starts = JournalItem::Starts {
        starts: kept.starts,
    };
    items.push(starts)?;
    add_groups(alloc, &mut items, &kept.groups)?;
    add_grants(&mut items, &kept.granted)?;
    Ok(items)
}
