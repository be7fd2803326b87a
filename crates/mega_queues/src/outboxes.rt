//! What each group's log sent and was not yet entered when last looked at.
ghost use Rattle.std.specs.Prelude.{◌≡◌, ◌++◌, filter, IsSome, OnOk, if◌then◌else◌};
ghost use Rattle.std.specs.BTreeMap.{get};
ghost use Rattle.mega_base.specs.declared.names.GroupId.{GroupId as Group};
ghost use Rattle.mega_wal.specs.History.{group_cmp};
ghost use Rattle.mega_wal.specs.Kept.{is_group};
ghost use Rattle.mega_rules.specs.Queues.{posted};
ghost use Rattle.mega_queues.specs.Boxes.{awaits, is_first_shed, mail_at, sent_at, Sheds};

use crate::mailboxes::Mailboxes;
use crate::names::is_known;
use crate::posted::{Posted, post_all};
use mega_base::{Copied, GroupId, NoMemory, Position};
use mega_entry::{Content, Enter};
use std::alloc::Global;
use std::collections::BTreeMap;

/// The outbox of each group that has one; one that has none sent nothing that waits.
pub type Outboxes = BTreeMap<GroupId, Vec<Posted>>;

/// Makes room for what a group sends.
fn open(alloc: Global, outboxes: &mut Outboxes, group: &GroupId) -> Result<(), NoMemory>
    ensures same { (other : Group) → sent_at outboxes.new other ≡ sent_at outboxes.old other }
    ensures there { OnOk result (IsSome (get group_cmp outboxes.new group.now)) }
{
    if outboxes.contains_key(group) {
        return Ok(());
    }
    let own = group.copy(alloc)?;
    outboxes.insert(own, Vec::new(alloc))?;
    Ok(())
}

fn post_there(
    alloc: Global,
    outboxes: &mut Outboxes,
    group: &GroupId,
    position: Position,
    entry: &Content,
) -> Result<(), NoMemory>
    requires { IsSome (get group_cmp outboxes.old group.now) }
    ensures { OnOk result ((other : Group) → sent_at outboxes.new other ≡ (if is_group group.now other then sent_at outboxes.old group.now ++ posted group.now position.0 0 entry.now.sends else sent_at outboxes.old other)) }
{
    match outboxes.get_mut(group) {
        Some(own) => {
            post_all(alloc, own, group, position, entry.sends.as_slice())?;
            Ok(())
        }
        None => Ok(()),
    }
}

/// Takes in the sends of the entry at a position of a group's log.
pub fn note_sends(
    alloc: Global,
    outboxes: &mut Outboxes,
    group: &GroupId,
    position: Position,
    entry: &Content,
) -> Result<(), NoMemory>
    ensures { OnOk result ((other : Group) → sent_at outboxes.new other ≡ (if is_group group.now other then sent_at outboxes.old group.now ++ posted group.now position.0 0 entry.now.sends else sent_at outboxes.old other)) }
{
    open(alloc, outboxes, group)?;
    post_there(alloc, outboxes, group, position, entry)?;
    Ok(())
}

/// Whether a message is not entered in its receiver's log.
pub fn awaits(boxes: &Mailboxes, one: &Posted) -> bool
    ensures { result ≡ awaits boxes.now one.now }
{
    match boxes.get(&one.to) {
        Some(own) => !is_known(&own.entered, &one.message.name),
        None => true,
    }
}

/// Takes the messages out that are entered.
fn forget_all(outbox: &mut Vec<Posted>, boxes: &Mailboxes)
    ensures { outbox.new.items ≡ filter (awaits boxes.now) outbox.old.items }
{
    outbox.retain(|one| awaits(boxes, one));
}

/// Whether of the first two messages only the first is entered, as is usual: pumps enter the oldest first.
fn is_first_entered(outbox: &[Posted], boxes: &Mailboxes) -> bool
    ensures { result ≡ is_first_shed (awaits boxes.now) outbox.now }
{
    match outbox {
        [] => false,
        [first] => !awaits(boxes, first),
        [first, next, ..] => !awaits(boxes, first) && awaits(boxes, next),
    }
}

/// Takes messages out that are entered: the first alone where the next one is not entered, and else all.
fn forget(outbox: &mut Vec<Posted>, boxes: &Mailboxes)
    ensures { filter (awaits boxes.now) outbox.new.items ≡ filter (awaits boxes.now) outbox.old.items }
{
    if is_first_entered(outbox.as_slice(), boxes) {
        outbox.remove(0);
        return;
    }
    forget_all(outbox, boxes);
}

/// Takes messages of a sender out that are entered.
fn forget_of(outboxes: &mut Outboxes, group: &GroupId, boxes: &Mailboxes)
    ensures { Sheds (awaits boxes.now) outboxes.old outboxes.new }
{
    match outboxes.get_mut(group) {
        Some(own) => forget(own, boxes),
        None => {}
    }
}

/// Takes messages out that are entered, of the senders of these.
pub fn forget_senders(outboxes: &mut Outboxes, enters: &[Enter], boxes: &Mailboxes)
    ensures { Sheds (awaits boxes.now) outboxes.old outboxes.new }
{
    for enter in enters {
        forget_of(outboxes, &enter.name.group, boxes);
    }
}
