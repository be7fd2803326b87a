//! What each group's log entered and handled.
ghost use Rattle.std.specs.Prelude.{◌≡◌, IsSome, OnOk, if◌then◌else◌};
ghost use Rattle.std.specs.BTreeMap.{get};
ghost use Rattle.mega_base.specs.declared.names.GroupId.{GroupId as Group};
ghost use Rattle.mega_wal.specs.History.{group_cmp};
ghost use Rattle.mega_wal.specs.Kept.{is_group};
ghost use Rattle.mega_queues.specs.Mail.{with_entry};
ghost use Rattle.mega_queues.specs.Boxes.{mail_at};

use crate::mailbox::Mailbox;
use mega_base::{Copied, GroupId, NoMemory};
use mega_entry::Content;
use std::alloc::Global;
use std::collections::BTreeMap;

/// The mailbox of each group that has one; one that has none entered and handled nothing.
pub type Mailboxes = BTreeMap<GroupId, Mailbox>;

/// Makes room for the mail of a group.
fn open(alloc: Global, boxes: &mut Mailboxes, group: &GroupId) -> Result<(), NoMemory>
    ensures same { (other : Group) → mail_at boxes.new other ≡ mail_at boxes.old other }
    ensures there { OnOk result (IsSome (get group_cmp boxes.new group.now)) }
{
    if boxes.contains_key(group) {
        return Ok(());
    }
    let own = group.copy(alloc)?;
    boxes.insert(own, Mailbox::new(alloc))?;
    Ok(())
}

fn note_there(
    alloc: Global,
    boxes: &mut Mailboxes,
    group: &GroupId,
    entry: &Content,
) -> Result<(), NoMemory>
    requires { IsSome (get group_cmp boxes.old group.now) }
    ensures { OnOk result ((other : Group) → mail_at boxes.new other ≡ (if is_group group.now other then with_entry entry.now (mail_at boxes.old group.now) else mail_at boxes.old other)) }
{
    match boxes.get_mut(group) {
        Some(own) => {
            own.note(alloc, entry)?;
            Ok(())
        }
        None => Ok(()),
    }
}

/// Takes in the next entry of a group's log.
pub fn note_mail(
    alloc: Global,
    boxes: &mut Mailboxes,
    group: &GroupId,
    entry: &Content,
) -> Result<(), NoMemory>
    ensures { OnOk result ((other : Group) → mail_at boxes.new other ≡ (if is_group group.now other then with_entry entry.now (mail_at boxes.old group.now) else mail_at boxes.old other)) }
{
    open(alloc, boxes, group)?;
    note_there(alloc, boxes, group, entry)?;
    Ok(())
}
