//! Which message a pump enters next, and in which group it handles one next.
ghost use Rattle.std.specs.Prelude.{◌≡◌, find, flat_map};
ghost use Rattle.std.specs.Option.{option_copied};
ghost use Rattle.mega_queues.specs.Mail.{first_of};
ghost use Rattle.mega_queues.specs.Boxes.{mail_at, sent_at};
ghost use Rattle.mega_queues.specs.Picks.{can_enter, has_mail};

use crate::mailboxes::Mailboxes;
use crate::outboxes::{Outboxes, awaits};
use crate::posted::Posted;
use crate::short::is_short;
use mega_base::{GroupId, OpId};
use mega_entry::{Enter, Name};

/// Whether a message is not entered, and its enter entry is short enough.
fn can_enter(op: OpId, boxes: &Mailboxes, one: &Posted) -> bool
    ensures { result ≡ can_enter op boxes.now one.now }
{
    awaits(boxes, one) && is_short(op, &one.message)
}

/// The first message of an outbox that can be entered.
fn first_of_box<'a>(op: OpId, boxes: &Mailboxes, outbox: &'a [Posted]) -> Option<&'a Posted>
    ensures { option_copied result ≡ find (can_enter op boxes.now) outbox.now }
{
    outbox.iter().find(|one| can_enter(op, boxes, *one))
}

/// The first message of a sender that can be entered.
fn first_of_sender<'a>(
    op: OpId,
    boxes: &Mailboxes,
    outboxes: &'a Outboxes,
    group: &GroupId,
) -> Option<&'a Posted>
    ensures { option_copied result ≡ find (can_enter op boxes.now) (sent_at outboxes.now group.now) }
{
    match outboxes.get(group) {
        Some(own) => first_of_box(op, boxes, own.as_slice()),
        None => None,
    }
}

/// The first message of these senders, one after another, that can be entered.
pub fn next_to_enter<'a>(
    op: OpId,
    boxes: &Mailboxes,
    outboxes: &'a Outboxes,
    groups: &[GroupId],
) -> Option<&'a Posted>
    ensures { option_copied result ≡ find (can_enter op boxes.now) (flat_map (sent_at outboxes.now) groups.now) }
{
    for group in groups {
        match first_of_sender(op, boxes, outboxes, group) {
            Some(found) => return Some(found),
            None => {}
        }
    }
    None
}

/// The oldest message that is entered in a group and not handled.
pub fn oldest_unhandled<'a>(boxes: &'a Mailboxes, group: &GroupId) -> Option<&'a Enter>
    ensures { option_copied result ≡ first_of (mail_at boxes.now group.now).waiting }
{
    match boxes.get(group) {
        Some(own) => own.oldest_unhandled(),
        None => None,
    }
}

/// Whether a message is entered in a group.
pub fn is_entered(boxes: &Mailboxes, group: &GroupId, name: &Name) -> bool
    ensures { result ≡ (mail_at boxes.now group.now).entered name.now }
{
    match boxes.get(group) {
        Some(own) => own.is_entered(name),
        None => false,
    }
}

/// Whether a group has a message that is entered and not handled.
fn has_mail(boxes: &Mailboxes, group: &GroupId) -> bool
    ensures { result ≡ has_mail boxes.now group.now }
{
    oldest_unhandled(boxes, group).is_some()
}

/// The first of these groups that has a message that is entered and not handled.
pub fn next_to_handle<'a>(boxes: &Mailboxes, groups: &'a [GroupId]) -> Option<&'a GroupId>
    ensures { option_copied result ≡ find (has_mail boxes.now) groups.now }
{
    groups.iter().find(|group| has_mail(boxes, *group))
}
