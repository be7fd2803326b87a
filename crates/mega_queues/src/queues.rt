//! The queues of a node: what is on its way between its logs, and which message or group a pump picks.
ghost use Rattle.std.specs.Prelude.{◌≡◌, suc, length, [], OnOk};
ghost use Rattle.std.specs.Option.{option_copied};
ghost use Rattle.mega_rules.specs.Queues.{is_named, names_entered, next_to_enter, next_to_handle, oldest_unhandled};
ghost use Rattle.mega_queues.specs.Boxes.{AreAll, Logs, logs_of, noted};
ghost use Rattle.mega_queues.specs.Followed.{Represents};

use crate::mailboxes::{Mailboxes, note_mail};
use crate::outboxes::{Outboxes, forget_senders, note_sends};
use crate::picks;
use crate::posted::Posted;
use mega_base::{GroupId, NoMemory, OpId, Position};
use mega_entry::{Content, Enter, Name};
use std::alloc::Global;
use std::collections::BTreeMap;

/// What the applied logs of a node sent, entered and handled, kept up entry by entry, so that a pick looks at
/// what waits and not at the logs. Contracts speak of the logs that it was told.
#[derive(Drop)]
pub struct Queues {
    alloc: Global,
    /// What each log entered and handled.
    pub mailboxes: Mailboxes,
    /// What each log sent, without messages that are entered.
    pub outboxes: Outboxes,
}

impl Queues {
    /// Of logs with no entries.
    pub fn new(alloc: Global) -> Queues
        ensures { Represents (λ group. []) result }
    {
        let mailboxes = BTreeMap::new(alloc);
        let outboxes = BTreeMap::new(alloc);
        Queues {
            alloc,
            mailboxes,
            outboxes,
        }
    }

    /// Takes in the next entry of a group's log, which stands at this position. After a refusal, which is for want
    /// of memory alone, the queues are to be made anew from the logs.
    pub fn note(
        &mut self,
        group: &GroupId,
        position: Position,
        entry: &Content,
    ) -> Result<(), NoMemory>
        ensures { OnOk result ((logs : Logs) → Represents logs self.old → position.0 ≡ suc (length (logs group.now)) → Represents (noted logs group.now entry.now) self.new) }
    {
        note_sends(self.alloc, &mut self.outboxes, group, position, entry)?;
        note_mail(self.alloc, &mut self.mailboxes, group, entry)?;
        forget_senders(&mut self.outboxes, entry.enters.as_slice(), &self.mailboxes);
        Ok(())
    }

    /// The message that a pump is to enter next, where these are the groups that have entries, in order of key: the
    /// first that waits, in the order of senders, positions and places.
    pub fn next_to_enter(&self, op: OpId, groups: &[GroupId]) -> Option<&Posted>
        ensures { (logs : Logs) → Represents logs self.now → AreAll logs groups.now → option_copied result ≡ next_to_enter op (logs_of logs groups.now) }
    {
        picks::next_to_enter(op, &self.mailboxes, &self.outboxes, groups)
    }

    /// The group in which a pump is to handle a message next, of these groups, in order of key.
    pub fn next_to_handle<'a>(&self, groups: &'a [GroupId]) -> Option<&'a GroupId>
        ensures { (logs : Logs) → Represents logs self.now → option_copied result ≡ next_to_handle (logs_of logs groups.now) }
    {
        picks::next_to_handle(&self.mailboxes, groups)
    }

    /// The oldest message that is entered in a group's log and not handled.
    pub fn oldest_unhandled(&self, group: &GroupId) -> Option<&Enter>
        ensures { (logs : Logs) → Represents logs self.now → option_copied result ≡ oldest_unhandled (logs group.now) }
    {
        picks::oldest_unhandled(&self.mailboxes, group)
    }

    /// Whether a message is entered in a group's log.
    pub fn is_entered(&self, group: &GroupId, name: &Name) -> bool
        ensures { (logs : Logs) → Represents logs self.now → result ≡ is_named name.now (names_entered (logs group.now)) }
    {
        picks::is_entered(&self.mailboxes, group, name)
    }
}
