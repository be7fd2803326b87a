//! What a log entered and handled through a position.
ghost use Rattle.std.specs.Prelude.{◌≡◌, ◌≤◌, take, IfOk};
ghost use Rattle.mega_queues.specs.Mail.{mail_of, seen};
ghost use Rattle.mega_rules.specs.Logs.{log_of, prefix_of};
ghost use Rattle.mega_rules.specs.Met.{Met};
ghost use Rattle.mega_voter.specs.Telling.{Tells};

use mega_base::{GroupId, NoMemory, Position};
use mega_disk::Records;
use mega_queues::Mailbox;
use mega_voter::Voter;
use std::alloc::Global;

/// What a group's log entered and handled through a position.
pub fn mailbox_at<R: Records>(
    alloc: Global,
    voter: &Voter<R>,
    group: &GroupId,
    through: u64,
) -> Result<Mailbox, NoMemory>
    ensures { IfOk result (λ mailbox. (met : _) → Tells voter.now.logs.kept met → through ≤ prefix_of met group.now → seen mailbox ≡ mail_of (take through (log_of met group.now))) }
{
    let mut mailbox = Mailbox::new(alloc);
    for count in 0..through {
        match voter.decided(group, Position(count + 1)) {
            Some(entry) => mailbox.note(alloc, entry.content())?,
            None => return Ok(mailbox),
        }
    }
    Ok(mailbox)
}
