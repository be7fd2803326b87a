//! The entries of a group's log that are not noted yet.
ghost use Rattle.std.specs.Prelude.{◌≡◌, ◌≤◌, take, OnOk};
ghost use Rattle.mega_queues.specs.Boxes.{Logs};
ghost use Rattle.mega_queues.specs.Followed.{Represents};
ghost use Rattle.mega_rules.specs.Logs.{log_of, prefix_of};
ghost use Rattle.mega_rules.specs.Met.{Met};
ghost use Rattle.mega_voter.specs.Telling.{Tells};
ghost use Rattle.mega_pumps.specs.Reach.{with_log};

use mega_base::{GroupId, NoMemory, Position};
use mega_disk::Records;
use mega_queues::Queues;
use mega_voter::Voter;

/// Notes the entries of a group's log behind the first ones, through a position.
pub fn note_from<R: Records>(
    queues: &mut Queues,
    voter: &Voter<R>,
    group: &GroupId,
    from: u64,
    through: u64,
) -> Result<(), NoMemory>
    ensures { OnOk result ((met : _) (logs : Logs) → Tells voter.now.logs.kept met → from ≤ through → through ≤ prefix_of met group.now →
        Represents logs queues.old → logs group.now ≡ take from (log_of met group.now) →
        Represents (with_log logs group.now (take through (log_of met group.now))) queues.new) }
{
    for count in from..through {
        let position = Position(count + 1);
        match voter.decided(group, position) {
            Some(entry) => queues.note(group, position, entry.content())?,
            None => return Ok(()),
        }
    }
    Ok(())
}
