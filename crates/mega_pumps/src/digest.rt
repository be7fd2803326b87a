//! The queues of a node's applied logs, caught up before a pick.
ghost use Rattle.std.specs.Prelude.{◌≡◌, ◌≤◌, ℕ, OnOk, if◌then◌else◌};
ghost use Rattle.mega_base.specs.declared.names.GroupId.{GroupId as Group};
ghost use Rattle.mega_queues.specs.Boxes.{Logs};
ghost use Rattle.mega_queues.specs.Followed.{Represents};
ghost use Rattle.mega_replica.specs.Following.{Follows, progress_at};
ghost use Rattle.mega_rules.specs.Logs.{groups_of, log_of, prefix_of};
ghost use Rattle.mega_rules.specs.Met.{Met};
ghost use Rattle.mega_voter.specs.Telling.{Tells};
ghost use Rattle.mega_wal.specs.Kept.{is_group};
ghost use Rattle.mega_pumps.specs.Reach.{applied_fronts, fronts, through_at};
ghost use Rattle.mega_pumps.specs.Notes.{Notes};

use crate::noting::note_from;
use crate::through::{Through, set, through_of};
use mega_base::{GroupId, NoMemory};
use mega_disk::{Records, Versions};
use mega_queues::Queues;
use mega_replica::StoredRows;
use mega_voter::Voter;
use std::alloc::Global;
use std::collections::BTreeMap;

/// The queues of a node's logs as far as they are noted. Logs only grow, so what was noted stays, and a pick notes what was
/// applied since the last one.
#[derive(Drop)]
pub struct Digest {
    pub queues: Queues,
    pub through: Through,
}

impl Digest {
    /// Nothing is noted.
    pub fn new(alloc: Global) -> Digest
        ensures { (log : Logs) (stored : Group → ℕ) → Notes log stored result }
    {
        let queues = Queues::new(alloc);
        let through = BTreeMap::new(alloc);
        Digest { queues, through }
    }

    /// Notes what is applied of a group and not noted.
    pub(crate) fn catch_up_in<R: Records>(
        &mut self,
        alloc: Global,
        voter: &Voter<R>,
        group: &GroupId,
        applied: u64,
    ) -> Result<(), NoMemory>
        ensures through { OnOk result ((other : Group) → through_at self.new.through other ≡ (if is_group group.now other then applied else through_at self.old.through other)) }
        ensures queues { OnOk result ((met : _) → Tells voter.now.logs.kept met → through_at self.old.through group.now ≤ applied → applied ≤ prefix_of met group.now →
            Represents (fronts (log_of met) (through_at self.old.through)) self.old.queues → Represents (fronts (log_of met) (through_at self.new.through)) self.new.queues) }
    {
        let from = through_of(&self.through, group);
        if from == applied {
            return Ok(());
        }
        note_from(&mut self.queues, voter, group, from, applied)?;
        set(alloc, &mut self.through, group, applied)?;
        Ok(())
    }

    /// Notes all that is applied and not noted, where these are the groups with a decided position. After a refusal, which is
    /// for want of memory alone, make a new digest.
    pub fn catch_up<R: Records, V: Versions>(
        &mut self,
        alloc: Global,
        voter: &Voter<R>,
        rows: &StoredRows<V>,
        groups: &[GroupId],
    ) -> Result<(), NoMemory>
        ensures notes { OnOk result ((met : _) (stored : Group → ℕ) → Tells voter.now.logs.kept met → Follows (V.version rows.now.rows) (progress_at rows.now.progress) (log_of met) stored →
            Notes (log_of met) stored self.old → Notes (log_of met) stored self.new) }
        ensures applied { OnOk result ((met : _) (stored : Group → ℕ) → Tells voter.now.logs.kept met → Follows (V.version rows.now.rows) (progress_at rows.now.progress) (log_of met) stored →
            Notes (log_of met) stored self.old → groups.now ≡ groups_of met → Represents (applied_fronts (log_of met) stored) self.new.queues) }
    {
        for group in groups {
            let applied = rows.applied(group, &voter.logs).0;
            self.catch_up_in(alloc, voter, group, applied)?;
        }
        Ok(())
    }
}
