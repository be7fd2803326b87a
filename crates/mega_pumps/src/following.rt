//! A digest is kept from pick to pick.
ghost use Rattle.std.specs.Prelude.{◌≡◌, ◌≤◌, ℕ, false, OnOk};
ghost use Rattle.mega_base.specs.declared.names.GroupId.{GroupId as Group};
ghost use Rattle.mega_queues.specs.Followed.{Represents};
ghost use Rattle.mega_replica.specs.Following.{Follows, progress_at};
ghost use Rattle.mega_rules.specs.Logs.{groups_of, log_of, prefix_of};
ghost use Rattle.mega_rules.specs.Met.{Met};
ghost use Rattle.mega_voter.specs.Telling.{Tells};
ghost use Rattle.mega_pumps.specs.Reach.{applied_fronts};
ghost use Rattle.mega_pumps.specs.Notes.{HasNoted, Notes};

use crate::digest::Digest;
use crate::through::through_of;
use mega_base::{GroupId, NoMemory};
use mega_disk::{Records, Versions};
use mega_replica::StoredRows;
use mega_voter::Voter;
use std::alloc::Global;

impl Digest {
    /// Whether more is noted of one of these groups than is applied.
    fn is_ahead<R: Records, V: Versions>(
        &self,
        voter: &Voter<R>,
        rows: &StoredRows<V>,
        groups: &[GroupId],
    ) -> bool
        ensures { (met : _) (stored : Group → ℕ) → Tells voter.now.logs.kept met → Follows (V.version rows.now.rows) (progress_at rows.now.progress) (log_of met) stored →
            HasNoted voter.now.logs.kept self.now → groups.now ≡ groups_of met → result ≡ false → Notes (log_of met) stored self.now }
    {
        for group in groups {
            let applied = rows.applied(group, &voter.logs).0;
            if applied < through_of(&self.through, group) {
                return true;
            }
        }
        false
    }

    /// Begins anew where more is noted than is applied, which no node comes to: what its rows stored stays.
    fn begin_if_ahead<R: Records, V: Versions>(
        &mut self,
        alloc: Global,
        voter: &Voter<R>,
        rows: &StoredRows<V>,
        groups: &[GroupId],
    )
        ensures { (met : _) (stored : Group → ℕ) → Tells voter.now.logs.kept met → Follows (V.version rows.now.rows) (progress_at rows.now.progress) (log_of met) stored →
            HasNoted voter.now.logs.kept self.old → groups.now ≡ groups_of met → Notes (log_of met) stored self.new }
    {
        if self.is_ahead(voter, rows, groups) {
            *self = Digest::new(alloc);
        }
    }

    /// Notes what was applied since the last pick, where these are the groups with a decided position. After a refusal, which
    /// is for want of memory alone, make a new digest.
    pub fn follow<R: Records, V: Versions>(
        &mut self,
        alloc: Global,
        voter: &Voter<R>,
        rows: &StoredRows<V>,
        groups: &[GroupId],
    ) -> Result<(), NoMemory>
        ensures noted { OnOk result ((met : _) (stored : Group → ℕ) → Tells voter.now.logs.kept met → Follows (V.version rows.now.rows) (progress_at rows.now.progress) (log_of met) stored →
            HasNoted voter.now.logs.kept self.old → groups.now ≡ groups_of met → HasNoted voter.now.logs.kept self.new) }
        ensures applied { OnOk result ((met : _) (stored : Group → ℕ) → Tells voter.now.logs.kept met → Follows (V.version rows.now.rows) (progress_at rows.now.progress) (log_of met) stored →
            HasNoted voter.now.logs.kept self.old → groups.now ≡ groups_of met → Represents (applied_fronts (log_of met) stored) self.new.queues) }
    {
        self.begin_if_ahead(alloc, voter, rows, groups);
        self.catch_up(alloc, voter, rows, groups)?;
        Ok(())
    }

    /// Notes what a group's log has through a position, where that is not noted.
    pub fn note_through<R: Records>(
        &mut self,
        alloc: Global,
        voter: &Voter<R>,
        group: &GroupId,
        through: u64,
    ) -> Result<(), NoMemory>
        ensures { OnOk result ((met : _) → Tells voter.now.logs.kept met → through ≤ prefix_of met group.now → HasNoted voter.now.logs.kept self.old → HasNoted voter.now.logs.kept self.new) }
    {
        if through <= through_of(&self.through, group) {
            return Ok(());
        }
        self.catch_up_in(alloc, voter, group, through)?;
        Ok(())
    }
}
