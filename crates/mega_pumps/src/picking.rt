//! What a pump is to serve next.
ghost use Rattle.std.specs.Prelude.{◌≡◌, ℕ, Some, IfOk, OnOk};
ghost use Rattle.mega_base.specs.declared.names.GroupId.{GroupId as Group};
ghost use Rattle.mega_replica.specs.Following.{Follows, progress_at};
ghost use Rattle.mega_rules.specs.Acting.{applied_logs};
ghost use Rattle.mega_rules.specs.Logs.{groups_of, log_of};
ghost use Rattle.mega_rules.specs.Operations.{Now};
ghost use Rattle.mega_rules.specs.Queues.{next_to_enter, next_to_handle};
ghost use Rattle.mega_voter.specs.Telling.{Tells};
ghost use Rattle.mega_pumps.specs.Notes.{HasNoted};
ghost use Rattle.mega_pumps.specs.Picks.{picked_group, picked_message};

use crate::digest::Digest;
use mega_base::{Copied, GroupId, NoMemory, OpId};
use mega_disk::{Records, Versions};
use mega_entry::Enter;
use mega_queues::Posted;
use mega_replica::StoredRows;
use mega_voter::Voter;
use std::alloc::Global;

/// What a pump is to serve: a group, and the message that it is to enter there.
#[derive(Debug, Drop)]
pub struct Picked {
    pub group: GroupId,
    pub message: Option<Enter>,
}

/// What a pump is to do that enters this message.
fn to_enter(alloc: Global, posted: &Posted) -> Result<Picked, NoMemory>
    ensures { IfOk result (λ picked. Some picked ≡ picked_message (Some posted.now)) }
{
    let group = posted.to.copy(alloc)?;
    let message = posted.message.copy(alloc)?;
    Ok(Picked {
        group,
        message: Some(message),
    })
}

/// What a pump is to do that handles a message of this group.
fn to_handle(alloc: Global, group: &GroupId) -> Result<Picked, NoMemory>
    ensures { IfOk result (λ picked. Some picked ≡ picked_group (Some group.now)) }
{
    let group = group.copy(alloc)?;
    Ok(Picked {
        group,
        message: None,
    })
}

impl Digest {
    /// The message that a pump enters next, where these are the groups with a decided position.
    pub fn next_to_enter<R: Records, V: Versions>(
        &mut self,
        alloc: Global,
        voter: &Voter<R>,
        rows: &StoredRows<V>,
        op: OpId,
        groups: &[GroupId],
    ) -> Result<Option<Picked>, NoMemory>
        ensures picked { IfOk result (λ found. (now : Now) → Tells voter.now.logs.kept now.met → Follows (V.version rows.now.rows) (progress_at rows.now.progress) (log_of now.met) now.stored →
            HasNoted voter.now.logs.kept self.old → groups.now ≡ groups_of now.met → found ≡ picked_message (next_to_enter op (applied_logs now))) }
        ensures noted { OnOk result ((met : _) (stored : Group → ℕ) → Tells voter.now.logs.kept met → Follows (V.version rows.now.rows) (progress_at rows.now.progress) (log_of met) stored →
            HasNoted voter.now.logs.kept self.old → groups.now ≡ groups_of met → HasNoted voter.now.logs.kept self.new) }
    {
        self.follow(alloc, voter, rows, groups)?;
        match self.queues.next_to_enter(op, groups) {
            Some(posted) => {
                let picked = to_enter(alloc, posted)?;
                Ok(Some(picked))
            }
            None => Ok(None),
        }
    }

    /// The group in which a pump handles a message next, where these are the groups with a decided position.
    pub fn next_to_handle<R: Records, V: Versions>(
        &mut self,
        alloc: Global,
        voter: &Voter<R>,
        rows: &StoredRows<V>,
        groups: &[GroupId],
    ) -> Result<Option<Picked>, NoMemory>
        ensures picked { IfOk result (λ found. (now : Now) → Tells voter.now.logs.kept now.met → Follows (V.version rows.now.rows) (progress_at rows.now.progress) (log_of now.met) now.stored →
            HasNoted voter.now.logs.kept self.old → groups.now ≡ groups_of now.met → found ≡ picked_group (next_to_handle (applied_logs now))) }
        ensures noted { OnOk result ((met : _) (stored : Group → ℕ) → Tells voter.now.logs.kept met → Follows (V.version rows.now.rows) (progress_at rows.now.progress) (log_of met) stored →
            HasNoted voter.now.logs.kept self.old → groups.now ≡ groups_of met → HasNoted voter.now.logs.kept self.new) }
    {
        self.follow(alloc, voter, rows, groups)?;
        match self.queues.next_to_handle(groups) {
            Some(group) => {
                let picked = to_handle(alloc, group)?;
                Ok(Some(picked))
            }
            None => Ok(None),
        }
    }
}
