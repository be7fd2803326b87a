//! How far the logs of a node are applied.
ghost use Rattle.std.specs.Prelude.{◌≡◌, ◌++◌, ℕ, IfOk, OnOk};
ghost use Rattle.mega_base.specs.declared.names.GroupId.{GroupId as Group};
ghost use Rattle.mega_replica.specs.Following.{Follows, progress_at};
ghost use Rattle.mega_rules.specs.Acting.{applied_marks};
ghost use Rattle.mega_rules.specs.Logs.{groups_of, log_of};
ghost use Rattle.mega_rules.specs.Operations.{Now};
ghost use Rattle.mega_voter.specs.Telling.{Tells};
ghost use Rattle.mega_pumps.specs.Marks.{mark_if};

use mega_base::{Copied, GroupId, Items, NoMemory, Position};
use mega_disk::{Records, Versions};
use mega_outcome::Mark;
use mega_replica::StoredRows;
use mega_voter::Voter;
use std::alloc::Global;

/// Adds the mark of a group, where any of its entries are applied.
fn add_mark(
    alloc: Global,
    marks: &mut Items<Mark>,
    group: &GroupId,
    applied: u64,
) -> Result<(), NoMemory>
    ensures { OnOk result (marks.new ≡ marks.old ++ mark_if group.now applied) }
{
    if applied == 0 {
        return Ok(());
    }
    let group = group.copy(alloc)?;
    marks.push(Mark {
        group,
        position: Position(applied),
    })?;
    Ok(())
}

/// The positions through which logs are applied, of each of these groups that has such entries, where these are the groups with a
/// decided position.
pub fn applied_marks<R: Records, V: Versions>(
    alloc: Global,
    voter: &Voter<R>,
    rows: &StoredRows<V>,
    groups: &[GroupId],
) -> Result<Items<Mark>, NoMemory>
    ensures { IfOk result (λ marks. (now : Now) → Tells voter.now.logs.kept now.met → Follows (V.version rows.now.rows) (progress_at rows.now.progress) (log_of now.met) now.stored →
        groups.now ≡ groups_of now.met → marks ≡ applied_marks now) }
{
    let mut marks = Items::new(alloc);
    for group in groups {
        let applied = rows.applied(group, &voter.logs).0;
        add_mark(alloc, &mut marks, group, applied)?;
    }
    Ok(marks)
}
