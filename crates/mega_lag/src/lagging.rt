//! The groups of which a node may not have applied all that is decided: a tick looks at these alone.
ghost use Rattle.std.specs.Prelude.{◌≡◌, ◌||◌, if◌then◌else◌, ℕ, List, false, map, flat_map, IfOk, OnOk};
ghost use Rattle.std.specs.BTreeSet.{IsOrdered, keys};
ghost use Rattle.mega_base.specs.declared.names.GroupId.{GroupId as Group};
ghost use Rattle.mega_wal.specs.History.{group_cmp};
ghost use Rattle.mega_wal.specs.Kept.{is_group};
ghost use Rattle.mega_rules.specs.Met.{Met};
ghost use Rattle.mega_replica.specs.Following.{progress_at};
ghost use Rattle.mega_step_parts.specs.Notes.{met_of};
ghost use Rattle.mega_step_parts.specs.Behind.{Keeps, is_behind};
ghost use Rattle.mega_step_parts.specs.Positions.{note_since};
ghost use Rattle.mega_lag.specs.Lagging.{is_watched, lags};

use mega_actions::Replica;
use mega_base::{Copied, GroupId, Items, NoMemory};
use mega_disk::{Records, Versions};
use mega_step_parts::{Before, Note, apply_notes};
use std::alloc::Global;
use std::collections::BTreeSet;

/// The groups that lag, in order.
pub(crate) fn copies(alloc: Global, lagging: &BTreeSet<GroupId>) -> Result<Items<GroupId>, NoMemory>
    ensures keys { IfOk result (λ groups. groups ≡ keys lagging.now) }
    ensures ordered { OnOk result (IsOrdered group_cmp lagging.now) }
{
    let mut groups = Items::new(alloc);
    for group in lagging {
        let one = group.copy(alloc)?;
        groups.push(one)?;
    }
    Ok(groups)
}

/// Whether not all of a group is applied that is decided.
fn is_behind<R: Records, V: Versions>(replica: &Replica<R, V>, group: &GroupId) -> bool
    ensures { (met : List Met) (stored : Group → ℕ) →
        Keeps replica.now.voter.logs.kept (V.version replica.now.rows.rows) (progress_at replica.now.rows.progress) met stored → result ≡ is_behind met stored group.now }
{
    let applied = replica.rows.applied(group, &replica.voter.logs);
    applied.0 < replica.voter.prefix(group).0
}

/// A group lags.
fn put(alloc: Global, lagging: &mut BTreeSet<GroupId>, group: &GroupId) -> Result<(), NoMemory>
    ensures { OnOk result ((other : Group) → lags lagging.new other ≡ (is_group group.now other || lags lagging.old other)) }
{
    let group = group.copy(alloc)?;
    lagging.insert(group)?;
    Ok(())
}

/// A group does not lag.
fn take_out(lagging: &mut BTreeSet<GroupId>, group: &GroupId)
    ensures { (other : Group) → lags lagging.new other ≡ (if is_group group.now other then false else lags lagging.old other) }
{
    lagging.remove(group);
}

/// A group lags where not all of it is applied that is decided, and not otherwise.
fn keep_one<R: Records, V: Versions>(
    alloc: Global,
    replica: &Replica<R, V>,
    lagging: &mut BTreeSet<GroupId>,
    group: &GroupId,
) -> Result<(), NoMemory>
    ensures { OnOk result ((met : List Met) (stored : Group → ℕ) →
        Keeps replica.now.voter.logs.kept (V.version replica.now.rows.rows) (progress_at replica.now.rows.progress) met stored →
        (other : Group) → lags lagging.new other ≡ (if is_group group.now other then is_behind met stored other else lags lagging.old other)) }
{
    if is_behind(replica, group) {
        put(alloc, lagging, group)?;
        return Ok(());
    }
    take_out(lagging, group);
    Ok(())
}

/// Of the groups that were watched those lag of which not all is applied that is decided; of all others those that did.
fn keep_lagging<R: Records, V: Versions>(
    alloc: Global,
    replica: &Replica<R, V>,
    lagging: &mut BTreeSet<GroupId>,
    before: &[Before],
) -> Result<(), NoMemory>
    ensures { OnOk result ((met : List Met) (stored : Group → ℕ) →
        Keeps replica.now.voter.logs.kept (V.version replica.now.rows.rows) (progress_at replica.now.rows.progress) met stored →
        (group : Group) → lags lagging.new group ≡ (if is_watched before.now group then is_behind met stored group else lags lagging.old group)) }
{
    for one in before {
        keep_one(alloc, replica, lagging, &one.group)?;
    }
    Ok(())
}

/// What is noted of the groups that were watched, in order; those lag from now on of which not all is applied.
pub fn notes_watched<R: Records, V: Versions>(
    alloc: Global,
    replica: &Replica<R, V>,
    lagging: &mut BTreeSet<GroupId>,
    before: Items<Before>,
) -> Result<Items<Note>, NoMemory>
    ensures notes { IfOk result (λ notes. (met : List Met) (stored : Group → ℕ) →
        Keeps replica.now.voter.logs.kept (V.version replica.now.rows.rows) (progress_at replica.now.rows.progress) met stored →
        map met_of notes ≡ flat_map (note_since met stored) before) }
    ensures lagging { OnOk result ((met : List Met) (stored : Group → ℕ) →
        Keeps replica.now.voter.logs.kept (V.version replica.now.rows.rows) (progress_at replica.now.rows.progress) met stored →
        (group : Group) → lags lagging.new group ≡ (if is_watched before group then is_behind met stored group else lags lagging.old group)) }
{
    keep_lagging(alloc, replica, lagging, before.as_slice())?;
    apply_notes(alloc, &replica.voter, &replica.rows, before)
}
