//! Stores the next writes of a group's decided prefix, each at the position of its entry.
ghost use Rattle.std.specs.Prelude.{◌≡◌, ◌⊎◌, ◌+◌, ◌<◌, ◌≤◌, ◌^◌, ◌∷◌, List, ℕ, max, drop, length, IfOk, OnOk, OnErr, Err};
ghost use Rattle.mega_base.specs.declared.names.GroupId.{GroupId as Group};
ghost use Rattle.mega_entry.specs.declared.content.Content.{Content};
ghost use Rattle.mega_disk.specs.VersionMaps.{Puts, SameVersions};
ghost use Rattle.mega_wal.specs.declared.item.JournalItem.{JournalItem as Item};
ghost use Rattle.mega_wal.specs.Kept.{Represents};
ghost use Rattle.mega_replica.specs.Applying.{writes_through, after_portion, after_read};
ghost use Rattle.mega_replica.specs.Stored.{GroupLogs, log_in, stored_with, Counts, Tells};
ghost use Rattle.mega_replica.specs.Following.{FollowsGroup, count_of};
ghost use Rattle.mega_replica.specs.Puts.{OnlyPuts};

use crate::progress::Progress;
use mega_base::{Copied, GroupId, NoMemory, Position, Row};
use mega_disk::{Records, StoreError, Versions};
use mega_entry::Write;
use mega_wal::Logs;
use std::alloc::Global;

/// A copy of a row, or of none.
fn copy_row(alloc: Global, row: &Option<Row>) -> Result<Option<Row>, NoMemory>
    ensures { IfOk result (λ made. made ≡ row.now) }
{
    match row {
        Some(row) => Ok(Some(row.copy(alloc)?)),
        None => Ok(None),
    }
}

/// Stores a write at a position.
fn store_write<V: Versions>(
    alloc: Global,
    rows: &mut V,
    at: Position,
    write: &Write,
) -> Result<(), StoreError>
    ensures put { OnOk result (Puts write.now.key at.0 write.now.row (V.version rows.old) (V.version rows.new)) }
    ensures left { OnErr result (SameVersions (V.version rows.old) (V.version rows.new)) }
    ensures memory { OnErr result (result ≡ Err StoreError.NoMemory) }
    ensures only { OnlyPuts V.Versions rows.old rows.new }
{
    let row = copy_row(alloc, &write.row)?;
    rows.put(alloc, &write.key, at, row)
}

/// Stores the next writes of the entry that follows these entries, at most so many, and gives how many more might have
/// been stored.
fn store_entry<V: Versions>(
    alloc: Global,
    rows: &mut V,
    entries: u64,
    writes: &[Write],
    stored: &mut u64,
    most: u64,
) -> Result<u64, StoreError>
    requires { entries + 1 < 2 ^ 64 }
    ensures tells { (group : Group) (log : GroupLogs) (counts : Counts) (entry : Content) (rest : List Content) →
        drop entries (log group) ≡ entry ∷ rest → entry.writes ≡ writes.now →
        Tells (V.version rows.old) log (stored_with counts group (writes_through entries (log group) + stored.old)) →
        Tells (V.version rows.new) log (stored_with counts group (writes_through entries (log group) + stored.new)) }
    ensures sum { IfOk result (λ left. stored.new + left ≡ stored.old + most) }
    ensures all { IfOk result (λ left. (left ≡ 0) ⊎ (length writes.now ≤ stored.new)) }
    ensures within { stored.new ≤ max stored.old (length writes.now) }
    ensures later { stored.old ≤ stored.new }
    ensures some { stored.new ≤ stored.old + most }
    ensures memory { OnErr result (result ≡ Err StoreError.NoMemory) }
    ensures only { OnlyPuts V.Versions rows.old rows.new }
{
    let mut left = most;
    for index in *stored..writes.len() as u64 {
        if left == 0 {
            return Ok(0);
        }
        store_write(alloc, rows, Position(entries + 1), &writes[index as usize])?;
        *stored += 1;
        left -= 1;
    }
    Ok(left)
}

/// Stores the next writes of a group's decided prefix, at most so many.
pub fn store_some<V: Versions, R: Records>(
    alloc: Global,
    rows: &mut V,
    progress: &mut Progress,
    group: &GroupId,
    logs: &Logs<R>,
    most: u64,
) -> Result<(), StoreError>
    ensures stands { (items : List Item) (log : GroupLogs) (counts : Counts) → Represents logs.now.kept items →
        log group.now ≡ log_in items group.now → FollowsGroup (V.version rows.old) group.now progress.old log counts →
        FollowsGroup (V.version rows.new) group.now progress.new log counts
        × (count_of progress.old (log group.now) ≤ count_of progress.new (log group.now))
        × (count_of progress.new (log group.now) ≤ after_portion most (log group.now) (count_of progress.old (log group.now))) }
    ensures all { OnOk result ((items : List Item) (log : GroupLogs) (counts : Counts) →
        Represents logs.now.kept items → log group.now ≡ log_in items group.now →
        FollowsGroup (V.version rows.old) group.now progress.old log counts →
        count_of progress.new (log group.now) ≡ after_portion most (log group.now) (count_of progress.old (log group.now))) }
    ensures memory { OnErr result (result ≡ Err StoreError.NoMemory) }
    ensures only { OnlyPuts V.Versions rows.old rows.new }
{
    let mut left = most;
    for _passed in progress.entries..logs.prefix(group).0 {
        let writes = match logs.decided(group, Position(progress.entries + 1)) {
            Some(entry) => entry.content().writes.as_slice(),
            None => return Ok(()),
        };
        left = store_entry(
            alloc,
            rows,
            progress.entries,
            writes,
            &mut progress.writes,
            left,
        )?;
        if progress.writes < writes.len() as u64 {
            return Ok(());
        }
        *progress = Progress {
            entries: progress.entries + 1,
            writes: 0,
        };
    }
    Ok(())
}

/// Stores all writes of a group's decided prefix through a position.
pub fn store_through<V: Versions, R: Records>(
    alloc: Global,
    rows: &mut V,
    progress: &mut Progress,
    group: &GroupId,
    logs: &Logs<R>,
    position: Position,
) -> Result<(), StoreError>
    ensures stands { (items : List Item) (log : GroupLogs) (counts : Counts) → Represents logs.now.kept items →
        log group.now ≡ log_in items group.now → FollowsGroup (V.version rows.old) group.now progress.old log counts →
        FollowsGroup (V.version rows.new) group.now progress.new log counts
        × (count_of progress.old (log group.now) ≤ count_of progress.new (log group.now))
        × (count_of progress.new (log group.now) ≤ after_read position.0 (log group.now) (count_of progress.old (log group.now))) }
    ensures all { OnOk result ((items : List Item) (log : GroupLogs) (counts : Counts) →
        Represents logs.now.kept items → log group.now ≡ log_in items group.now →
        FollowsGroup (V.version rows.old) group.now progress.old log counts →
        count_of progress.new (log group.now) ≡ after_read position.0 (log group.now) (count_of progress.old (log group.now))) }
    ensures memory { OnErr result (result ≡ Err StoreError.NoMemory) }
    ensures only { OnlyPuts V.Versions rows.old rows.new }
{
    for _passed in progress.entries..logs.prefix(group).0.min(position.0) {
        let writes = match logs.decided(group, Position(progress.entries + 1)) {
            Some(entry) => entry.content().writes.as_slice(),
            None => return Ok(()),
        };
        store_entry(
            alloc,
            rows,
            progress.entries,
            writes,
            &mut progress.writes,
            writes.len() as u64,
        )?;
        *progress = Progress {
            entries: progress.entries + 1,
            writes: 0,
        };
    }
    Ok(())
}
