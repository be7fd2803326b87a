//! The transactions that bring back the rows of a backup at a position.
ghost use Rattle.std.specs.Prelude.{◌≤◌, length};
ghost use Rattle.mega_backup.specs.Faults.{GivesBy};
ghost use Rattle.mega_backup.specs.Restoring.{from_backup, read_of, restoring};

use crate::fault::BackupFault;
use crate::puts::puts_of;
use crate::reading::{Backup, backup_in};
use crate::rows::rows_after;
use mega_backup_rows::first_entries;
use mega_base::{Bytes, Position};
use mega_outcome::Transaction;
use mega_schema::Schema;
use std::alloc::Global;

/// The puts that bring back the rows behind the first entries; there are as many.
fn restoring(
    alloc: Global,
    schema: &Schema,
    backup: &Backup,
    through: u64,
) -> Result<Vec<Transaction>, BackupFault>
    requires { through ≤ length backup.now.entries }
    ensures { GivesBy (λ txns. txns.items) result (restoring schema.now backup.now.group backup.now.entries through) }
{
    let first = first_entries(backup.entries.as_slice(), through);
    let rows = rows_after(alloc, first)?;
    puts_of(alloc, schema, &backup.group, &rows)
}

/// The transactions that bring back the rows behind the first `through` entries of the backup that lines are: one put for
/// each row that fits a table of the group, in order of key. `Malformed` comes exactly at the first line that is none of a
/// backup, or behind the last where one is missing; then `Short` exactly where the backup has fewer entries; and `TooLarge`
/// exactly with the first key whose put alone on an empty group is too large.
pub fn read(
    alloc: Global,
    schema: &Schema,
    lines: &[Bytes],
    through: Position,
) -> Result<Vec<Transaction>, BackupFault>
    ensures { GivesBy (λ txns. txns.items) result (read_of schema.now lines.now through.0) }
{
    let backup = backup_in(alloc, lines)?;
    let has = backup.entries.len() as u64;
    if has < through.0 {
        return Err(BackupFault::Short { has: Position(has) });
    }
    restoring(alloc, schema, &backup, through.0)
}
