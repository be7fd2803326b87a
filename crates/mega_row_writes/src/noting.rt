//! Writes that are pending: noted one after another, by their keys.
ghost use Rattle.std.specs.Prelude.{◌≡◌, IfOk, OnOk};
ghost use Rattle.std.specs.Option.{option_copied};
ghost use Rattle.mega_row_writes.specs.Rows.{Rows, changed, written};
ghost use Rattle.mega_row_writes.specs.Pending.{seen};

use mega_base::{Bytes, Copied, NoMemory, Row};
use mega_entry::Write;
use std::alloc::Global;
use std::collections::BTreeMap;

/// Rows and deletions that were written since, by their keys.
pub type Pending = BTreeMap<Bytes, Option<Row>>;

/// A copy of a row that is there or not.
pub fn copy_row(alloc: Global, row: Option<&Row>) -> Result<Option<Row>, NoMemory>
    ensures { IfOk result (λ made. made ≡ option_copied row.entry) }
{
    match row {
        Some(row) => Ok(Some(row.copy(alloc)?)),
        None => Ok(None),
    }
}

/// Notes a write among those that are pending.
fn note_one(alloc: Global, pending: &mut Pending, write: &Write) -> Result<(), NoMemory>
    ensures { OnOk result ((rows : Rows) → seen pending.new rows ≡ changed (seen pending.old rows) write.now) }
{
    let key = write.key.copy(alloc)?;
    let row = copy_row(alloc, write.row.as_ref())?;
    pending.insert(key, row)?;
    Ok(())
}

/// Notes writes among those that are pending, one after another.
pub fn note(alloc: Global, pending: &mut Pending, writes: &[Write]) -> Result<(), NoMemory>
    ensures { OnOk result ((rows : Rows) → seen pending.new rows ≡ written writes.now (seen pending.old rows)) }
{
    for write in writes {
        note_one(alloc, pending, write)?;
    }
    Ok(())
}
