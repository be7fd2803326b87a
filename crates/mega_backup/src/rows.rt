//! The rows behind the entries of a log, by their keys.
ghost use Rattle.std.specs.Prelude.{◌≡◌, [], IfOk, OnOk};
ghost use Rattle.mega_index.specs.Rows.{list_after, list_changed, list_written};

use mega_base::{Bytes, Copied, NoMemory, Row};
use mega_entry::{Entry, Write};
use std::alloc::Global;
use std::collections::BTreeMap;

/// Rows by their keys.
pub type Rows = BTreeMap<Bytes, Row>;

/// Makes one write.
fn change(alloc: Global, rows: &mut Rows, write: &Write) -> Result<(), NoMemory>
    ensures { OnOk result (rows.new.entries ≡ list_changed rows.old.entries write.now) }
{
    match &write.row {
        Some(row) => {
            let key = write.key.copy(alloc)?;
            let row = row.copy(alloc)?;
            rows.insert(key, row)?;
            Ok(())
        }
        None => {
            rows.remove(&write.key);
            Ok(())
        }
    }
}

/// Makes writes, one after another.
fn change_all(alloc: Global, rows: &mut Rows, writes: &[Write]) -> Result<(), NoMemory>
    ensures { OnOk result (rows.new.entries ≡ list_written writes.now rows.old.entries) }
{
    for write in writes {
        change(alloc, rows, write)?;
    }
    Ok(())
}

/// The rows after these entries, the oldest first.
pub fn rows_after(alloc: Global, entries: &[Entry]) -> Result<Rows, NoMemory>
    ensures { IfOk result (λ rows. rows.entries ≡ list_after entries.now []) }
{
    let mut rows = BTreeMap::new(alloc);
    for entry in entries {
        change_all(alloc, &mut rows, entry.content().writes.as_slice())?;
    }
    Ok(rows)
}
