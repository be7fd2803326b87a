//! The writes that turn the rows under some keys into others.
ghost use Rattle.std.specs.Prelude.{◌≡◌, ◌++◌, IfOk, OnOk};
ghost use Rattle.mega_row_writes.specs.Rows.{row_under};
ghost use Rattle.mega_row_writes.specs.RowWrites.{is_row, gone_one, gone, fresh_one, fresh, turned};

use mega_base::{Bytes, Copied, NoMemory, Row};
use mega_entry::{Write, is_same_row};
use std::alloc::Global;
use std::collections::BTreeMap;

/// Rows, in order of key.
pub type Rows = BTreeMap<Bytes, Row>;

/// Adds the deletion of an entry, unless its key stands among the new ones.
fn push_gone(
    alloc: Global,
    writes: &mut Vec<Write>,
    new: &Rows,
    key: &Bytes,
    row: &Row,
) -> Result<(), NoMemory>
    ensures { OnOk result (writes.new.items ≡ writes.old.items ++ gone_one new.now.entries (key.now, row.now)) }
{
    let _row = row;
    if new.contains_key(key) {
        return Ok(());
    }
    let key = key.copy(alloc)?;
    writes.push(Write { key, row: None })?;
    Ok(())
}

/// Adds the deletions of the entries that are gone.
fn add_gone(alloc: Global, writes: &mut Vec<Write>, old: &Rows, new: &Rows) -> Result<(), NoMemory>
    ensures { OnOk result (writes.new.items ≡ writes.old.items ++ gone new.now.entries old.now.entries) }
{
    for (key, row) in old {
        push_gone(alloc, writes, new, key, row)?;
    }
    Ok(())
}

/// Whether this row stands under the key.
fn stands(entries: &Rows, key: &Bytes, row: &Row) -> bool
    ensures { result ≡ is_row (row_under entries.now.entries key.now) row.now }
{
    match entries.get(key) {
        Some(there) => is_same_row(there, row),
        None => false,
    }
}

/// Adds an entry, unless it stood there before.
fn push_fresh(
    alloc: Global,
    writes: &mut Vec<Write>,
    old: &Rows,
    key: &Bytes,
    row: &Row,
) -> Result<(), NoMemory>
    ensures { OnOk result (writes.new.items ≡ writes.old.items ++ fresh_one old.now.entries (key.now, row.now)) }
{
    if stands(old, key, row) {
        return Ok(());
    }
    let key = key.copy(alloc)?;
    let row = row.copy(alloc)?;
    writes.push(Write {
        key,
        row: Some(row),
    })?;
    Ok(())
}

/// Adds the entries that are new or changed.
fn add_fresh(alloc: Global, writes: &mut Vec<Write>, old: &Rows, new: &Rows) -> Result<(), NoMemory>
    ensures { OnOk result (writes.new.items ≡ writes.old.items ++ fresh old.now.entries new.now.entries) }
{
    for (key, row) in new {
        push_fresh(alloc, writes, old, key, row)?;
    }
    Ok(())
}

/// The writes that turn the old rows into the new ones: deletions of those that are gone, then those that are new or
/// changed, each in order of key.
pub fn turned(alloc: Global, old: &Rows, new: &Rows) -> Result<Vec<Write>, NoMemory>
    ensures { IfOk result (λ writes. writes.items ≡ turned old.now.entries new.now.entries) }
{
    let mut writes = Vec::new(alloc);
    add_gone(alloc, &mut writes, old, new)?;
    add_fresh(alloc, &mut writes, old, new)?;
    Ok(writes)
}
