//! The entries of a row in the local indexes of its table.
ghost use Rattle.std.specs.Prelude.{◌≡◌, ◌≤◌, ◌++◌, [], length, Some, IfOk, OnOk};
ghost use Rattle.std.specs.Option.{option_copied};
ghost use Rattle.mega_index.specs.Fits.{numbered};
ghost use Rattle.mega_index.specs.Entries.{placed, with_local, local_in, local_entries};

use crate::cells::{key_values, row_with};
use crate::entries::entry_keys;
use crate::keys::group_bytes_of;
use crate::long::{indexes_of, row_fits};
use mega_base::{Bytes, Copied, NoMemory, Row, Value};
use mega_row_writes::Rows;
use mega_schema::{Index, Schema, Table};
use std::alloc::Global;
use std::collections::BTreeMap;

/// Adds an entry with this row under each of these keys.
fn place(alloc: Global, entries: &mut Rows, stored: &Row, keys: Vec<Bytes>) -> Result<(), NoMemory>
    ensures { OnOk result (entries.new.entries ≡ placed entries.old.entries stored.now keys.items) }
{
    for key in keys {
        let stored = stored.copy(alloc)?;
        entries.insert(key, stored)?;
    }
    Ok(())
}

/// Adds the entries that a row of the table has in an index, if that is a local one of the table.
fn add_local(
    alloc: Global,
    entries: &mut Rows,
    number: u8,
    index: &Index,
    table: u8,
    group: &[u8],
    key: &[Value],
    row: &Row,
) -> Result<(), NoMemory>
    requires { number ≤ 64 }
    ensures { OnOk result (entries.new.entries ≡ with_local number index.now table group.now key.now row.now entries.old.entries) }
{
    if index.table != table || index.global {
        return Ok(());
    }
    let keys = entry_keys(alloc, number, index, group, key, row)?;
    let stored = row_with(alloc, index.storing.as_slice(), row)?;
    place(alloc, entries, &stored, keys)
}

/// The entries of a row of the table in its local indexes.
fn local_in(
    alloc: Global,
    indexes: &[Index],
    table: u8,
    group: &[u8],
    key: &[Value],
    row: &Row,
) -> Result<Rows, NoMemory>
    requires { length indexes.now ≤ 64 }
    ensures { IfOk result (λ entries. entries.entries ≡ local_in 1 indexes.now table group.now key.now row.now []) }
{
    let mut entries = BTreeMap::new(alloc);
    for (place, index) in indexes.iter().enumerate() {
        let number = place as u8 + 1;
        add_local(alloc, &mut entries, number, index, table, group, key, row)?;
    }
    Ok(entries)
}

fn entries_of(
    alloc: Global,
    schema: &Schema,
    number: u8,
    table: &Table,
    row: &Row,
) -> Result<Rows, NoMemory>
    requires { numbered schema.now.tables number ≡ Some table.now }
    ensures { IfOk result (λ entries. entries.entries ≡ local_entries schema.now number table.now (Some row.now)) }
{
    if !row_fits(alloc, schema, number, table, row)? {
        return Ok(BTreeMap::new(alloc));
    }
    let key = key_values(alloc, table.primary.as_slice(), row)?;
    let group = group_bytes_of(alloc, schema, number, table, row)?;
    local_in(
        alloc,
        indexes_of(schema),
        number,
        group.as_slice(),
        key.as_slice(),
        row,
    )
}

/// The local entries of a row of a table; a row that does not fit has none.
pub fn local_entries(
    alloc: Global,
    schema: &Schema,
    number: u8,
    table: &Table,
    row: Option<&Row>,
) -> Result<Rows, NoMemory>
    requires { numbered schema.now.tables number ≡ Some table.now }
    ensures { IfOk result (λ entries. entries.entries ≡ local_entries schema.now number table.now (option_copied row.entry)) }
{
    match row {
        Some(row) => entries_of(alloc, schema, number, table, row),
        None => Ok(BTreeMap::new(alloc)),
    }
}
