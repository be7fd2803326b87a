//! The writes of a transaction, where each is a put or a deletion that fits the group.
ghost use Rattle.std.specs.Prelude.{◌≡◌, IfOk};
ghost use Rattle.std.specs.Result.{result_ok};
ghost use Rattle.mega_index.specs.Fits.{numbered, fits_in};
ghost use Rattle.mega_outcome.specs.Places.{key_in};
ghost use Rattle.mega_outcome.specs.Steps.{changed_key, put_key};
ghost use Rattle.mega_two_driver.specs.Fits.{fits_its_table, new_row, write_of, write_under, writes_of};

use mega_base::{Bytes, Copied, Items, NoMemory, Row, Value};
use mega_entry::Write;
use mega_index::{key_values, row_fits, table_at};
use mega_outcome::{Change, key_in};
use mega_schema::Schema;
use std::alloc::Global;

/// The key of the row of a table with these key values, where it is one of the group.
fn key_of_group(
    alloc: Global,
    schema: &Schema,
    group: &[u8],
    number: u8,
    key: &[Value],
) -> Result<Option<Bytes>, NoMemory>
    ensures { IfOk result (λ found. found ≡ result_ok (key_in schema.now group.now 0 number key.now)) }
{
    match key_in(alloc, schema, group, 0, number, key)? {
        Ok(key) => Ok(Some(key)),
        Err(_) => Ok(None),
    }
}

fn put_key(
    alloc: Global,
    schema: &Schema,
    group: &[u8],
    number: u8,
    row: &Row,
) -> Result<Option<Bytes>, NoMemory>
    ensures { IfOk result (λ key. key ≡ result_ok (put_key schema.now group.now 0 number (numbered schema.now.tables number) row.now)) }
{
    match table_at(schema, number) {
        Some(table) => {
            let key = key_values(alloc, table.primary.as_slice(), row)?;
            key_of_group(alloc, schema, group, number, key.as_slice())
        }
        None => Ok(None),
    }
}

/// The key of the row that is written.
fn changed_key(
    alloc: Global,
    schema: &Schema,
    group: &[u8],
    change: &Change,
) -> Result<Option<Bytes>, NoMemory>
    ensures { IfOk result (λ key. key ≡ result_ok (changed_key schema.now group.now 0 change.now)) }
{
    match change {
        Change::Put(number, row) => put_key(alloc, schema, group, *number, row),
        Change::Delete(row) | Change::Add(row, _, _) => {
            key_of_group(alloc, schema, group, row.table, row.key.as_slice())
        }
    }
}

fn fits_table(alloc: Global, schema: &Schema, number: u8, row: &Row) -> Result<bool, NoMemory>
    ensures { IfOk result (λ fits. fits ≡ fits_in schema.now number (numbered schema.now.tables number) row.now) }
{
    match table_at(schema, number) {
        Some(table) => row_fits(alloc, schema, number, table, row),
        None => Ok(false),
    }
}

fn fits_its_table(alloc: Global, schema: &Schema, change: &Change) -> Result<bool, NoMemory>
    ensures { IfOk result (λ fits. fits ≡ fits_its_table schema.now change.now) }
{
    match change {
        Change::Put(number, row) => fits_table(alloc, schema, *number, row),
        Change::Delete(_) => Ok(true),
        Change::Add(_, _, _) => Ok(false),
    }
}

fn new_row(alloc: Global, change: &Change) -> Result<Option<Row>, NoMemory>
    ensures { IfOk result (λ row. row ≡ new_row change.now) }
{
    match change {
        Change::Put(_, row) => Ok(Some(row.copy(alloc)?)),
        Change::Delete(_) | Change::Add(_, _, _) => Ok(None),
    }
}

/// The write of a change under its key.
fn write_under(
    alloc: Global,
    schema: &Schema,
    change: &Change,
    key: Option<Bytes>,
) -> Result<Option<Write>, NoMemory>
    ensures { IfOk result (λ write. write ≡ write_under schema.now change.now key) }
{
    let Some(key) = key else {
        return Ok(None);
    };
    if !fits_its_table(alloc, schema, change)? {
        return Ok(None);
    }
    let row = new_row(alloc, change)?;
    Ok(Some(Write { key, row }))
}

/// The write of a change, if it is a put or a deletion that fits the group.
#[tactic(auto, unfolding(crate::specs::Fits::write_of))]
fn write_of(
    alloc: Global,
    schema: &Schema,
    group: &[u8],
    change: &Change,
) -> Result<Option<Write>, NoMemory>
    ensures { IfOk result (λ write. write ≡ write_of schema.now group.now change.now) }
{
    let key = changed_key(alloc, schema, group, change)?;
    write_under(alloc, schema, change, key)
}

/// All of them, where each fits.
pub(crate) fn writes_of(
    alloc: Global,
    schema: &Schema,
    group: &[u8],
    changes: &[Change],
) -> Result<Option<Items<Write>>, NoMemory>
    ensures { IfOk result (λ writes. writes ≡ writes_of schema.now group.now changes.now) }
{
    let mut writes = Items::new(alloc);
    for change in changes {
        match write_of(alloc, schema, group, change)? {
            Some(write) => writes.push(write)?,
            None => return Ok(None),
        }
    }
    Ok(Some(writes))
}
