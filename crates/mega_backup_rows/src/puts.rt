//! The put that brings back a row, where it fits a table of the group.
ghost use Rattle.std.specs.Prelude.{◌≡◌, IfOk, Some};
ghost use Rattle.mega_index.specs.Fits.{numbered, stands_in};
ghost use Rattle.mega_backup_rows.specs.Puts.{put_at, put_in, put_of};

use crate::tables::table_of;
use mega_base::{Bytes, Copied, GroupId, Items, NoMemory, Row};
use mega_index::{stands_in, table_at};
use mega_outcome::{Change, Transaction};
use mega_schema::Schema;
use std::alloc::Global;

/// The put of one row.
fn put_of(alloc: Global, group: &GroupId, table: u8, row: &Row) -> Result<Transaction, NoMemory>
    ensures { IfOk result (λ txn. txn ≡ put_of group.now table row.now) }
{
    let group = group.copy(alloc)?;
    let row = row.copy(alloc)?;
    let mut writes = Items::new(alloc);
    writes.push(Change::Put(table, row))?;
    Ok(Transaction {
        group,
        checks: Items::new(alloc),
        reads: Items::new(alloc),
        writes,
        sends: Items::new(alloc),
    })
}

/// Whether the row fits the table with this number and stands under its own key.
fn stands_at(
    alloc: Global,
    schema: &Schema,
    number: u8,
    key: &Bytes,
    row: &Row,
) -> Result<bool, NoMemory>
    ensures { IfOk result (λ stands. stands ≡ stands_in schema.now number (numbered schema.now.tables number) key.now row.now) }
{
    match table_at(schema, number) {
        Some(table) => stands_in(alloc, schema, number, table, key, row),
        None => Ok(false),
    }
}

/// The put of a row, where it fits the table.
fn put_at(
    alloc: Global,
    schema: &Schema,
    group: &GroupId,
    number: u8,
    key: &Bytes,
    row: &Row,
) -> Result<Option<Transaction>, NoMemory>
    ensures { IfOk result (λ txn. txn ≡ put_at schema.now group.now (Some number) key.now row.now) }
{
    if !stands_at(alloc, schema, number, key, row)? {
        return Ok(None);
    }
    let txn = put_of(alloc, group, number, row)?;
    Ok(Some(txn))
}

/// The put of a row under a key, where that is a row key of the group and the row fits.
pub fn put_in(
    alloc: Global,
    schema: &Schema,
    group: &GroupId,
    key: &Bytes,
    row: &Row,
) -> Result<Option<Transaction>, NoMemory>
    ensures { IfOk result (λ txn. txn ≡ put_in schema.now group.now key.now row.now) }
{
    match table_of(alloc, schema, group.key.as_slice(), key.as_slice())? {
        Some(number) => put_at(alloc, schema, group, number, key, row),
        None => Ok(None),
    }
}
