//! The writes of a put or a deletion, with the local index writes that belong to it.
ghost use Rattle.std.specs.Prelude.{◌≡◌, ◌++◌, Some, IfOk, OnOk};
ghost use Rattle.std.specs.Option.{option_copied};
ghost use Rattle.mega_index.specs.Fits.{fits, numbered};
ghost use Rattle.mega_outcome.specs.Changes.{replaced, delete_at};
ghost use Rattle.mega_outcome.specs.Steps.{IsInside, put_at};

use crate::answer::Turn;
use mega_base::{Bytes, Copied, Items, NoMemory, Row};
use mega_index::mega_entry::Write;
use mega_index::mega_row_writes::copy_row;
use mega_index::mega_schema::Schema;
use mega_index::{index_writes, row_fits, table_at};
use std::alloc::Global;

/// Adds these writes at the end.
pub fn append(writes: &mut Items<Write>, more: Vec<Write>) -> Result<(), NoMemory>
    ensures { OnOk result (writes.new ≡ writes.old ++ more.items) }
{
    for write in more {
        writes.push(write)?;
    }
    Ok(())
}

/// The write of a row of the table, then the local index writes that belong to it.
pub fn replaced(
    alloc: Global,
    schema: &Schema,
    number: u8,
    key: &Bytes,
    old: Option<&Row>,
    new: Option<&Row>,
) -> Result<Items<Write>, NoMemory>
    ensures { IfOk result (λ writes. writes ≡ replaced schema.now number key.now (option_copied old.entry) (option_copied new.entry)) }
{
    let mut writes = Items::new(alloc);
    let key = key.copy(alloc)?;
    let row = copy_row(alloc, new)?;
    let indexes = index_writes(alloc, schema, number, old, new)?;
    writes.push(Write { key, row })?;
    append(&mut writes, indexes)?;
    Ok(writes)
}

/// Whether the row fits the table with this number.
fn fits(alloc: Global, schema: &Schema, number: u8, row: &Row) -> Result<bool, NoMemory>
    ensures { IfOk result (λ found. found ≡ fits schema.now number row.now) }
{
    match table_at(schema, number) {
        Some(table) => row_fits(alloc, schema, number, table, row),
        None => Ok(false),
    }
}

/// The writes of a put over what stands under the key.
pub fn put_at(
    alloc: Global,
    schema: &Schema,
    item: u32,
    number: u8,
    row: &Row,
    key: &Bytes,
    old: Option<&Row>,
) -> Result<Result<Items<Write>, Turn>, NoMemory>
    ensures exact { IfOk result (λ writes. writes ≡ put_at schema.now item number row.now key.now (option_copied old.entry)) }
    ensures inside { IfOk result IsInside }
{
    if !fits(alloc, schema, number, row)? {
        return Ok(Err(Turn::BadRow { item }));
    }
    Ok(Ok(replaced(alloc, schema, number, key, old, Some(row))?))
}

/// The writes of a deletion of the row that stands under the key.
pub fn delete_at(
    alloc: Global,
    schema: &Schema,
    item: u32,
    number: u8,
    key: &Bytes,
    old: Option<&Row>,
) -> Result<Result<Items<Write>, Turn>, NoMemory>
    ensures exact { IfOk result (λ writes. writes ≡ delete_at schema.now item number key.now (option_copied old.entry)) }
    ensures inside { IfOk result IsInside }
{
    match old {
        Some(row) => Ok(Ok(replaced(alloc, schema, number, key, Some(row), None)?)),
        None => Ok(Err(Turn::NoRow { item })),
    }
}
