//! The writes of a handler that are kept, with their local index writes.
ghost use Rattle.std.specs.Prelude.{◌≡◌, ◌++◌, IfOk, OnOk, Some, option_map, if◌then◌else◌};
ghost use Rattle.std.specs.Option.{option_copied};
ghost use Rattle.mega_index.specs.Fits.{numbered, stands_in};
ghost use Rattle.mega_index.specs.Rows.{row_under, same_key, written};
ghost use Rattle.mega_index.specs.Fitted.{fitted_writes, is_kept, kept_write, table_of};
ghost use Rattle.mega_handler_entries.specs.Keeping.{kept_with};

use crate::placing::table_of;
use mega_base::{Bytes, NoMemory, Row};
use mega_entry::Write;
use mega_index::{index_writes, row_under, stands_in, table_at};
use mega_schema::Schema;
use std::alloc::Global;

/// The row of a write, or the one before it, by whether it writes this key.
fn row_by<'a>(found: Option<&'a Row>, write: &'a Write, key: &[u8]) -> Option<&'a Row>
    ensures { option_copied result ≡ (if same_key write.now.key key.now then write.now.row else option_copied found.entry) }
{
    if write.key.as_slice().cmp(key).is_eq() {
        write.row.as_ref()
    } else {
        found
    }
}

/// The row under a key after these writes.
fn row_after<'a>(rows: &'a [(Bytes, Row)], writes: &'a [Write], key: &[u8]) -> Option<&'a Row>
    ensures { option_copied result ≡ written writes.now (row_under rows.now) key.now }
{
    let mut found = row_under(rows, key);
    for write in writes {
        found = row_by(found, write, key);
    }
    found
}

/// Whether a row that is written stands under its own key and fits its table.
fn row_is_kept(
    alloc: Global,
    schema: &Schema,
    number: u8,
    key: &Bytes,
    row: &Row,
) -> Result<bool, NoMemory>
    ensures { IfOk result (λ kept. kept ≡ stands_in schema.now number (numbered schema.now.tables number) key.now row.now) }
{
    match table_at(schema, number) {
        Some(table) => stands_in(alloc, schema, number, table, key, row),
        None => Ok(false),
    }
}

/// Whether a write to a row key of the table with this number is kept.
fn is_kept(alloc: Global, schema: &Schema, number: u8, write: &Write) -> Result<bool, NoMemory>
    ensures { IfOk result (λ kept. kept ≡ is_kept schema.now number write.now) }
{
    match &write.row {
        Some(row) => row_is_kept(alloc, schema, number, &write.key, row),
        None => Ok(true),
    }
}

/// The local index writes of a write on what earlier ones left, where it is kept.
fn kept_in(
    alloc: Global,
    schema: &Schema,
    number: u8,
    rows: &[(Bytes, Row)],
    kept: &[Write],
    write: &Write,
) -> Result<Option<Vec<Write>>, NoMemory>
    ensures { IfOk result (λ more. kept_with write.now (option_map (λ m. m.items) more) ≡ kept_write schema.now (Some number) (written kept.now (row_under rows.now)) write.now) }
{
    if !is_kept(alloc, schema, number, write)? {
        return Ok(None);
    }
    let old = row_after(rows, kept, write.key.as_slice());
    let more = index_writes(alloc, schema, number, old, write.row.as_ref())?;
    Ok(Some(more))
}

/// The local index writes of a write on what earlier ones left, where it is kept.
fn kept_write(
    alloc: Global,
    schema: &Schema,
    group: &[u8],
    rows: &[(Bytes, Row)],
    kept: &[Write],
    write: &Write,
) -> Result<Option<Vec<Write>>, NoMemory>
    ensures { IfOk result (λ more. kept_with write.now (option_map (λ m. m.items) more) ≡ kept_write schema.now (table_of schema.now group.now write.now.key) (written kept.now (row_under rows.now)) write.now) }
{
    match table_of(alloc, schema, group, write.key.as_slice())? {
        Some(number) => kept_in(alloc, schema, number, rows, kept, write),
        None => Ok(None),
    }
}

/// Adds writes behind these.
fn extend(kept: &mut Vec<Write>, more: Vec<Write>) -> Result<(), NoMemory>
    ensures { OnOk result (kept.new.items ≡ kept.old.items ++ more.items) }
{
    for write in more {
        kept.push(write)?;
    }
    Ok(())
}

/// Adds a write and its local index writes, where it is kept.
fn add(kept: &mut Vec<Write>, write: Write, more: Option<Vec<Write>>) -> Result<(), NoMemory>
    ensures { OnOk result (kept.new.items ≡ kept.old.items ++ kept_with write (option_map (λ m. m.items) more)) }
{
    match more {
        Some(more) => {
            kept.push(write)?;
            extend(kept, more)
        }
        None => Ok(()),
    }
}

/// Takes in a write of a handler.
fn keep(
    alloc: Global,
    schema: &Schema,
    group: &[u8],
    rows: &[(Bytes, Row)],
    kept: &mut Vec<Write>,
    write: Write,
) -> Result<(), NoMemory>
    ensures { OnOk result (kept.new.items ≡ kept.old.items ++ kept_write schema.now (table_of schema.now group.now write.key) (written kept.old.items (row_under rows.now)) write) }
{
    match kept_write(alloc, schema, group, rows, kept.as_slice(), &write) {
        Ok(more) => add(kept, write, more),
        Err(refused) => {
            drop(write);
            Err(refused)
        }
    }
}

/// The writes of a handler that are kept, each on what the earlier ones left, with their local index writes.
pub fn fitted_writes(
    alloc: Global,
    schema: &Schema,
    group: &[u8],
    rows: &[(Bytes, Row)],
    writes: Vec<Write>,
) -> Result<Vec<Write>, NoMemory>
    ensures { IfOk result (λ kept. kept.items ≡ fitted_writes schema.now group.now (row_under rows.now) writes.items) }
{
    let mut kept = Vec::new(alloc);
    for write in writes {
        keep(alloc, schema, group, rows, &mut kept, write)?;
    }
    Ok(kept)
}
