//! The local index writes that belong to a change of a row.
ghost use Rattle.std.specs.Prelude.{◌≡◌, Some, IfOk};
ghost use Rattle.std.specs.Option.{option_copied};
ghost use Rattle.mega_index.specs.Fits.{numbered};
ghost use Rattle.mega_index.specs.LocalWrites.{index_writes, refused_length, local_writes_of};
ghost use Rattle.mega_index.specs.Answers.{GivesOrLength};

use crate::fault::IndexFault;
use crate::fits::table_at;
use crate::local::local_entries;
use crate::long::{has_place, long_key};
use mega_base::{NoMemory, Row};
use mega_row_writes::mega_entry::Write;
use mega_row_writes::turned;
use mega_schema::{Schema, Table};
use std::alloc::Global;

/// The local index writes that belong to a change of a row of the table with this number: deletions of
/// entries that are gone, then entries that are new or changed, each in order of key. A row that does not
/// fit has no entries.
pub fn index_writes(
    alloc: Global,
    schema: &Schema,
    number: u8,
    old: Option<&Row>,
    new: Option<&Row>,
) -> Result<Vec<Write>, NoMemory>
    ensures { IfOk result (λ writes. writes.items ≡ index_writes schema.now number (option_copied old.entry) (option_copied new.entry)) }
{
    match table_at(schema, number) {
        Some(table) => {
            let old = local_entries(alloc, schema, number, table, old)?;
            let new = local_entries(alloc, schema, number, table, new)?;
            turned(alloc, &old, &new)
        }
        None => Ok(Vec::new(alloc)),
    }
}

fn refused_in(
    alloc: Global,
    schema: &Schema,
    number: u8,
    table: &Table,
    row: &Row,
) -> Result<Option<u64>, NoMemory>
    requires { numbered schema.now.tables number ≡ Some table.now }
    ensures { IfOk result (λ found. found ≡ refused_length schema.now number (Some table.now) (Some row.now)) }
{
    if !has_place(alloc, schema, number, table, row)? {
        return Ok(None);
    }
    long_key(alloc, schema, number, table, row)
}

/// The length for which a new row is refused.
fn refused_length(
    alloc: Global,
    schema: &Schema,
    number: u8,
    new: Option<&Row>,
) -> Result<Option<u64>, NoMemory>
    ensures { IfOk result (λ found. found ≡ refused_length schema.now number (numbered schema.now.tables number) (option_copied new.entry)) }
{
    match (table_at(schema, number), new) {
        (Some(table), Some(row)) => refused_in(alloc, schema, number, table, row),
        _ => Ok(None),
    }
}

/// The same, refused with the length of the new row's first index key that has more than 1,024 bytes.
pub fn local_writes(
    alloc: Global,
    schema: &Schema,
    table: u8,
    old: Option<&Row>,
    new: Option<&Row>,
) -> Result<Vec<Write>, IndexFault>
    ensures { GivesOrLength (λ writes. writes.items) result (local_writes_of schema.now table (option_copied old.entry) (option_copied new.entry)) }
{
    if let Some(length) = refused_length(alloc, schema, table, new)? {
        return Err(IndexFault::TooLong { length });
    }
    Ok(index_writes(alloc, schema, table, old, new)?)
}
