//! The table of which a key is a row key in a group.
ghost use Rattle.std.specs.Prelude.{◌≡◌, ◌≤◌, length, take, IfOk, Some};
ghost use Rattle.mega_schema.specs.Shaping.{shape_of};
ghost use Rattle.mega_index.specs.Fits.{numbered, group_of};
ghost use Rattle.mega_index.specs.Fitted.{is_key_of, table_of};
ghost use Rattle.mega_backup_rows.specs.Places.{is_group};

use mega_base::{NoMemory, Shape, Value};
use mega_index::group_of;
use mega_keys::{KeyFault, read_key};
use mega_schema::{Schema, Table};
use std::alloc::Global;

/// How the keys of the table with this number are spelled.
pub fn shape_of(
    alloc: Global,
    schema: &Schema,
    number: u8,
    table: &Table,
) -> Result<Shape, NoMemory>
    requires { numbered schema.now.tables number ≡ Some table.now }
    ensures { IfOk result (λ shape. shape ≡ shape_of schema.now number table.now) }
{
    let _table = table;
    schema.shape(alloc, number)
}

/// Whether the key values of a row spell this group.
fn is_group(
    alloc: Global,
    schema: &Schema,
    number: u8,
    table: &Table,
    group: &[u8],
    values: &[Value],
) -> Result<bool, NoMemory>
    requires { numbered schema.now.tables number ≡ Some table.now }
    ensures { IfOk result (λ is. is ≡ is_group group.now (group_of schema.now number table.now values.now)) }
{
    match group_of(alloc, schema, number, table, values) {
        Ok(own) => Ok(own.key.as_slice().cmp(group).is_eq()),
        Err(KeyFault::NoMemory) => Err(NoMemory),
        Err(_) => Ok(false),
    }
}

/// Whether the key is a row key of the table, in the group.
fn is_key_of(
    alloc: Global,
    schema: &Schema,
    number: u8,
    table: &Table,
    group: &[u8],
    key: &[u8],
) -> Result<bool, NoMemory>
    requires { numbered schema.now.tables number ≡ Some table.now }
    ensures { IfOk result (λ is. is ≡ is_key_of schema.now number table.now group.now key.now) }
{
    let shape = shape_of(alloc, schema, number, table)?;
    match read_key(alloc, &shape, key) {
        Ok(values) => is_group(alloc, schema, number, table, group, values.as_slice()),
        Err(KeyFault::NoMemory) => Err(NoMemory),
        Err(_) => Ok(false),
    }
}

/// The tables of a schema, which are at most 64.
fn tables_of(schema: &Schema) -> &[Table]
    ensures exact { result.now ≡ take 64 schema.now.tables }
    ensures few { length result.now ≤ 64 }
{
    let tables = schema.tables.as_slice();
    if tables.len() <= 64 {
        return tables;
    }
    tables.split_at(64).0
}

/// The number of the table of which the key is a row key in the group.
pub fn table_of(
    alloc: Global,
    schema: &Schema,
    group: &[u8],
    key: &[u8],
) -> Result<Option<u8>, NoMemory>
    ensures { IfOk result (λ found. found ≡ table_of schema.now group.now key.now) }
{
    for (place, table) in tables_of(schema).iter().enumerate() {
        let number = place as u8 + 1;
        if is_key_of(alloc, schema, number, table, group, key)? {
            return Ok(Some(number));
        }
    }
    Ok(None)
}
