//! The table of which a key is a row key in a group.
ghost use Rattle.std.specs.Prelude.{◌≡◌, Some, IfOk};
ghost use Rattle.mega_index.specs.Fits.{numbered};
ghost use Rattle.mega_index.specs.Fitted.{is_key_of, table_of};

use mega_base::NoMemory;
use mega_schema::{Schema, Table};
use mega_view::{is_key_of, shape_of, tables_of};
use std::alloc::Global;

/// Whether the key is a row key of the table with this number, in the group.
fn is_of_table(
    alloc: Global,
    schema: &Schema,
    number: u8,
    table: &Table,
    group: &[u8],
    key: &[u8],
) -> Result<bool, NoMemory>
    requires { numbered schema.now.tables number ≡ Some table.now }
    ensures { IfOk result (λ is. is ≡ is_key_of schema.now number table.now group.now key.now) }
{
    let shape = shape_of(alloc, schema, number, table)?;
    is_key_of(alloc, &shape, group, key)
}

/// The number of the table of which the key is a row key in the group.
pub fn table_of(
    alloc: Global,
    schema: &Schema,
    group: &[u8],
    key: &[u8],
) -> Result<Option<u8>, NoMemory>
    ensures { IfOk result (λ found. found ≡ table_of schema.now group.now key.now) }
{
    let mut number = 0;
    let tables = tables_of(schema);
    for table in tables {
        number += 1;
        if is_of_table(alloc, schema, number, table, group, key)? {
            return Ok(Some(number));
        }
    }
    Ok(None)
}
