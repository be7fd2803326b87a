//! The key and the group of a row, as its table's shape spells them.
ghost use Rattle.std.specs.Prelude.{◌≡◌, ◌≤◌, Some, Ok, Err, IfOk};
ghost use Rattle.mega_keys.specs.Answers.{Gives, GivesGroup};
ghost use Rattle.mega_keys.specs.Spelling.{root_part};
ghost use Rattle.mega_schema.specs.Shaping.{shape_of};
ghost use Rattle.mega_index.specs.Fits.{numbered, key_of, group_of, group_bytes_of};

use crate::cells::key_values;
use mega_base::{Bytes, GroupId, NoMemory, Row, Shape, Value};
use mega_keys::{KeyFault, group_of as spell_group, row_key};
use mega_schema::{Schema, Table};
use std::alloc::Global;

/// How the keys of the table with this number are spelled.
fn shape_of(alloc: Global, schema: &Schema, number: u8, table: &Table) -> Result<Shape, NoMemory>
    requires { numbered schema.now.tables number ≡ Some table.now }
    ensures { IfOk result (λ shape. shape ≡ shape_of schema.now number table.now) }
{
    let _table = table;
    schema.shape(alloc, number)
}

/// The key of the row of a table with these key values.
pub fn key_of(
    alloc: Global,
    schema: &Schema,
    number: u8,
    table: &Table,
    key: &[Value],
) -> Result<Bytes, KeyFault>
    requires { numbered schema.now.tables number ≡ Some table.now }
    ensures { Gives result (key_of schema.now number table.now key.now) }
{
    let shape = shape_of(alloc, schema, number, table)?;
    row_key(alloc, &shape, key)
}

/// The root key values at the front of key values.
fn root_part<'a>(shape: &Shape, key: &'a [Value]) -> &'a [Value]
    ensures { result.now ≡ root_part shape.now key.now }
{
    let count = shape.root_kinds.len();
    if key.len() <= count {
        return key;
    }
    key.split_at(count).0
}

/// The group that the root key values at the front of these key values spell.
pub fn group_of(
    alloc: Global,
    schema: &Schema,
    number: u8,
    table: &Table,
    key: &[Value],
) -> Result<GroupId, KeyFault>
    requires { numbered schema.now.tables number ≡ Some table.now }
    ensures { GivesGroup result (group_of schema.now number table.now key.now) }
{
    let shape = shape_of(alloc, schema, number, table)?;
    spell_group(alloc, &shape, root_part(&shape, key))
}

/// The bytes of a row's group, none where it has no group.
pub fn group_bytes_of(
    alloc: Global,
    schema: &Schema,
    number: u8,
    table: &Table,
    row: &Row,
) -> Result<Bytes, NoMemory>
    requires { numbered schema.now.tables number ≡ Some table.now }
    ensures { IfOk result (λ group. group ≡ group_bytes_of schema.now number table.now row.now) }
{
    let key = key_values(alloc, table.primary.as_slice(), row)?;
    match group_of(alloc, schema, number, table, key.as_slice()) {
        Ok(group) => Bytes::from_slice(alloc, group.key.as_slice()),
        Err(KeyFault::NoMemory) => Err(NoMemory),
        Err(_) => Ok(Bytes::new(alloc)),
    }
}
