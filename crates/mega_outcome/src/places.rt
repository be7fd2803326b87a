//! The key that an item names, and the row under it.
ghost use Rattle.std.specs.Prelude.{◌≡◌, true, option_map, Some, IfOk};
ghost use Rattle.std.specs.Result.{result_err, result_ok};
ghost use Rattle.mega_base.specs.declared.names.GroupId.{GroupId as GroupIdSeen};
ghost use Rattle.mega_index.specs.Fits.{numbered, group_of, key_of};
ghost use Rattle.mega_outcome.specs.Places.{placed, spelled, key_in, row_in};
ghost use Rattle.mega_outcome.specs.Steps.{IsInside};
ghost use Rattle.mega_outcome.specs.Answers.{rows_at, seen};
ghost use Rattle.mega_outcome.specs.Looks.{Looks};

use crate::answer::Turn;
use crate::looking::look;
use mega_base::{Bytes, GroupId, NoMemory, Position, Row, Value};
use mega_disk::{StoreError, Versions};
use mega_index::mega_keys::KeyFault;
use mega_index::mega_row_writes::Pending;
use mega_index::mega_schema::{Schema, Table};
use mega_index::{group_of, key_of, table_at};
use std::alloc::Global;

/// The key, where it could be spelled.
fn spelled(
    alloc: Global,
    schema: &Schema,
    item: u32,
    number: u8,
    table: &Table,
    key: &[Value],
) -> Result<Result<Bytes, Turn>, NoMemory>
    requires { numbered schema.now.tables number ≡ Some table.now }
    ensures exact { IfOk result (λ found. found ≡ spelled item (key_of schema.now number table.now key.now)) }
    ensures inside { IfOk result IsInside }
{
    match key_of(alloc, schema, number, table, key) {
        Ok(key) => Ok(Ok(key)),
        Err(KeyFault::NoMemory) => Err(NoMemory),
        Err(_) => Ok(Err(Turn::BadRow { item })),
    }
}

/// The group of these key values, where it could be spelled.
fn own_group(
    alloc: Global,
    schema: &Schema,
    number: u8,
    table: &Table,
    key: &[Value],
) -> Result<Option<GroupId>, NoMemory>
    requires { numbered schema.now.tables number ≡ Some table.now }
    ensures { IfOk result (λ group. option_map (λ (g : GroupIdSeen). g.key) group ≡ result_ok (group_of schema.now number table.now key.now)) }
{
    match group_of(alloc, schema, number, table, key) {
        Ok(group) => Ok(Some(group)),
        Err(KeyFault::NoMemory) => Err(NoMemory),
        Err(_) => Ok(None),
    }
}

fn key_in_table(
    alloc: Global,
    schema: &Schema,
    group: &[u8],
    item: u32,
    number: u8,
    table: &Table,
    key: &[Value],
) -> Result<Result<Bytes, Turn>, NoMemory>
    requires { numbered schema.now.tables number ≡ Some table.now }
    ensures exact { IfOk result (λ found. found ≡ placed item group.now (group_of schema.now number table.now key.now) (key_of schema.now number table.now key.now)) }
    ensures inside { IfOk result IsInside }
{
    match own_group(alloc, schema, number, table, key)? {
        Some(own) if own.key.as_slice().cmp(group).is_eq() => {
            spelled(alloc, schema, item, number, table, key)
        }
        Some(_) => Ok(Err(Turn::OtherGroup { item })),
        None => Ok(Err(Turn::BadRow { item })),
    }
}

/// The key of the row of a table with these key values, which an item names: another group comes before
/// values that spell no key.
pub fn key_in(
    alloc: Global,
    schema: &Schema,
    group: &[u8],
    item: u32,
    number: u8,
    key: &[Value],
) -> Result<Result<Bytes, Turn>, NoMemory>
    ensures exact { IfOk result (λ found. found ≡ key_in schema.now group.now item number key.now) }
    ensures inside { IfOk result IsInside }
{
    match table_at(schema, number) {
        Some(table) => key_in_table(alloc, schema, group, item, number, table, key),
        None => Ok(Err(Turn::BadRow { item })),
    }
}

/// The row that an item names, or none.
pub fn row_in<V: Versions>(
    alloc: Global,
    schema: &Schema,
    group: &[u8],
    pending: &Pending,
    rows: &mut V,
    at: Position,
    item: u32,
    number: u8,
    key: &[Value],
) -> Result<Result<Option<Row>, Turn>, StoreError>
    ensures exact { V.is_told ≡ true → IfOk result (λ found. found ≡ row_in schema.now group.now (seen pending.now (rows_at (V.version rows.old) at.0)) item number key.now) }
    ensures inside { IfOk result IsInside }
    ensures looks { Looks V.Versions (result_err result) rows.old rows.new }
{
    match key_in(alloc, schema, group, item, number, key)? {
        Ok(key) => Ok(Ok(look(alloc, pending, rows, at, &key)?)),
        Err(turn) => Ok(Err(turn)),
    }
}
