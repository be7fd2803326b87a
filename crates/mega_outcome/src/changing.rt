//! Runs the changes of a transaction in turn, and notes what they wrote.
ghost use Rattle.std.specs.Prelude.{◌≡◌, ◌+◌, ◌<◌, ◌^◌, ◌++◌, true, length, Some, IfOk, OnOk};
ghost use Rattle.std.specs.Result.{result_err};
ghost use Rattle.std.specs.Option.{option_copied};
ghost use Rattle.mega_index.specs.Rows.{Rows, written};
ghost use Rattle.mega_index.specs.Fits.{numbered};
ghost use Rattle.mega_outcome.specs.Changes.{change, all_changes};
ghost use Rattle.mega_outcome.specs.Steps.{IsInside, put_key, changed_key, changed_to};
ghost use Rattle.mega_outcome.specs.Answers.{rows_at, seen};
ghost use Rattle.mega_outcome.specs.Looks.{Looks};

use crate::adding::add_at;
use crate::answer::Turn;
use crate::looking::look_newest;
use crate::places::key_in;
use crate::replacing::{append, delete_at, put_at};
use crate::transaction::Change;
use mega_base::{Bytes, Items, NoMemory, Position, Row};
use mega_disk::{StoreError, Versions};
use mega_index::mega_entry::Write;
use mega_index::mega_row_writes::{Pending, note};
use mega_index::mega_schema::Schema;
use mega_index::{key_values, table_at};
use std::alloc::Global;
use std::collections::BTreeMap;

/// The key of a row that is put.
fn put_key(
    alloc: Global,
    schema: &Schema,
    group: &[u8],
    item: u32,
    number: u8,
    row: &Row,
) -> Result<Result<Bytes, Turn>, NoMemory>
    ensures exact { IfOk result (λ key. key ≡ put_key schema.now group.now item number (numbered schema.now.tables number) row.now) }
    ensures inside { IfOk result IsInside }
{
    match table_at(schema, number) {
        Some(table) => {
            let key = key_values(alloc, table.primary.as_slice(), row)?;
            key_in(alloc, schema, group, item, number, key.as_slice())
        }
        None => Ok(Err(Turn::BadRow { item })),
    }
}

/// The key of the row that is written.
fn changed_key(
    alloc: Global,
    schema: &Schema,
    group: &[u8],
    item: u32,
    one: &Change,
) -> Result<Result<Bytes, Turn>, NoMemory>
    ensures exact { IfOk result (λ key. key ≡ changed_key schema.now group.now item one.now) }
    ensures inside { IfOk result IsInside }
{
    match one {
        Change::Put(number, row) => put_key(alloc, schema, group, item, *number, row),
        Change::Delete(row) | Change::Add(row, _, _) => {
            key_in(alloc, schema, group, item, row.table, row.key.as_slice())
        }
    }
}

/// The writes over what stands under the key.
fn changed_to(
    alloc: Global,
    schema: &Schema,
    item: u32,
    one: &Change,
    key: &Bytes,
    old: Option<&Row>,
) -> Result<Result<Items<Write>, Turn>, NoMemory>
    ensures exact { IfOk result (λ writes. writes ≡ changed_to schema.now item one.now key.now (option_copied old.entry)) }
    ensures inside { IfOk result IsInside }
{
    match one {
        Change::Put(number, row) => put_at(alloc, schema, item, *number, row, key, old),
        Change::Delete(row) => delete_at(alloc, schema, item, row.table, key, old),
        Change::Add(row, property, by) => {
            add_at(alloc, schema, item, row.table, key, *property, old, *by)
        }
    }
}

/// The writes of a change on the rows with the newest writes.
fn change<V: Versions>(
    alloc: Global,
    schema: &Schema,
    group: &[u8],
    newest: &Pending,
    earlier: &Pending,
    rows: &mut V,
    at: Position,
    item: u32,
    one: &Change,
) -> Result<Result<Items<Write>, Turn>, StoreError>
    ensures exact { V.is_told ≡ true → IfOk result (λ answer. answer ≡ change schema.now group.now (seen newest.now (seen earlier.now (rows_at (V.version rows.old) at.0))) item one.now) }
    ensures inside { IfOk result IsInside }
    ensures looks { Looks V.Versions (result_err result) rows.old rows.new }
{
    let key = match changed_key(alloc, schema, group, item, one)? {
        Ok(key) => key,
        Err(turn) => return Ok(Err(turn)),
    };
    let old = look_newest(alloc, newest, earlier, rows, at, &key)?;
    Ok(changed_to(alloc, schema, item, one, &key, old.as_ref())?)
}

/// Notes writes among the newest ones, and adds them at the end.
fn take_up(
    alloc: Global,
    newest: &mut Pending,
    writes: &mut Items<Write>,
    more: Items<Write>,
) -> Result<(), NoMemory>
    ensures noted { OnOk result ((rows : Rows) → seen newest.new rows ≡ written more (seen newest.old rows)) }
    ensures added { OnOk result (writes.new ≡ writes.old ++ more) }
{
    note(alloc, newest, more.as_slice())?;
    append(writes, more.into_vec())
}

/// Changes, which are numbered from the first item on, each on the rows as the earlier ones left them.
pub fn all_changes<V: Versions>(
    alloc: Global,
    schema: &Schema,
    group: &[u8],
    earlier: &Pending,
    rows: &mut V,
    at: Position,
    first: u32,
    changes: &[Change],
) -> Result<Result<Items<Write>, Turn>, StoreError>
    requires { first + length changes.now < 2 ^ 32 }
    ensures exact { V.is_told ≡ true → IfOk result (λ answer. answer ≡ all_changes schema.now group.now (seen earlier.now (rows_at (V.version rows.old) at.0)) first changes.now) }
    ensures inside { IfOk result IsInside }
    ensures looks { Looks V.Versions (result_err result) rows.old rows.new }
{
    let mut writes = Items::new(alloc);
    let mut newest = BTreeMap::new(alloc);
    let mut item = first;
    for one in changes {
        match change(alloc, schema, group, &newest, earlier, rows, at, item, one)? {
            Ok(more) => take_up(alloc, &mut newest, &mut writes, more)?,
            Err(turn) => return Ok(Err(turn)),
        }
        item += 1;
    }
    Ok(Ok(writes))
}
