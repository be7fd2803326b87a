//! What an index has over the rows of a group: a find over the rows of its table.
ghost use Rattle.std.specs.Prelude.{◌≡◌, ◌≤◌, filter, true, IfOk, List, ℕ, Ok, Result as AnswerSeen, Some};
ghost use Rattle.std.specs.Option.{option_copied};
ghost use Rattle.std.specs.Result.{result_err};
ghost use Rattle.mega_base.specs.declared.values.Row.{Row as RowSeen};
ghost use Rattle.mega_index.specs.Answers.{GivesOrPlace};
ghost use Rattle.mega_index.specs.declared.found.Found.{Found as FoundSeen};
ghost use Rattle.mega_index.specs.Cells.{key_values};
ghost use Rattle.mega_index.specs.Finding.{found_over};
ghost use Rattle.mega_index.specs.Fits.{group_of, numbered};
ghost use Rattle.mega_index.specs.Rows.{Listed};
ghost use Rattle.mega_schema.specs.declared.schema.Table.{Table as TableSeen};
ghost use Rattle.mega_outcome.specs.Answers.{rows_at};
ghost use Rattle.mega_outcome.specs.Looks.{Looks};
ghost use Rattle.mega_view.specs.OwnRows.{AreOwnRows, is_of};
ghost use Rattle.mega_view.specs.Small.{IsSmall};
ghost use Rattle.mega_view.specs.Scanning.{is_it};
ghost use Rattle.mega_view.specs.Shows.{Shows};

use crate::keys::{is_in, key_of};
use crate::scanning::scan_table;
use mega_base::{Bytes, GroupId, Items, NoMemory, Position, Row, Value};
use mega_disk::{StoreError, Versions};
use mega_index::{Found, IndexFault, find_over, group_of, key_values, table_at};
use mega_keys::KeyFault;
use mega_schema::{Index, Schema, Table};
use std::alloc::Global;

/// Whether a row's own key values spell this group.
fn is_of(
    alloc: Global,
    schema: &Schema,
    number: u8,
    table: &Table,
    group: &[u8],
    row: &Row,
) -> Result<bool, NoMemory>
    requires { numbered schema.now.tables number ≡ Some table.now }
    ensures { IfOk result (λ is. is ≡ is_of schema.now number table.now group.now row.now) }
{
    let key = key_values(alloc, table.primary.as_slice(), row)?;
    match group_of(alloc, schema, number, table, key.as_slice()) {
        Ok(own) => Ok(own.key.as_slice().cmp(group).is_eq()),
        Err(KeyFault::NoMemory) => Err(NoMemory),
        Err(_) => Ok(false),
    }
}

/// Those of the rows whose own key values spell this group.
fn rows_of(
    alloc: Global,
    schema: &Schema,
    number: u8,
    table: &Table,
    group: &[u8],
    rows: Vec<(Bytes, Row)>,
) -> Result<Vec<(Bytes, Row)>, NoMemory>
    requires { numbered schema.now.tables number ≡ Some table.now }
    ensures { IfOk result (λ kept. kept.items ≡ filter (λ (e : List ℕ × RowSeen). is_of schema.now number table.now group.now e.1) rows.items) }
{
    let mut kept = Vec::new(alloc);
    for (key, row) in rows {
        if is_of(alloc, schema, number, table, group, &row)? {
            kept.push((key, row))?;
        }
    }
    Ok(kept)
}

/// The rows of a table in a group at a position, whose own key values spell the group.
fn own_rows<V: Versions>(
    alloc: Global,
    schema: &Schema,
    number: u8,
    table: &Table,
    group: &[u8],
    rows: &mut V,
    at: Position,
) -> Result<Vec<(Bytes, Row)>, StoreError>
    requires few { number ≤ 64 }
    requires there { numbered schema.now.tables number ≡ Some table.now }
    ensures own { V.is_told ≡ true → IfOk result (λ own. AreOwnRows schema.now number table.now group.now (rows_at (V.version rows.old) at.0) own.items) }
    ensures looks { Looks V.Versions (result_err result) rows.old rows.new }
{
    if !is_in(table.root, group) {
        return Ok(Vec::new(alloc));
    }
    let listed = scan_table(alloc, schema, number, table, group, rows, at)?;
    let own = rows_of(alloc, schema, number, table, group, listed)?;
    Ok(own)
}

/// The index with this number, from 1.
pub(crate) fn index_at(schema: &Schema, number: u8) -> Option<&Index>
    ensures { option_copied result ≡ numbered schema.now.indexes number }
{
    if number == 0 {
        return None;
    }
    schema.indexes.as_slice().get(usize::from(number) - 1)
}

/// The rows of which an index over this table has entries: none where there is no such table.
fn table_rows<V: Versions>(
    alloc: Global,
    schema: &Schema,
    number: u8,
    group: &[u8],
    rows: &mut V,
    at: Position,
) -> Result<Vec<(Bytes, Row)>, StoreError>
    ensures own { V.is_told ≡ true → IsSmall schema.now → IfOk result (λ own. (table : TableSeen) → numbered schema.now.tables number ≡ Some table → AreOwnRows schema.now number table group.now (rows_at (V.version rows.old) at.0) own.items) }
    ensures looks { Looks V.Versions (result_err result) rows.old rows.new }
{
    let Some(table) = table_at(schema, number) else {
        return Ok(Vec::new(alloc));
    };
    if number > 64 {
        return Ok(Vec::new(alloc));
    }
    let own = own_rows(alloc, schema, number, table, group, rows, at)?;
    Ok(own)
}

/// What is found, or the place of the value for which a find is refused.
pub(crate) fn told(
    found: Result<Vec<Found>, IndexFault>,
) -> Result<Result<Items<Found>, u64>, NoMemory>
    ensures { (answer : AnswerSeen (List FoundSeen) ℕ) → GivesOrPlace (λ found. found.items) found answer → IfOk result (λ told. told ≡ answer) }
{
    match found {
        Ok(found) => Ok(Ok(Items::from_vec(found))),
        Err(IndexFault::Kind { place }) => Ok(Err(place)),
        Err(_) => Err(NoMemory),
    }
}

/// What an index has over the rows of a group at a position of the entries that begin with these values, in order of key: nothing where
/// there is no such index, and the place of the first value of another kind than its place. It fails as the store does, or where memory
/// is wanting.
pub fn find_all<V: Versions>(
    alloc: Global,
    schema: &Schema,
    number: u8,
    group: &GroupId,
    values: &[Value],
    rows: &mut V,
    at: Position,
) -> Result<Result<Items<Found>, u64>, StoreError>
    ensures exact { V.is_told ≡ true → IsSmall schema.now → IfOk result (λ found. (listed : Listed) → Shows schema.now group.now (rows_at (V.version rows.old) at.0) listed →
        found ≡ found_over schema.now number group.now.key values.now listed) }
    ensures looks { Looks V.Versions (result_err result) rows.old rows.new }
{
    let Some(index) = index_at(schema, number) else {
        return Ok(Ok(Items::new(alloc)));
    };
    if number > 64 {
        return Ok(Ok(Items::new(alloc)));
    }
    let group = key_of(group);
    let own = table_rows(alloc, schema, index.table, group, rows, at)?;
    let found = told(find_over(alloc, schema, number, group, values, own.as_slice()))?;
    Ok(found)
}
