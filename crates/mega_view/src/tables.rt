//! All rows of a group's tables, by their keys.
ghost use Rattle.std.specs.Prelude.{◌≡◌, ◌≤◌, true, length, map, take, IfOk, List, ℕ, Some};
ghost use Rattle.std.specs.BTreeMap.{get};
ghost use Rattle.std.specs.Map.{keys_of};
ghost use Rattle.std.specs.List.Sorted.{IsStrictlySortedBy};
ghost use Rattle.std.specs.Result.{result_err};
ghost use Rattle.mega_index.specs.Rows.{key_cmp};
ghost use Rattle.mega_outcome.specs.declared.answer.Shown.{Shown as ShownRow};
ghost use Rattle.mega_outcome.specs.Answers.{rows_at};
ghost use Rattle.mega_outcome.specs.Looks.{Looks};
ghost use Rattle.mega_view.specs.TableRows.{AreTableRows};

use crate::keys::key_of;
use crate::scanning::add_table;
use mega_base::{Bytes, GroupId, Items, NoMemory, Position};
use mega_disk::{StoreError, Versions};
use mega_outcome::Shown;
use mega_schema::{Schema, Table};
use std::alloc::Global;
use std::collections::BTreeMap;

/// Rows of a group's tables by their keys, each with the number of its table.
pub type TableRows = BTreeMap<Bytes, Shown>;

/// The tables of a schema, which are at most 64.
pub fn tables_of(schema: &Schema) -> &[Table]
    ensures exact { result.now ≡ take 64 schema.now.tables }
    ensures few { length result.now ≤ 64 }
{
    let tables = schema.tables.as_slice();
    if tables.len() <= 64 {
        return tables;
    }
    tables.split_at(64).0
}

/// All rows of a group's tables at a position. It fails as the store does, or where memory is wanting.
pub fn table_rows<V: Versions>(
    alloc: Global,
    schema: &Schema,
    group: &GroupId,
    rows: &mut V,
    at: Position,
) -> Result<TableRows, StoreError>
    ensures found { V.is_told ≡ true → IfOk result (λ found. AreTableRows schema.now group.now.key (rows_at (V.version rows.old) at.0) (get key_cmp found)) }
    ensures looks { Looks V.Versions (result_err result) rows.old rows.new }
{
    let mut found = BTreeMap::new(alloc);
    let group = key_of(group);
    let mut number = 0;
    for table in tables_of(schema) {
        number += 1;
        add_table(alloc, &mut found, schema, number, table, group, rows, at)?;
    }
    Ok(found)
}

/// The rows that a read of all shows, in order of key.
pub fn shown_of(alloc: Global, found: TableRows) -> Result<Items<Option<Shown>>, NoMemory>
    ensures shown { IfOk result (λ shown. shown ≡ map Some (map (λ (e : List ℕ × ShownRow). e.1) found.entries)) }
    ensures ordered { IfOk result (λ shown. IsStrictlySortedBy key_cmp (keys_of found.entries)) }
{
    let mut shown = Items::new(alloc);
    if found.len() == 0 {
        return Ok(shown);
    }
    for one in found.into_values() {
        shown.push(Some(one))?;
    }
    Ok(shown)
}
