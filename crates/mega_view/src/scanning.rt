//! The rows of one table in a group, found by a scan of the range of their keys.
ghost use Rattle.std.specs.Prelude.{◌≡◌, ◌+◌, ◌≤◌, ◌^◌, ◌++◌, ◌∷◌, [], ℕ, true, Some, IfOk, OnOk, take, slice_get};
ghost use Rattle.std.specs.BTreeMap.{get};
ghost use Rattle.std.specs.Result.{result_err};
ghost use Rattle.mega_disk.specs.VersionMaps.{IsScan};
ghost use Rattle.mega_schema.specs.Shaping.{shape_of, space_of};
ghost use Rattle.mega_schema.specs.declared.schema.Schema.{Schema as SchemaSeen};
ghost use Rattle.mega_schema.specs.declared.schema.Table.{Table as TableSeen};
ghost use Rattle.mega_index.specs.Fits.{numbered};
ghost use Rattle.mega_index.specs.Rows.{key_cmp};
ghost use Rattle.mega_outcome.specs.Answers.{rows_at};
ghost use Rattle.mega_outcome.specs.Looks.{Looks};
ghost use Rattle.mega_view.specs.Keys.{AreBytes};
ghost use Rattle.mega_view.specs.Scanning.{AreThrough, HaveByteKeys, tail_of, with_row, with_rows};

use crate::keys::{between, is_in, is_key_of, shape_of, tail_of};
use crate::tables::TableRows;
use mega_base::{Bytes, NoMemory, Position, Row, Shape};
use mega_disk::{StoreError, Versions};
use mega_outcome::Shown;
use mega_schema::{Schema, Table};
use std::alloc::Global;

/// Adds a row, where its key is one of the table of this shape, in the group.
fn add_row(
    alloc: Global,
    found: &mut TableRows,
    shape: &Shape,
    group: &[u8],
    key: Bytes,
    row: Row,
) -> Result<(), NoMemory>
    ensures added { OnOk result ((s : SchemaSeen) (n : ℕ) (t : TableSeen) → shape.now ≡ shape_of s n t → get key_cmp found.new ≡ with_row s n t group.now (get key_cmp found.old) (key, row)) }
    ensures bytes { AreBytes key }
{
    if is_key_of(alloc, shape, group, key.as_slice())? {
        let table = shape.table;
        found.insert(key, Shown { table, row })?;
    }
    Ok(())
}

/// Adds the rows of a scan.
fn add_rows(
    alloc: Global,
    found: &mut TableRows,
    shape: &Shape,
    group: &[u8],
    rows: Vec<(Bytes, Row)>,
) -> Result<(), NoMemory>
    ensures added { OnOk result ((s : SchemaSeen) (n : ℕ) (t : TableSeen) → shape.now ≡ shape_of s n t → get key_cmp found.new ≡ with_rows s n t group.now (get key_cmp found.old) rows.items) }
    ensures bytes { OnOk result (HaveByteKeys rows.items) }
{
    for (key, row) in rows {
        add_row(alloc, found, shape, group, key, row)?;
    }
    Ok(())
}

/// The rows of a range of keys at a position.
fn scan<V: Versions>(
    alloc: Global,
    rows: &mut V,
    from: &Bytes,
    to: &Bytes,
    at: Position,
) -> Result<Vec<(Bytes, Row)>, StoreError>
    ensures value { V.is_told ≡ true → IfOk result (λ found. IsScan (V.version rows.old) from.now to.now at.0 found.items) }
    ensures looks { Looks V.Versions (result_err result) rows.old rows.new }
{
    rows.scan(alloc, from, to, at)
}

/// The rows at a position in the range of keys of a table in a group of its root.
pub fn scan_table<V: Versions>(
    alloc: Global,
    schema: &Schema,
    number: u8,
    table: &Table,
    group: &[u8],
    rows: &mut V,
    at: Position,
) -> Result<Vec<(Bytes, Row)>, StoreError>
    requires few { number ≤ 64 }
    requires there { numbered schema.now.tables number ≡ Some table.now }
    ensures value { V.is_told ≡ true → IfOk result (λ found.
        IsScan (V.version rows.old) ((space_of number table.now ∷ tail_of group.now) ++ number ∷ []) ((space_of number table.now ∷ tail_of group.now) ++ (number + 1) ∷ []) at.0 found.items) }
    ensures looks { Looks V.Versions (result_err result) rows.old rows.new }
{
    let tail = tail_of(group);
    let shape = shape_of(alloc, schema, number, table)?;
    let from = between(alloc, shape.space, tail, number)?;
    let to = between(alloc, shape.space, tail, number + 1)?;
    scan(alloc, rows, &from, &to, at)
}

/// Adds the rows of a table in a group at a position. The keys of such rows begin alike: with the table's space, what follows
/// the root in the group, and the table's number.
pub fn add_table<V: Versions>(
    alloc: Global,
    found: &mut TableRows,
    schema: &Schema,
    number: u8,
    table: &Table,
    group: &[u8],
    rows: &mut V,
    at: Position,
) -> Result<(), StoreError>
    requires few { number ≤ 64 }
    requires there { numbered schema.now.tables number ≡ Some table.now }
    ensures found { V.is_told ≡ true → OnOk result ((place : ℕ) → number ≡ 1 + place → slice_get (take 64 schema.now.tables) place ≡ Some table.now →
        AreThrough schema.now group.now (rows_at (V.version rows.old) at.0) place (get key_cmp found.old) →
        AreThrough schema.now group.now (rows_at (V.version rows.old) at.0) (1 + place) (get key_cmp found.new)) }
    ensures looks { Looks V.Versions (result_err result) rows.old rows.new }
{
    if !is_in(table.root, group) {
        return Ok(());
    }
    let shape = shape_of(alloc, schema, number, table)?;
    let listed = scan_table(alloc, schema, number, table, group, rows, at)?;
    add_rows(alloc, found, &shape, group, listed)?;
    Ok(())
}
