//! The rows of a group's tables as a list.
ghost use Rattle.std.specs.Prelude.{◌≡◌, true, map, IfOk, List, ℕ};
ghost use Rattle.std.specs.Map.{keys_of};
ghost use Rattle.std.specs.List.Sorted.{IsStrictlySortedBy};
ghost use Rattle.std.specs.Result.{result_err};
ghost use Rattle.mega_index.specs.Rows.{Listed, key_cmp};
ghost use Rattle.mega_outcome.specs.declared.answer.Shown.{Shown as ShownRow};
ghost use Rattle.mega_outcome.specs.Answers.{rows_at};
ghost use Rattle.mega_outcome.specs.Looks.{Looks};
ghost use Rattle.mega_rules.specs.Acting.{table_rows};
ghost use Rattle.mega_view.specs.Shows.{Shows};

use mega_base::{Bytes, GroupId, NoMemory, Position, Row};
use mega_disk::{StoreError, Versions};
use mega_schema::Schema;
use mega_view::{TableRows, table_rows};
use std::alloc::Global;

/// The rows that were found, in order of key.
fn listed(alloc: Global, found: TableRows) -> Result<Vec<(Bytes, Row)>, NoMemory>
    ensures rows { IfOk result (λ rows. rows.items ≡ map (λ (e : List ℕ × ShownRow). (e.0, e.1.row)) found.entries) }
    ensures ordered { IfOk result (λ rows. IsStrictlySortedBy key_cmp (keys_of found.entries)) }
{
    let mut rows = Vec::new(alloc);
    if found.len() == 0 {
        return Ok(rows);
    }
    for (key, one) in found {
        rows.push((key, one.row))?;
    }
    Ok(rows)
}

/// All rows of a group's tables at a position, in order of key. It fails as the store does, or where memory is wanting.
pub fn rows_of_tables<V: Versions>(
    alloc: Global,
    schema: &Schema,
    group: &GroupId,
    rows: &mut V,
    at: Position,
) -> Result<Vec<(Bytes, Row)>, StoreError>
    ensures exact { V.is_told ≡ true → IfOk result (λ found. (listed : Listed) → Shows schema.now group.now (rows_at (V.version rows.old) at.0) listed →
        found.items ≡ table_rows schema.now group.now listed) }
    ensures looks { Looks V.Versions (result_err result) rows.old rows.new }
{
    let found = table_rows(alloc, schema, group, rows, at)?;
    let rows = listed(alloc, found)?;
    Ok(rows)
}
