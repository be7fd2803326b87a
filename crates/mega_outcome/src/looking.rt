//! The row under a key, as pending writes left it or as it stands.
ghost use Rattle.std.specs.Prelude.{◌≡◌, true, IfOk};
ghost use Rattle.std.specs.Result.{result_err};
ghost use Rattle.mega_outcome.specs.Answers.{rows_at, seen};
ghost use Rattle.mega_outcome.specs.Looks.{Looks};

use mega_base::{Bytes, Position, Row};
use mega_disk::{StoreError, Versions};
use mega_index::mega_row_writes::{Pending, copy_row};
use std::alloc::Global;

/// The row under the key at a position.
fn get<V: Versions>(
    alloc: Global,
    rows: &mut V,
    at: Position,
    key: &Bytes,
) -> Result<Option<Row>, StoreError>
    ensures value { V.is_told ≡ true → IfOk result (λ row. row ≡ rows_at (V.version rows.old) at.0 key.now) }
    ensures looks { Looks V.Versions (result_err result) rows.old rows.new }
{
    rows.get(alloc, key, at)
}

/// The row under the key, as it was written since the position or stands there.
pub fn look<V: Versions>(
    alloc: Global,
    pending: &Pending,
    rows: &mut V,
    at: Position,
    key: &Bytes,
) -> Result<Option<Row>, StoreError>
    ensures value { V.is_told ≡ true → IfOk result (λ row. row ≡ seen pending.now (rows_at (V.version rows.old) at.0) key.now) }
    ensures looks { Looks V.Versions (result_err result) rows.old rows.new }
{
    match pending.get(key) {
        Some(written) => Ok(copy_row(alloc, written.as_ref())?),
        None => get(alloc, rows, at, key),
    }
}

/// The same where the newest writes are told apart from the earlier ones.
pub fn look_newest<V: Versions>(
    alloc: Global,
    newest: &Pending,
    earlier: &Pending,
    rows: &mut V,
    at: Position,
    key: &Bytes,
) -> Result<Option<Row>, StoreError>
    ensures value { V.is_told ≡ true → IfOk result (λ row. row ≡ seen newest.now (seen earlier.now (rows_at (V.version rows.old) at.0)) key.now) }
    ensures looks { Looks V.Versions (result_err result) rows.old rows.new }
{
    match newest.get(key) {
        Some(written) => Ok(copy_row(alloc, written.as_ref())?),
        None => look(alloc, earlier, rows, at, key),
    }
}
