//! The reads of a transaction, each of the rows as they stand.
ghost use Rattle.std.specs.Prelude.{◌≡◌, ◌+◌, ◌<◌, ◌^◌, true, length, option_map, IfOk};
ghost use Rattle.std.specs.Result.{result_err};
ghost use Rattle.mega_outcome.specs.Reads.{shown, read, all_reads};
ghost use Rattle.mega_outcome.specs.Steps.{IsInside};
ghost use Rattle.mega_outcome.specs.Answers.{rows_at, seen};
ghost use Rattle.mega_outcome.specs.Looks.{Looks};

use crate::answer::{Shown, Turn};
use crate::places::row_in;
use crate::transaction::RowRef;
use mega_base::{Items, Position, Row};
use mega_disk::{StoreError, Versions};
use mega_index::mega_row_writes::Pending;
use mega_index::mega_schema::Schema;
use std::alloc::Global;

/// A row of the table as it is shown, where it is there.
fn shown(table: u8, there: Option<Row>) -> Option<Shown>
    ensures { result ≡ option_map (shown table) there }
{
    match there {
        Some(row) => Some(Shown { table, row }),
        None => None,
    }
}

fn read<V: Versions>(
    alloc: Global,
    schema: &Schema,
    group: &[u8],
    pending: &Pending,
    rows: &mut V,
    at: Position,
    item: u32,
    row: &RowRef,
) -> Result<Result<Option<Shown>, Turn>, StoreError>
    ensures exact { V.is_told ≡ true → IfOk result (λ answer. answer ≡ read schema.now group.now (seen pending.now (rows_at (V.version rows.old) at.0)) item row.now) }
    ensures inside { IfOk result IsInside }
    ensures looks { Looks V.Versions (result_err result) rows.old rows.new }
{
    let key = row.key.as_slice();
    match row_in(
        alloc, schema, group, pending, rows, at, item, row.table, key,
    )? {
        Ok(there) => Ok(Ok(shown(row.table, there))),
        Err(turn) => Ok(Err(turn)),
    }
}

/// Reads, which are numbered from the first item on, each of the rows as they stand.
pub fn all_reads<V: Versions>(
    alloc: Global,
    schema: &Schema,
    group: &[u8],
    pending: &Pending,
    rows: &mut V,
    at: Position,
    first: u32,
    reads: &[RowRef],
) -> Result<Result<Items<Option<Shown>>, Turn>, StoreError>
    requires { first + length reads.now < 2 ^ 32 }
    ensures exact { V.is_told ≡ true → IfOk result (λ answer. answer ≡ all_reads schema.now group.now (seen pending.now (rows_at (V.version rows.old) at.0)) first reads.now) }
    ensures inside { IfOk result IsInside }
    ensures looks { Looks V.Versions (result_err result) rows.old rows.new }
{
    let mut replies = Items::new(alloc);
    let mut item = first;
    for one in reads {
        match read(alloc, schema, group, pending, rows, at, item, one)? {
            Ok(reply) => replies.push(reply)?,
            Err(turn) => return Ok(Err(turn)),
        }
        item += 1;
    }
    Ok(Ok(replies))
}
