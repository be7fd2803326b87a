//! Tries the checks of a transaction, each of the rows as they stand.
ghost use Rattle.std.specs.Prelude.{◌≡◌, ◌+◌, ◌<◌, ◌^◌, true, length, IfOk};
ghost use Rattle.std.specs.Result.{result_err};
ghost use Rattle.std.specs.Option.{option_copied};
ghost use Rattle.mega_index.specs.Fits.{numbered};
ghost use Rattle.mega_outcome.specs.Checks.{holds, may_have, may_be, may_be_in, has_values, check, all_checks};
ghost use Rattle.mega_outcome.specs.Steps.{IsInside, checked_row, decided};
ghost use Rattle.mega_outcome.specs.Answers.{rows_at, seen};
ghost use Rattle.mega_outcome.specs.Looks.{Looks};

use crate::answer::Turn;
use crate::places::row_in;
use crate::transaction::{Check, RowRef};
use mega_base::{Items, Position, Row, Value};
use mega_disk::{StoreError, Versions};
use mega_index::mega_row_writes::Pending;
use mega_index::mega_schema::{Property, Schema};
use mega_index::mega_syntax::Need;
use mega_index::{are_kind, property_at, table_at, values_are};
use std::alloc::Global;

fn holds(item: u32, truth: bool) -> Result<(), Turn>
    ensures exact { result ≡ holds item truth }
    ensures inside { IsInside result }
{
    if truth {
        Ok(())
    } else {
        Err(Turn::CheckFailed { item })
    }
}

/// Whether so many values may be asked for.
fn may_have(need: Need, count: usize) -> bool
    ensures { result ≡ may_have need count }
{
    match need {
        Need::Required | Need::Optional => count <= 1,
        Need::Repeated => true,
    }
}

/// Whether the property may have these values.
fn may_be(property: &Property, values: &[Value]) -> bool
    ensures { result ≡ may_be (Some property.now) values.now }
{
    may_have(property.need, values.len()) && are_kind(property.kind, values)
}

/// Whether the property of the table is known, and may have these values.
fn may_be_in(schema: &Schema, number: u8, property: u8, values: &[Value]) -> bool
    ensures { result ≡ may_be_in (numbered schema.now.tables number) property values.now }
{
    match table_at(schema, number) {
        Some(table) => match property_at(table.properties.as_slice(), property) {
            Some(property) => may_be(property, values),
            None => false,
        },
        None => false,
    }
}

/// Whether the row is there and has exactly these values of the property.
fn has_values(there: Option<&Row>, property: u8, values: &Items<Value>) -> bool
    ensures { result ≡ has_values (option_copied there.entry) property values.now }
{
    match there {
        Some(row) => values_are(row, property, values),
        None => false,
    }
}

/// The row that a check is about.
fn checked_row(one: &Check) -> &RowRef
    ensures { result.now ≡ checked_row one.now }
{
    match one {
        Check::There(row) | Check::Gone(row) | Check::Is(row, _, _) => row,
    }
}

/// The check of what stands there.
fn decided(schema: &Schema, item: u32, one: &Check, there: Option<&Row>) -> Result<(), Turn>
    ensures exact { result ≡ decided schema.now item one.now (option_copied there.entry) }
    ensures inside { IsInside result }
{
    match one {
        Check::There(_) => holds(item, there.is_some()),
        Check::Gone(_) => holds(item, there.is_none()),
        Check::Is(row, property, values) => {
            if may_be_in(schema, row.table, *property, values.as_slice()) {
                holds(item, has_values(there, *property, values))
            } else {
                Err(Turn::BadRow { item })
            }
        }
    }
}

fn check<V: Versions>(
    alloc: Global,
    schema: &Schema,
    group: &[u8],
    pending: &Pending,
    rows: &mut V,
    at: Position,
    item: u32,
    one: &Check,
) -> Result<Result<(), Turn>, StoreError>
    ensures exact { V.is_told ≡ true → IfOk result (λ answer. answer ≡ check schema.now group.now (seen pending.now (rows_at (V.version rows.old) at.0)) item one.now) }
    ensures inside { IfOk result IsInside }
    ensures looks { Looks V.Versions (result_err result) rows.old rows.new }
{
    let row = checked_row(one);
    let key = row.key.as_slice();
    match row_in(
        alloc, schema, group, pending, rows, at, item, row.table, key,
    )? {
        Ok(there) => Ok(decided(schema, item, one, there.as_ref())),
        Err(turn) => Ok(Err(turn)),
    }
}

/// Checks, which are numbered from the first item on, each of the rows as they stand.
pub fn all_checks<V: Versions>(
    alloc: Global,
    schema: &Schema,
    group: &[u8],
    pending: &Pending,
    rows: &mut V,
    at: Position,
    first: u32,
    checks: &[Check],
) -> Result<Result<(), Turn>, StoreError>
    requires { first + length checks.now < 2 ^ 32 }
    ensures exact { V.is_told ≡ true → IfOk result (λ answer. answer ≡ all_checks schema.now group.now (seen pending.now (rows_at (V.version rows.old) at.0)) first checks.now) }
    ensures inside { IfOk result IsInside }
    ensures looks { Looks V.Versions (result_err result) rows.old rows.new }
{
    let mut item = first;
    for one in checks {
        if let Err(turn) = check(alloc, schema, group, pending, rows, at, item, one)? {
            return Ok(Err(turn));
        }
        item += 1;
    }
    Ok(Ok(()))
}
