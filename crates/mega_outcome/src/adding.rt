//! An addition to a property that holds one number, with its refusals in order.
ghost use Rattle.std.specs.Prelude.{◌≡◌, ◌&&◌, not, ◌^◌, ◌+ℤ◌, is_some, Some, IfOk};
ghost use Rattle.std.specs.Option.{option_copied};
ghost use Rattle.mega_index.specs.Cells.{values_of, is_listed};
ghost use Rattle.mega_index.specs.Fits.{numbered, long_key};
ghost use Rattle.mega_outcome.specs.Changes.{is_number, number_of, number_value, sum_of, add_to, add_at};
ghost use Rattle.mega_outcome.specs.Steps.{IsInside};

use crate::answer::Turn;
use crate::replacing::replaced;
use mega_base::{Bytes, Items, Kind, NoMemory, Row, Value};
use mega_index::mega_entry::Write;
use mega_index::mega_schema::{Property, Schema, Table};
use mega_index::mega_syntax::Need;
use mega_index::{long_key, property_at, row_set, table_at, values_of};
use std::alloc::Global;

/// Whether the property holds one number.
fn is_number(kind: Kind, need: Need) -> bool
    ensures { result ≡ is_number kind need }
{
    matches!(
        (kind, need),
        (Kind::Int32 | Kind::Int64, Need::Required | Need::Optional)
    )
}

/// The one value, where it is a number of the kind.
fn number_of(kind: Kind, values: &[Value]) -> Option<i64>
    ensures { result ≡ number_of kind values.now }
{
    match (kind, values) {
        (Kind::Int32, [Value::Int32(number)]) => Some(i64::from(*number)),
        (Kind::Int64, [Value::Int64(number)]) => Some(*number),
        _ => None,
    }
}

/// The number as an int32, where it is one.
fn int32_value(number: i64) -> Option<Value>
    ensures { result ≡ number_value Kind.Int32 number }
{
    match i32::try_from(number) {
        Ok(number) => Some(Value::Int32(number)),
        Err(_) => None,
    }
}

/// The sum as a value of the kind, where it is in the kind's range.
fn sum_value(kind: Kind, number: i64, by: i64) -> Option<Value>
    ensures { result ≡ number_value kind (number +ℤ by) }
{
    match (kind, number.checked_add(by)) {
        (Kind::Int32, Some(sum)) => int32_value(sum),
        (Kind::Int64, Some(sum)) => Some(Value::Int64(sum)),
        _ => None,
    }
}

/// The sum of the number that the property has and another, in a row whose index keys are short enough.
fn sum_of(item: u32, kind: Kind, number: Option<i64>, is_long: bool, by: i64) -> Result<Value, Turn>
    ensures exact { result ≡ sum_of item kind number is_long by }
    ensures inside { IsInside result }
{
    match number {
        Some(number) if !is_long => match sum_value(kind, number, by) {
            Some(sum) => Ok(sum),
            None => Err(Turn::Overflow { item }),
        },
        _ => Err(Turn::BadRow { item }),
    }
}

fn sum_in(
    alloc: Global,
    schema: &Schema,
    item: u32,
    number: u8,
    table: &Table,
    property: u8,
    kind: Kind,
    row: &Row,
    by: i64,
) -> Result<Result<Value, Turn>, NoMemory>
    requires { numbered schema.now.tables number ≡ Some table.now }
    ensures inside { IfOk result IsInside }
    ensures exact { IfOk result (λ sum. sum ≡ sum_of item kind (number_of kind (values_of row.now property)) (is_some (long_key schema.now number table.now row.now)) by) }
{
    let is_long = long_key(alloc, schema, number, table, row)?.is_some();
    let has = number_of(kind, values_of(row, property));
    Ok(sum_of(item, kind, has, is_long, by))
}

/// An addition to a property of the row that stands there.
fn add_to(
    alloc: Global,
    schema: &Schema,
    item: u32,
    number: u8,
    table: &Table,
    key: &Bytes,
    property: u8,
    kind: Kind,
    row: &Row,
    by: i64,
) -> Result<Result<Items<Write>, Turn>, NoMemory>
    requires { numbered schema.now.tables number ≡ Some table.now }
    ensures exact { IfOk result (λ writes. writes ≡ add_to schema.now item number table.now key.now property kind (Some row.now) by) }
    ensures inside { IfOk result IsInside }
{
    match sum_in(alloc, schema, item, number, table, property, kind, row, by)? {
        Ok(sum) => {
            let new = row_set(alloc, row, property, &sum)?;
            Ok(Ok(replaced(alloc, schema, number, key, Some(row), Some(&new))?))
        }
        Err(turn) => Ok(Err(turn)),
    }
}

fn is_listed(numbers: &[u8], number: u8) -> bool
    ensures { result ≡ is_listed numbers.now number }
{
    numbers.iter().any(|listed| *listed == number)
}

/// Whether a number may be added to the property of the table.
fn may_add(table: &Table, number: u8, property: &Property) -> bool
    ensures { result ≡ (is_number property.now.kind property.now.need && not (is_listed table.now.primary number)) }
{
    is_number(property.kind, property.need) && !is_listed(table.primary.as_slice(), number)
}

fn add_in(
    alloc: Global,
    schema: &Schema,
    item: u32,
    number: u8,
    table: &Table,
    key: &Bytes,
    property: u8,
    old: Option<&Row>,
    by: i64,
) -> Result<Result<Items<Write>, Turn>, NoMemory>
    requires { numbered schema.now.tables number ≡ Some table.now }
    ensures exact { IfOk result (λ writes. writes ≡ add_at schema.now item number (Some table.now) key.now property (option_copied old.entry) by) }
    ensures inside { IfOk result IsInside }
{
    match (property_at(table.properties.as_slice(), property), old) {
        (Some(found), None) if may_add(table, property, found) => Ok(Err(Turn::NoRow { item })),
        (Some(found), Some(row)) if may_add(table, property, found) => {
            add_to(
                alloc, schema, item, number, table, key, property, found.kind, row, by,
            )
        }
        _ => Ok(Err(Turn::BadRow { item })),
    }
}

/// The writes of an addition to a property of the row that stands under the key: an unknown property, one of
/// the primary key, or one that does not hold one number is refused before a row that is not there.
pub fn add_at(
    alloc: Global,
    schema: &Schema,
    item: u32,
    number: u8,
    key: &Bytes,
    property: u8,
    old: Option<&Row>,
    by: i64,
) -> Result<Result<Items<Write>, Turn>, NoMemory>
    ensures exact { IfOk result (λ writes. writes ≡ add_at schema.now item number (numbered schema.now.tables number) key.now property (option_copied old.entry) by) }
    ensures inside { IfOk result IsInside }
{
    match table_at(schema, number) {
        Some(table) => add_in(alloc, schema, item, number, table, key, property, old, by),
        None => Ok(Err(Turn::BadRow { item })),
    }
}
