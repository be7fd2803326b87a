//! The texts, numbers and lists of a line's fields, and the values in places of a kind.
ghost use Rattle.std.specs.Prelude.{◌≡◌, ◌++◌, Some, IfOk, OnOk, position};
ghost use Rattle.std.specs.Option.{option_copied};
ghost use Rattle.serde_json.specs.Find.{get};
ghost use Rattle.serde_json.specs.View.{view, items_view};
ghost use Rattle.mega_syntax.specs.Names.{same};
ghost use Rattle.mega_schema.specs.Rules.{kind_at};
ghost use Rattle.mega_schema.specs.Shaping.{table_at, shape_of};
ghost use Rattle.mega_keys.specs.Answers.{group_key_of};
ghost use Rattle.mega_outcome.specs.of_index.Fits.{numbered};
ghost use Rattle.mega_schedule.specs.Values.{text_in, number_in, whole_in, list_in, byte_in, is_int32, number_value, bytes_of, text_value, value_of, first_kind, others, values_at, number_of_place, table_number, property_number, properties_of, primary_of, key_in, group_or_none, group_in, group_named, group_of, no_group};

use crate::fields::{is_hex, pair_of};
use crate::form::same;
use hex::FromHexError;
use mega_base::{Bytes, GroupId, Items, Kind, NoMemory, Shape, Text, Value};
use mega_keys::{KeyFault, group_of as spell_group};
use mega_schema::{Property, Schema, Table};
use serde_json::Value as Json;
use std::alloc::Global;

/// A text, or none where the value is none.
pub fn text_of(value: &Json) -> &str
    ensures { result.now ≡ text_in (Some (view value.now)) }
{
    value.as_str().unwrap_or("")
}

/// The text of a field, or none where it has none.
pub fn text_in<'a>(object: &'a Json, name: &str) -> &'a str
    ensures { result.now ≡ text_in (get name.now (view object.now)) }
{
    match object.get(name) {
        Some(value) => text_of(value),
        None => "",
    }
}

/// The number of a field, or 0 where it has none.
pub(crate) fn number_in(object: &Json, name: &str) -> u64
    ensures { result ≡ number_in (get name.now (view object.now)) }
{
    match object.get(name) {
        Some(value) => value.as_u64().unwrap_or(0),
        None => 0,
    }
}

/// The number of a field that fits into a byte, or 0 where it has none.
pub(crate) fn byte_in(object: &Json, name: &str) -> u8
    ensures { result ≡ byte_in (get name.now (view object.now)) }
{
    let number = number_in(object, name);
    if number < 256 { number as u8 } else { 0 }
}

fn whole_of(value: &Json) -> i64
    ensures { result ≡ whole_in (Some (view value.now)) }
{
    value.as_i64().unwrap_or(0)
}

/// The signed number of a field, or 0 where it has none.
pub(crate) fn whole_in(object: &Json, name: &str) -> i64
    ensures { result ≡ whole_in (get name.now (view object.now)) }
{
    match object.get(name) {
        Some(value) => whole_of(value),
        None => 0,
    }
}

/// The items of a list, or none where the value is none.
pub fn list_of(value: &Json) -> &[Json]
    ensures { items_view result.now ≡ list_in (Some (view value.now)) }
{
    match value.as_array() {
        Some(items) => items.as_slice(),
        None => &[],
    }
}

/// The items of a field's list, or none where it has none.
pub fn list_in<'a>(object: &'a Json, name: &str) -> &'a [Json]
    ensures { items_view result.now ≡ list_in (get name.now (view object.now)) }
{
    match object.get(name) {
        Some(value) => list_of(value),
        None => &[],
    }
}

fn is_int32(number: i64) -> bool
    ensures { result ≡ is_int32 number }
{
    -2_147_483_648 <= number && number < 2_147_483_648
}

/// An int32 where the place has that kind and the number fits, else an int64.
fn number_value(kind: Option<Kind>, number: i64) -> Value
    ensures { result ≡ number_value kind number }
{
    match kind {
        Some(Kind::Int32) => {
            if is_int32(number) {
                Value::Int32(number as i32)
            } else {
                Value::Int64(number)
            }
        }
        _ => Value::Int64(number),
    }
}

/// The bytes of a text of hex digits, or none where it is none.
pub fn bytes_of(alloc: Global, text: &str) -> Result<Bytes, NoMemory>
    ensures { IfOk result (λ made. made ≡ bytes_of text.now) }
{
    match hex::decode(alloc, text.as_bytes()) {
        Ok(bytes) => Ok(Bytes::from_vec(bytes)),
        Err(FromHexError::OutOfMemory) => Err(NoMemory),
        Err(_) => Ok(Bytes::new(alloc)),
    }
}

/// Bytes where the place has that kind and the text is hex, else a text.
fn text_value(alloc: Global, kind: Option<Kind>, text: &str) -> Result<Value, NoMemory>
    ensures { IfOk result (λ made. made ≡ text_value kind text.now) }
{
    match kind {
        Some(Kind::Raw) => {
            if is_hex(text.as_bytes()) {
                Ok(Value::Raw(bytes_of(alloc, text)?))
            } else {
                Ok(Value::Str(Text::from_str(alloc, text)?))
            }
        }
        _ => Ok(Value::Str(Text::from_str(alloc, text)?)),
    }
}

/// The value in a place of this kind.
pub(crate) fn value_of(alloc: Global, kind: Option<Kind>, value: &Json) -> Result<Value, NoMemory>
    ensures { IfOk result (λ made. made ≡ value_of kind (view value.now)) }
{
    if let Some(truth) = value.as_bool() {
        return Ok(Value::Bool(truth));
    }
    match value.as_str() {
        Some(text) => text_value(alloc, kind, text),
        None => Ok(number_value(kind, whole_of(value))),
    }
}

/// The kind of the property with this number.
pub(crate) fn kind_at(properties: &[Property], number: u8) -> Option<Kind>
    ensures { result ≡ kind_at properties.now number }
{
    match numbered(properties, number) {
        Some(property) => Some(property.kind),
        None => None,
    }
}

/// The item with this number, counted from 1.
pub(crate) fn numbered<T>(items: &[T], number: u8) -> Option<&T>
    ensures { option_copied result ≡ numbered items.now number }
{
    if number == 0 {
        return None;
    }
    items.get(usize::from(number) - 1)
}

/// The kind of the first place, and the places behind it.
fn first_kind<'a>(properties: &[Property], places: &'a [u8]) -> (Option<Kind>, &'a [u8])
    ensures kind { result.0 ≡ first_kind properties.now places.now }
    ensures behind { result.1.now ≡ others places.now }
{
    match places.split_first() {
        Some((number, others)) => (kind_at(properties, *number), others),
        None => (None, places),
    }
}

/// Values in the places of these properties; those behind them have no kind.
pub(crate) fn values_at(
    alloc: Global,
    properties: &[Property],
    places: &[u8],
    items: &[Json],
) -> Result<Items<Value>, NoMemory>
    ensures { IfOk result (λ made. made ≡ values_at properties.now places.now (items_view items.now)) }
{
    let mut made = Items::new(alloc);
    let mut left = places;
    for item in items {
        let (kind, others) = first_kind(properties, left);
        made.push(value_of(alloc, kind, item)?)?;
        left = others;
    }
    Ok(made)
}

/// The number of the item at a place, counted from 1; 0 where there is none.
pub(crate) fn number_of_place(place: Option<usize>) -> u8
    ensures { result ≡ number_of_place place }
{
    match place {
        Some(place) => { if place < 255 { place as u8 + 1 } else { 0 } }
        None => 0,
    }
}

fn table_place(tables: &[Table], name: &str) -> Option<usize>
    ensures { result ≡ position (λ t. same t.name name.now) tables.now }
{
    tables
        .iter()
        .position(|table| same(table.name.as_str(), name))
}

/// The number of the table with this name, or 0.
pub fn table_number(schema: &Schema, name: &str) -> u8
    ensures { result ≡ table_number schema.now name.now }
{
    number_of_place(table_place(schema.tables.as_slice(), name))
}

fn property_place(properties: &[Property], name: &str) -> Option<usize>
    ensures { result ≡ position (λ p. same p.name name.now) properties.now }
{
    properties
        .iter()
        .position(|property| same(property.name.as_str(), name))
}

/// The number of the property with this name, or 0.
pub(crate) fn property_number(properties: &[Property], name: &str) -> u8
    ensures { result ≡ property_number properties.now name.now }
{
    number_of_place(property_place(properties, name))
}

/// The properties of a table, or none where there is no such table.
pub fn properties_of(table: Option<&Table>) -> &[Property]
    ensures { result.now ≡ properties_of (option_copied table.entry) }
{
    match table {
        Some(table) => table.properties.as_slice(),
        None => &[],
    }
}

/// The values of a key of the table.
pub(crate) fn key_in(
    alloc: Global,
    table: Option<&Table>,
    items: &[Json],
) -> Result<Items<Value>, NoMemory>
    ensures { IfOk result (λ made. made ≡ key_in (option_copied table.entry) (items_view items.now)) }
{
    match table {
        Some(table) => {
            values_at(
                alloc,
                table.properties.as_slice(),
                table.primary.as_slice(),
                items,
            )
        }
        None => values_at(alloc, &[], &[], items),
    }
}

/// How the keys of the table with this number are spelled.
fn shape_of(alloc: Global, schema: &Schema, number: u8, table: &Table) -> Result<Shape, NoMemory>
    requires { numbered schema.now.tables number ≡ Some table.now }
    ensures { IfOk result (λ shape. shape ≡ shape_of schema.now number table.now) }
{
    let _table = table;
    schema.shape(alloc, number)
}

/// The group of a root with these key values, or the empty one where they have no key.
fn root_group(
    alloc: Global,
    schema: &Schema,
    number: u8,
    table: &Table,
    items: &[Json],
) -> Result<GroupId, NoMemory>
    requires { numbered schema.now.tables number ≡ Some table.now }
    ensures { IfOk result (λ made. made ≡ group_or_none (group_key_of (shape_of schema.now number table.now) (key_in (Some table.now) (items_view items.now)))) }
{
    let shape = shape_of(alloc, schema, number, table)?;
    let key = key_in(alloc, Some(table), items)?;
    match spell_group(alloc, &shape, key.as_slice()) {
        Ok(group) => Ok(group),
        Err(KeyFault::NoMemory) => Err(NoMemory),
        Err(_) => no_group(alloc),
    }
}

fn no_group(alloc: Global) -> Result<GroupId, NoMemory>
    ensures { IfOk result (λ made. made ≡ no_group) }
{
    GroupId::new(alloc, Bytes::new(alloc))
}

/// The group of the root with this name and these key values, or the empty one.
fn group_named(
    alloc: Global,
    schema: &Schema,
    name: &str,
    items: &[Json],
) -> Result<GroupId, NoMemory>
    ensures { IfOk result (λ made. made ≡ group_named schema.now name.now (items_view items.now)) }
{
    let number = table_number(schema, name);
    match numbered(schema.tables.as_slice(), number) {
        Some(table) => {
            if table.group.is_empty() {
                root_group(alloc, schema, number, table, items)
            } else {
                no_group(alloc)
            }
        }
        None => no_group(alloc),
    }
}

/// The group that a field tells, or the empty one where it fits no root.
pub(crate) fn group_in(
    alloc: Global,
    schema: &Schema,
    object: &Json,
    name: &str,
) -> Result<GroupId, NoMemory>
    ensures { IfOk result (λ made. made ≡ group_of schema.now (get name.now (view object.now))) }
{
    match pair_of(list_in(object, name)) {
        Some((table, values)) => group_named(alloc, schema, text_of(table), list_of(values)),
        None => no_group(alloc),
    }
}
