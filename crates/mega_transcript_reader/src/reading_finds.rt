//! Finds are read from JSON as they are shown, by the names of a schema. What is the JSON of none is left out.
ghost use Rattle.std.specs.Prelude.{◌≡◌, ◌++◌, ◌∷◌, [], IfOk, OnOk, Some};
ghost use Rattle.serde_json.specs.View.{view, items_view};
ghost use Rattle.mega_keys.specs.Fit.{key_kinds};
ghost use Rattle.mega_schema.specs.Shaping.{table_at, shape_of};
ghost use Rattle.mega_transcript_reader.specs.ReadingRows.{first_or_null, behind, value_in, values_by, found_by, found_in, finds_in};

use crate::named::table_of;
use crate::reading_rows::cells_of;
use crate::reading_values::{list_of, triple_of, value_of};
use mega_base::{Items, Kind, NoMemory, Row, Shape, Value};
use mega_outcome::mega_index::Found;
use mega_schema::{Schema, Table};
use mega_transcript::table_at;
use serde_json::Value as Json;
use std::alloc::Global;

/// Adds these kinds.
fn put_kinds(kinds: &mut Items<Kind>, more: &[Kind]) -> Result<(), NoMemory>
    ensures { OnOk result (kinds.new ≡ kinds.old ++ more.now) }
{
    for kind in more {
        kinds.push(*kind)?;
    }
    Ok(())
}

/// The kinds of the values of a key.
fn key_kinds(alloc: Global, shape: &Shape) -> Result<Items<Kind>, NoMemory>
    ensures { IfOk result (λ made. made ≡ key_kinds shape.now) }
{
    let mut kinds = Items::new(alloc);
    put_kinds(&mut kinds, shape.root_kinds.as_slice())?;
    put_kinds(&mut kinds, shape.rest_kinds.as_slice())?;
    Ok(kinds)
}

/// The kinds of the key of the table with this number.
fn kinds_of(
    alloc: Global,
    schema: &Schema,
    number: u8,
    table: &Table,
) -> Result<Items<Kind>, NoMemory>
    requires { table_at schema.now.tables number ≡ Some table.now }
    ensures { IfOk result (λ made. made ≡ key_kinds (shape_of schema.now number table.now)) }
{
    let _table = table;
    let shape = schema.shape(alloc, number)?;
    key_kinds(alloc, &shape)
}

/// A value of this kind from the first item, or from none.
fn first_value(alloc: Global, kind: Kind, items: &[Json]) -> Result<Value, NoMemory>
    ensures { IfOk result (λ made. made ≡ value_in kind (first_or_null (items_view items.now))) }
{
    match items.split_first() {
        Some((item, _)) => value_of(alloc, kind, item),
        None => value_of(alloc, kind, &Json::Null),
    }
}

/// The items behind the first.
fn behind(items: &[Json]) -> &[Json]
    ensures { items_view result.now ≡ behind (items_view items.now) }
{
    match items.split_first() {
        Some((_, others)) => others,
        None => items,
    }
}

/// A value of each kind, from a list.
fn values_by(alloc: Global, kinds: &[Kind], items: &[Json]) -> Result<Items<Value>, NoMemory>
    ensures { IfOk result (λ made. made ≡ values_by kinds.now (items_view items.now)) }
{
    let mut made = Items::new(alloc);
    let mut left = items;
    for kind in kinds {
        made.push(first_value(alloc, *kind, left)?)?;
        left = behind(left);
    }
    Ok(made)
}

/// What is found of the table with this number.
fn found_of(
    alloc: Global,
    schema: &Schema,
    number: u8,
    table: &Table,
    key: &Json,
    stored: &Json,
) -> Result<Found, NoMemory>
    requires { table_at schema.now.tables number ≡ Some table.now }
    ensures { IfOk result (λ made. made ∷ [] ≡ found_by schema.now number (view key.now) (view stored.now)) }
{
    let kinds = kinds_of(alloc, schema, number, table)?;
    let key = values_by(alloc, kinds.as_slice(), list_of(key))?;
    let cells = cells_of(alloc, table.properties.as_slice(), stored)?;
    let stored = Row::new(alloc, cells)?;
    Ok(Found {
        table: number,
        key,
        stored,
    })
}

/// Adds what is found of the table with this number, where there is such a table.
fn put_found(
    alloc: Global,
    schema: &Schema,
    number: u8,
    key: &Json,
    stored: &Json,
    finds: &mut Items<Found>,
) -> Result<(), NoMemory>
    ensures { OnOk result (finds.new ≡ finds.old ++ found_by schema.now number (view key.now) (view stored.now)) }
{
    match table_at(schema, number) {
        Some(table) => { finds.push(found_of(alloc, schema, number, table, key, stored)?) }
        None => Ok(()),
    }
}

/// Adds what is found, where its table is known.
fn put_find(
    alloc: Global,
    schema: &Schema,
    value: &Json,
    finds: &mut Items<Found>,
) -> Result<(), NoMemory>
    ensures { OnOk result (finds.new ≡ finds.old ++ found_in schema.now (view value.now)) }
{
    match triple_of(list_of(value)) {
        Some((name, key, stored)) => {
            put_found(alloc, schema, table_of(schema, name), key, stored, finds)
        }
        None => Ok(()),
    }
}

/// What is found, item by item.
pub(crate) fn finds_of(
    alloc: Global,
    schema: &Schema,
    value: &Json,
) -> Result<Items<Found>, NoMemory>
    ensures { IfOk result (λ made. made ≡ finds_in schema.now (view value.now)) }
{
    let mut finds = Items::new(alloc);
    for item in list_of(value) {
        put_find(alloc, schema, item, &mut finds)?;
    }
    Ok(finds)
}
