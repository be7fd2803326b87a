//! Shows values, rows and groups as JSON, by the names of a schema.
ghost use Rattle.std.specs.Prelude.{◌≡◌, ◌++◌, ◌∷◌, [], map, IfOk, OnOk, false};
ghost use Rattle.std.specs.Option.{option_copied};
ghost use Rattle.hex.specs.Hex.{encode_lower};
ghost use Rattle.serde_json.specs.Data.{string, array, object, no_members};
ghost use Rattle.serde_json.specs.View.{view, items_of, members_view};
ghost use Rattle.mega_keys.specs.Reading.{read_key_of};
ghost use Rattle.mega_schema.specs.Shaping.{shape_of};
ghost use Rattle.mega_index.specs.Fits.{numbered};
ghost use Rattle.mega_backup.specs.Spelling.{cell_data, cells_members, group_data, name_of, properties_of, root_number, root_values, row_data, value_data, values_data, values_or_none, with_cell};

use mega_backup_rows::shape_of;
use mega_base::{Bytes, Cell, Items, NoMemory, Row, Value};
use mega_index::{property_at, table_at};
use mega_keys::{KeyFault, read_key};
use mega_schema::{Need, Property, Schema, Table};
use serde_json::{Map, Value as Json};
use std::alloc::Global;

/// Bytes as a string of lower-case hex.
fn hex_value(alloc: Global, bytes: &Bytes) -> Result<Json, NoMemory>
    ensures { IfOk result (λ made. view made ≡ string (encode_lower bytes.now)) }
{
    let text = hex::encode(alloc, bytes.as_slice())?;
    Ok(Json::from(text))
}

fn value_json(alloc: Global, value: &Value) -> Result<Json, NoMemory>
    ensures { IfOk result (λ made. view made ≡ value_data value.now) }
{
    match value {
        Value::Int32(number) => Ok(Json::from(*number)),
        Value::Int64(number) => Ok(Json::from(*number)),
        Value::Bool(truth) => Ok(Json::from(*truth)),
        Value::Str(text) => Ok(Json::try_from_str(alloc, text.as_str())?),
        Value::Raw(bytes) => hex_value(alloc, bytes),
    }
}

fn values_json(alloc: Global, values: &[Value]) -> Result<Json, NoMemory>
    ensures { IfOk result (λ made. view made ≡ values_data values.now) }
{
    let mut made = Vec::new(alloc);
    for value in values {
        made.push(value_json(alloc, value)?)?;
    }
    Ok(Json::Array(made))
}

/// One value as it is, those of a repeated property as a list.
fn cell_json(alloc: Global, need: Need, values: &[Value]) -> Result<Json, NoMemory>
    ensures { IfOk result (λ made. view made ≡ cell_data need values.now) }
{
    match values.first() {
        Some(value) if !matches!(need, Need::Repeated) => value_json(alloc, value),
        _ => values_json(alloc, values),
    }
}

/// Adds a cell's values under the name of its property.
fn put_cell(
    alloc: Global,
    properties: &[Property],
    cell: &Cell,
    members: &mut Map<String, Json>,
) -> Result<(), NoMemory>
    ensures { OnOk result (members_view members.new.entries ≡ with_cell (numbered properties.now cell.now.property) cell.now.values (members_view members.old.entries)) }
{
    let Some(property) = property_at(properties, cell.property) else {
        return Ok(());
    };
    let name = String::from_str(alloc, property.name.as_str())?;
    let value = cell_json(alloc, property.need, cell.values.as_slice())?;
    members.insert(name, value)?;
    Ok(())
}

fn cells_json(alloc: Global, properties: &[Property], cells: &[Cell]) -> Result<Json, NoMemory>
    ensures { IfOk result (λ made. view made ≡ object (cells_members properties.now cells.now no_members)) }
{
    let mut members = Map::new(alloc);
    for cell in cells {
        put_cell(alloc, properties, cell, &mut members)?;
    }
    Ok(Json::Object(members))
}

/// A row of a table, by the names of its properties.
pub fn row_json(alloc: Global, table: Option<&Table>, row: &Row) -> Result<Json, NoMemory>
    ensures { IfOk result (λ made. view made ≡ row_data (option_copied table.entry) row.now) }
{
    match table {
        Some(table) => cells_json(alloc, table.properties.as_slice(), row.cells.as_slice()),
        None => cells_json(alloc, &[], row.cells.as_slice()),
    }
}

/// The name of a table, none where there is no such table.
pub fn name_json(alloc: Global, table: Option<&Table>) -> Result<Json, NoMemory>
    ensures { IfOk result (λ made. view made ≡ string (name_of (option_copied table.entry))) }
{
    match table {
        Some(table) => Ok(Json::try_from_str(alloc, table.name.as_str())?),
        None => Ok(Json::try_from_str(alloc, "")?),
    }
}

/// A list of two values.
fn pair(alloc: Global, first: Json, second: Json) -> Result<Json, NoMemory>
    ensures { IfOk result (λ made. view made ≡ array (items_of (view first ∷ view second ∷ []))) }
{
    let mut items = Vec::new(alloc);
    items.push(first)?;
    items.push(second)?;
    Ok(Json::from(items))
}

fn root_number(key: &[u8]) -> u8
    ensures { result ≡ root_number key.now }
{
    match key {
        [number, ..] => *number,
        [] => 0,
    }
}

/// The values that a row key spells, none where the bytes are no row key of this table.
fn key_values(
    alloc: Global,
    schema: &Schema,
    number: u8,
    table: &Table,
    row_key: &[u8],
) -> Result<Items<Value>, NoMemory>
    requires { numbered schema.now.tables number ≡ Some table.now }
    ensures { IfOk result (λ values. values ≡ values_or_none (read_key_of (shape_of schema.now number table.now) row_key.now)) }
{
    let shape = shape_of(alloc, schema, number, table)?;
    match read_key(alloc, &shape, row_key) {
        Ok(values) => Ok(values),
        Err(KeyFault::NoMemory) => Err(NoMemory),
        Err(_) => Ok(Items::new(alloc)),
    }
}

/// The values that a key of this table spells, none where it spells none.
fn values_of(
    alloc: Global,
    schema: &Schema,
    number: u8,
    table: &Table,
    key: &[u8],
) -> Result<Items<Value>, NoMemory>
    requires { numbered schema.now.tables number ≡ Some table.now }
    ensures { IfOk result (λ values. values ≡ root_values schema.now number (Some table.now) key.now) }
{
    let mut row_key = Bytes::from_slice(alloc, key)?;
    row_key.push(number)?;
    key_values(alloc, schema, number, table, row_key.as_slice())
}

/// The root key values of a group.
fn root_values(
    alloc: Global,
    schema: &Schema,
    number: u8,
    key: &[u8],
) -> Result<Items<Value>, NoMemory>
    ensures { IfOk result (λ values. values ≡ root_values schema.now number (numbered schema.now.tables number) key.now) }
{
    match table_at(schema, number) {
        Some(table) => values_of(alloc, schema, number, table, key),
        None => Ok(Items::new(alloc)),
    }
}

/// The root key values of a group, as a list.
fn root_values_json(
    alloc: Global,
    schema: &Schema,
    number: u8,
    key: &[u8],
) -> Result<Json, NoMemory>
    ensures { IfOk result (λ made. view made ≡ values_data (root_values schema.now number (numbered schema.now.tables number) key.now)) }
{
    let values = root_values(alloc, schema, number, key)?;
    values_json(alloc, values.as_slice())
}

/// A group: its root's name, and its root key values.
pub fn group_json(alloc: Global, schema: &Schema, key: &[u8]) -> Result<Json, NoMemory>
    ensures { IfOk result (λ made. view made ≡ group_data schema.now key.now) }
{
    let number = root_number(key);
    let values = root_values_json(alloc, schema, number, key)?;
    let name = name_json(alloc, table_at(schema, number))?;
    pair(alloc, name, values)
}
