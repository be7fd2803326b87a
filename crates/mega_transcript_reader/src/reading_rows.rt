//! Rows are read from JSON as they are shown, by the names of a schema. What is the JSON of no plain row is read as
//! another, whose line differs.
ghost use Rattle.std.specs.Prelude.{◌≡◌, ◌++◌, IfOk, OnOk};
ghost use Rattle.serde_json.specs.Find.{get};
ghost use Rattle.serde_json.specs.View.{view};
ghost use Rattle.mega_transcript_reader.specs.ReadingRows.{values_in, cell_if, cell_in, cells_in, shown_by, shown_in};

use crate::named::{own_number, table_of};
use crate::reading_values::{FromJson, each_value, list_of, pair_of, value_of};
use mega_base::{Cell, Items, NoMemory, Row, Value};
use mega_outcome::Shown;
use mega_schema::{Property, Schema};
use mega_transcript::{is_repeated, table_at};
use serde_json::Value as Json;
use std::alloc::Global;

/// One value, or those of a repeated property in a list.
fn values_of(alloc: Global, property: &Property, value: &Json) -> Result<Items<Value>, NoMemory>
    ensures { IfOk result (λ made. made ≡ values_in property.now (view value.now)) }
{
    if is_repeated(property.need) {
        return each_value(alloc, property.kind, value);
    }
    let mut made = Items::new(alloc);
    made.push(value_of(alloc, property.kind, value)?)?;
    Ok(made)
}

/// Adds a cell where there are values.
fn put_values(cells: &mut Items<Cell>, property: u8, values: Items<Value>) -> Result<(), NoMemory>
    ensures { OnOk result (cells.new ≡ cells.old ++ cell_if property values) }
{
    if values.is_empty() {
        return Ok(());
    }
    cells.push(Cell { property, values })
}

/// Adds the cell of the property with this number, where it is there.
fn put_cell(
    alloc: Global,
    cells: &mut Items<Cell>,
    properties: &[Property],
    number: usize,
    property: &Property,
    object: &Json,
) -> Result<(), NoMemory>
    ensures { OnOk result (cells.new ≡ cells.old ++ cell_in properties.now number property.now (get property.now.name (view object.now))) }
{
    let name = property.name.as_str();
    let Some(value) = object.get(name) else {
        return Ok(());
    };
    match own_number(properties, number, name) {
        Some(own) => {
            let values = values_of(alloc, property, value)?;
            put_values(cells, own, values)
        }
        None => Ok(()),
    }
}

/// The cells of the properties that are there.
pub(crate) fn cells_of(
    alloc: Global,
    properties: &[Property],
    object: &Json,
) -> Result<Items<Cell>, NoMemory>
    ensures { IfOk result (λ made. made ≡ cells_in properties.now 1 properties.now (view object.now)) }
{
    let mut cells = Items::new(alloc);
    for (place, property) in properties.iter().enumerate() {
        put_cell(alloc, &mut cells, properties, place + 1, property, object)?;
    }
    Ok(cells)
}

/// A row of the table with this number, or none where there is no such table.
fn shown_by(
    alloc: Global,
    schema: &Schema,
    number: u8,
    row: &Json,
) -> Result<Option<Shown>, NoMemory>
    ensures { IfOk result (λ made. made ≡ shown_by schema.now number (view row.now)) }
{
    match table_at(schema, number) {
        Some(table) => {
            let cells = cells_of(alloc, table.properties.as_slice(), row)?;
            let row = Row::new(alloc, cells)?;
            Ok(Some(Shown { table: number, row }))
        }
        None => Ok(None),
    }
}

impl FromJson for Option<Shown> {
    ghost told = { shown_in };

    fn read(alloc: Global, schema: &Schema, value: &Json) -> Result<Option<Shown>, NoMemory> {
        match pair_of(list_of(value)) {
            Some((name, row)) => shown_by(alloc, schema, table_of(schema, name), row),
            None => Ok(None),
        }
    }
}
