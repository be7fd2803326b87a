//! Whether a row has the properties that its table declares.
ghost use Rattle.std.specs.Prelude.{◌≡◌};
ghost use Rattle.std.specs.List.{list_all};
ghost use Rattle.std.specs.Option.{option_copied};
ghost use Rattle.mega_keys.specs.Fit.{has_kind};
ghost use Rattle.mega_index.specs.Fits.{numbered, is_count, cell_fits, cells_fit, is_filled, has_required, properties_fit};

use crate::cells::values_at;
use mega_base::{Cell, Kind, Row, Value};
use mega_keys::has_kind;
use mega_schema::{Need, Property, Schema, Table};

/// The table with this number, from 1.
pub fn table_at(schema: &Schema, number: u8) -> Option<&Table>
    ensures { option_copied result ≡ numbered schema.now.tables number }
{
    if number == 0 {
        return None;
    }
    schema.tables.as_slice().get(usize::from(number) - 1)
}

/// The property with this number, from 1.
pub fn property_at(properties: &[Property], number: u8) -> Option<&Property>
    ensures { option_copied result ≡ numbered properties.now number }
{
    if number == 0 {
        return None;
    }
    properties.get(usize::from(number) - 1)
}

/// Whether each value is of the kind.
pub fn are_kind(kind: Kind, values: &[Value]) -> bool
    ensures { result ≡ list_all (has_kind kind) values.now }
{
    values.iter().all(|value| has_kind(kind, value))
}

fn is_count(need: Need, count: usize) -> bool
    ensures { result ≡ is_count need count }
{
    match need {
        Need::Required | Need::Optional => count == 1,
        Need::Repeated => 0 < count,
    }
}

fn cell_fits(property: Option<&Property>, values: &[Value]) -> bool
    ensures { result ≡ cell_fits (option_copied property.entry) values.now }
{
    match property {
        Some(property) => {
            is_count(property.need, values.len()) && are_kind(property.kind, values)
        }
        None => false,
    }
}

/// Whether the numbers of the cells rise, and each cell is one of its property.
fn cells_fit(properties: &[Property], cells: &[Cell]) -> bool
    ensures { result ≡ cells_fit properties.now 0 cells.now }
{
    let mut low = 0;
    for cell in cells {
        if cell.property <= low {
            return false;
        }
        if !cell_fits(
            property_at(properties, cell.property),
            cell.values.as_slice(),
        ) {
            return false;
        }
        low = cell.property;
    }
    true
}

fn is_filled(need: Need, values: &[Value]) -> bool
    ensures { result ≡ is_filled need values.now }
{
    match need {
        Need::Required => !values.is_empty(),
        Need::Optional | Need::Repeated => true,
    }
}

/// Whether each required property has a value.
fn has_required(properties: &[Property], row: &Row) -> bool
    ensures { result ≡ has_required 1 properties.now row.now }
{
    for (place, property) in properties.iter().enumerate() {
        if !is_filled(property.need, values_at(row, place + 1)) {
            return false;
        }
    }
    true
}

/// Whether the row has the properties of the table.
pub fn properties_fit(table: &Table, row: &Row) -> bool
    ensures { result ≡ properties_fit table.now row.now }
{
    let properties = table.properties.as_slice();
    cells_fit(properties, row.cells.as_slice()) && has_required(properties, row)
}
