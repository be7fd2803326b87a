//! The numbers of tables and properties by the names in a schema.
ghost use Rattle.std.specs.Prelude.{◌≡◌, if◌then◌else◌, Some, None, position};
ghost use Rattle.serde_json.specs.View.{view};
ghost use Rattle.mega_syntax.specs.Names.{same};
ghost use Rattle.mega_transcript.specs.Named.{number_of_place, table_number, property_number, names_property};
ghost use Rattle.mega_transcript_reader.specs.ReadingRows.{text_in};

use crate::kinds::is;
use crate::reading_values::text_of;
use mega_schema::{Property, Schema, Table};
use serde_json::Value as Json;

/// The number of the item at a place, counted from 1; 0 where there is none.
fn number_of_place(place: Option<usize>) -> u8
    ensures { result ≡ number_of_place place }
{
    match place {
        Some(place) => { if place < 255 { place as u8 + 1 } else { 0 } }
        None => 0,
    }
}

fn table_place(tables: &[Table], name: &[u8]) -> Option<usize>
    ensures { result ≡ position (λ t. same t.name name.now) tables.now }
{
    tables
        .iter()
        .position(|table| is(table.name.as_bytes(), name))
}

/// The number of the first table with this name, or 0.
fn table_number(tables: &[Table], name: &[u8]) -> u8
    ensures { result ≡ table_number tables.now name.now }
{
    number_of_place(table_place(tables, name))
}

/// The number of the table that is named, or 0.
pub(crate) fn table_of(schema: &Schema, name: &Json) -> u8
    ensures { result ≡ table_number schema.now.tables (text_in (view name.now)) }
{
    table_number(schema.tables.as_slice(), text_of(name).as_bytes())
}

fn property_place(properties: &[Property], name: &[u8]) -> Option<usize>
    ensures { result ≡ position (λ p. same p.name name.now) properties.now }
{
    properties
        .iter()
        .position(|property| is(property.name.as_bytes(), name))
}

/// The number of the first property with this name, or 0.
fn property_number(properties: &[Property], name: &[u8]) -> u8
    ensures { result ≡ property_number properties.now name.now }
{
    number_of_place(property_place(properties, name))
}

/// The number, where the name is that of the property with this number.
#[tactic(auto, using(crate::proofs::Parts::named))]
pub(crate) fn own_number(properties: &[Property], number: usize, name: &str) -> Option<u8>
    ensures { result ≡ (if names_property properties.now number name.now then Some number else None) }
{
    let named = property_number(properties, name.as_bytes());
    if usize::from(named) == number {
        Some(named)
    } else {
        None
    }
}
