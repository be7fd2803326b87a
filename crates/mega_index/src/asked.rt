//! The kinds of an index's properties, and the first value asked for that is of another kind.
ghost use Rattle.std.specs.Prelude.{◌≡◌, ◌++◌, flat_map, IfOk, OnOk};
ghost use Rattle.std.specs.Option.{option_copied};
ghost use Rattle.mega_index.specs.Fits.{numbered};
ghost use Rattle.mega_index.specs.Finding.{kind_of, kinds_in, indexed_kinds};
ghost use Rattle.mega_keys.specs.Fit.{misplaced};

use crate::fits::{property_at, table_at};
use mega_base::{Kind, NoMemory, Value};
use mega_keys::has_kind;
use mega_schema::{Index, Property, Schema};
use std::alloc::Global;

/// Adds the kind of a property that is known.
fn push_kind(kinds: &mut Vec<Kind>, property: Option<&Property>) -> Result<(), NoMemory>
    ensures { OnOk result (kinds.new.items ≡ kinds.old.items ++ kind_of (option_copied property.entry)) }
{
    if let Some(property) = property {
        kinds.push(property.kind)?;
    }
    Ok(())
}

fn kinds_of(alloc: Global, properties: &[Property], numbers: &[u8]) -> Result<Vec<Kind>, NoMemory>
    ensures { IfOk result (λ kinds. kinds.items ≡ flat_map (λ n. kind_of (numbered properties.now n)) numbers.now) }
{
    let mut kinds = Vec::new(alloc);
    for number in numbers {
        push_kind(&mut kinds, property_at(properties, *number))?;
    }
    Ok(kinds)
}

/// The kinds of the properties that an index is over, in their order.
pub fn indexed_kinds(alloc: Global, schema: &Schema, index: &Index) -> Result<Vec<Kind>, NoMemory>
    ensures { IfOk result (λ kinds. kinds.items ≡ indexed_kinds schema.now index.now) }
{
    match table_at(schema, index.table) {
        Some(table) => kinds_of(alloc, table.properties.as_slice(), index.indexed.as_slice()),
        None => Ok(Vec::new(alloc)),
    }
}

/// The first value that is of another kind than its place, or has no place.
pub fn misplaced(kinds: &[Kind], values: &[Value]) -> Option<usize>
    ensures { result ≡ misplaced kinds.now values.now 0 }
{
    for (place, value) in values.iter().enumerate() {
        match kinds.get(place).copied() {
            Some(kind) if has_kind(kind, value) => {}
            _ => return Some(place),
        }
    }
    None
}
