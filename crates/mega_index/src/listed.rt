//! What is found in an index over a list of rows.
ghost use Rattle.std.specs.Prelude.{◌≡◌, ◌≤◌, [], length, map, nat_le, if◌then◌else◌, Some, None, Ok, IfOk};
ghost use Rattle.std.specs.Option.{option_copied};
ghost use Rattle.mega_index.specs.Fits.{numbered};
ghost use Rattle.mega_index.specs.Entries.{index_of};
ghost use Rattle.mega_index.specs.Finding.{begun_by, found_in, found_over, front_of};
ghost use Rattle.mega_index.specs.Wanted.{with_fronts};
ghost use Rattle.mega_index.specs.Answers.{GivesOrPlace};

use crate::asked::{indexed_kinds, misplaced};
use crate::entries::prefix_of;
use crate::fault::IndexFault;
use crate::find::values_in;
use crate::found::Found;
use crate::gather::{Entries, add_row};
use mega_base::{Bytes, NoMemory, Row, Value};
use mega_keys::{KeyFault, index_key};
use mega_schema::{Index, Schema};
use std::alloc::Global;
use std::collections::BTreeMap;

/// What the keys of entries with these first values begin with, unless that is longer than any key.
fn front_of(
    alloc: Global,
    number: u8,
    index: &Index,
    group: &[u8],
    values: &[Value],
) -> Result<Option<Bytes>, NoMemory>
    requires { number ≤ 64 }
    ensures { IfOk result (λ front. front ≡ (if nat_le (length (front_of number index.now group.now values.now)) 1024 then Some (front_of number index.now group.now values.now) else None)) }
{
    match index_key(alloc, number, prefix_of(index, group), values, &[]) {
        Ok(front) => Ok(Some(front)),
        Err(KeyFault::NoMemory) => Err(NoMemory),
        Err(_) => Ok(None),
    }
}

/// The entries of these rows whose keys begin so.
fn entries_of(
    alloc: Global,
    schema: &Schema,
    number: u8,
    index: &Index,
    front: &Bytes,
    rows: &[(Bytes, Row)],
) -> Result<Entries, NoMemory>
    requires { number ≤ 64 }
    ensures { IfOk result (λ entries. entries.entries ≡ with_fronts front.now schema.now number index.now [] rows.now) }
{
    let mut entries = BTreeMap::new(alloc);
    for (key, row) in rows {
        add_row(alloc, &mut entries, schema, number, index, front, key, row)?;
    }
    Ok(entries)
}

/// What is found over these rows of the entries whose keys begin so.
fn find_begun(
    alloc: Global,
    schema: &Schema,
    number: u8,
    index: &Index,
    front: &Bytes,
    rows: &[(Bytes, Row)],
) -> Result<Vec<Found>, NoMemory>
    requires { number ≤ 64 }
    ensures { IfOk result (λ found. found.items ≡ begun_by front.now (index_of schema.now number index.now rows.now)) }
{
    let entries = entries_of(alloc, schema, number, index, front, rows)?;
    values_in(alloc, entries)
}

/// What is found over these rows in an index of the entries that begin with these values.
fn find_in(
    alloc: Global,
    schema: &Schema,
    number: u8,
    index: &Index,
    group: &[u8],
    values: &[Value],
    rows: &[(Bytes, Row)],
) -> Result<Vec<Found>, IndexFault>
    requires { number ≤ 64 }
    ensures { GivesOrPlace (λ found. found.items) result (found_in schema.now number index.now group.now values.now rows.now) }
{
    let kinds = indexed_kinds(alloc, schema, index)?;
    if let Some(place) = misplaced(kinds.as_slice(), values) {
        return Err(IndexFault::Kind {
            place: place as u64,
        });
    }
    match front_of(alloc, number, index, group, values)? {
        Some(front) => {
            let found = find_begun(alloc, schema, number, index, &front, rows)?;
            Ok(found)
        }
        None => Ok(Vec::new(alloc)),
    }
}

/// The index with this number, from 1.
fn index_at(schema: &Schema, number: u8) -> Option<&Index>
    ensures { option_copied result ≡ numbered schema.now.indexes number }
{
    if number == 0 {
        return None;
    }
    schema.indexes.as_slice().get(usize::from(number) - 1)
}

/// What is found over rows in the index with this number, from 1 to 64, of the entries that begin with these values,
/// in order of key: nothing where there is no such index, and the place of the first value of another kind than its
/// place. The group is that of a local index.
pub fn find_over(
    alloc: Global,
    schema: &Schema,
    number: u8,
    group: &[u8],
    values: &[Value],
    rows: &[(Bytes, Row)],
) -> Result<Vec<Found>, IndexFault>
    requires { number ≤ 64 }
    ensures { GivesOrPlace (λ found. found.items) result (found_over schema.now number group.now values.now rows.now) }
{
    match index_at(schema, number) {
        Some(index) => find_in(alloc, schema, number, index, group, values, rows),
        None => Ok(Vec::new(alloc)),
    }
}
