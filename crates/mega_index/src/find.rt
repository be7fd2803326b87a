//! Finds the entries of a global index that begin with given values, in order of key.
ghost use Rattle.std.specs.Prelude.{◌≡◌, ◌≤◌, true, [], length, map, nat_le, if◌then◌else◌, Some, None, IfOk, IfSome, IfNone};
ghost use Rattle.mega_keys.specs.Spelling.{index_bytes};
ghost use Rattle.mega_index.specs.Fits.{numbered, indexes_of};
ghost use Rattle.mega_index.specs.Entries.{index_of};
ghost use Rattle.mega_index.specs.Finding.{begun_by, found_in};
ghost use Rattle.mega_index.specs.Answers.{GivesOrPlace};
ghost use Rattle.mega_index.specs.Marks.{rows_marked};
ghost use Rattle.mega_index.specs.Hints.{all_hinted};
ghost use Rattle.mega_index.specs.Keeping.{marks_in, values_in, global_of};

use crate::asked::{indexed_kinds, misplaced};
use crate::fault::IndexFault;
use crate::found::Found;
use crate::gather::{Entries, gather};
use crate::held::Held;
use crate::hints::Hints;
use crate::long::indexes_of;
use crate::wanted::wanted;
use mega_base::{Bytes, NoMemory, Value};
use mega_keys::{KeyFault, index_key};
use mega_schema::{Index, Schema};
use std::alloc::Global;
use std::collections::BTreeMap;

/// What the keys of entries with these first values begin with, unless that is longer than any key.
fn front_of(alloc: Global, number: u8, values: &[Value]) -> Result<Option<Bytes>, NoMemory>
    requires { number ≤ 64 }
    ensures { IfOk result (λ front. front ≡ (if nat_le (length (index_bytes number [] values.now [])) 1024 then Some (index_bytes number [] values.now []) else None)) }
{
    match index_key(alloc, number, &[], values, &[]) {
        Ok(front) => Ok(Some(front)),
        Err(KeyFault::NoMemory) => Err(NoMemory),
        Err(_) => Ok(None),
    }
}

/// What is found, in order of the entries' keys.
pub fn values_in(alloc: Global, entries: Entries) -> Result<Vec<Found>, NoMemory>
    ensures { IfOk result (λ found. found.items ≡ values_in entries.entries) }
{
    let mut found = Vec::new(alloc);
    for one in entries.into_values() {
        found.push(one)?;
    }
    Ok(found)
}

/// What is found of the entries whose keys begin so.
fn find_begun(
    alloc: Global,
    schema: &Schema,
    number: u8,
    index: &Index,
    front: &Bytes,
    groups: &BTreeMap<Bytes, Held>,
    hints: &Hints,
) -> Result<Vec<Found>, NoMemory>
    requires few { number ≤ 64 }
    requires there { numbered (indexes_of schema.now) number ≡ Some index.now }
    requires global { index.now.global ≡ true }
    ensures { all_hinted schema.now hints.now (marks_in groups.now.entries) ≡ true → IfOk result (λ found. found.items ≡ begun_by front.now (index_of schema.now number index.now (rows_marked (marks_in groups.now.entries)))) }
{
    let places = wanted(alloc, hints, front)?;
    let entries = gather(alloc, schema, number, index, front, groups, &places)?;
    values_in(alloc, entries)
}

/// What is found in a global index of the entries that begin with these values, in order of key.
pub fn find_in(
    alloc: Global,
    schema: &Schema,
    number: u8,
    index: &Index,
    values: &[Value],
    groups: &BTreeMap<Bytes, Held>,
    hints: &Hints,
) -> Result<Vec<Found>, IndexFault>
    requires few { number ≤ 64 }
    requires there { numbered (indexes_of schema.now) number ≡ Some index.now }
    requires global { index.now.global ≡ true }
    ensures { all_hinted schema.now hints.now (marks_in groups.now.entries) ≡ true → GivesOrPlace (λ found. found.items) result (found_in schema.now number index.now [] values.now (rows_marked (marks_in groups.now.entries))) }
{
    let kinds = indexed_kinds(alloc, schema, index)?;
    if let Some(place) = misplaced(kinds.as_slice(), values) {
        return Err(IndexFault::Kind {
            place: place as u64,
        });
    }
    match front_of(alloc, number, values)? {
        Some(front) => {
            let found = find_begun(alloc, schema, number, index, &front, groups, hints)?;
            Ok(found)
        }
        None => Ok(Vec::new(alloc)),
    }
}

/// The global index with this number, if there is one.
pub fn global_at(schema: &Schema, number: u8) -> Option<&Index>
    ensures there { IfSome result (λ index. (number ≤ 64) × (numbered (indexes_of schema.now) number ≡ Some index.now) × (index.now.global ≡ true)) }
    ensures none { IfNone result (global_of (numbered (indexes_of schema.now) number) ≡ None) }
{
    if number == 0 {
        return None;
    }
    match indexes_of(schema).get(usize::from(number) - 1) {
        Some(index) if index.global => Some(index),
        _ => None,
    }
}
