//! The keys of a row's index entries, and the first that is too long.
ghost use Rattle.std.specs.Prelude.{◌≡◌, ◌≤◌, ◌++◌, [], ◌∷◌, length, filter, map, nat_le, nat_lt, if◌then◌else◌, Some, None, IfOk, OnOk};
ghost use Rattle.mega_index.specs.Fits.{prefix_of, index_keys, entry_keys, first_long};
ghost use Rattle.mega_keys.specs.Spelling.{index_bytes};

use crate::choices::choices;
use mega_base::{Bytes, Items, NoMemory, Row, Value};
use mega_keys::{KeyFault, index_key};
use mega_schema::Index;
use std::alloc::Global;

/// What stands before the number of an index in its keys.
pub fn prefix_of<'a>(index: &Index, group: &'a [u8]) -> &'a [u8]
    ensures { result.now ≡ prefix_of index.now group.now }
{
    if index.global { &[] } else { group }
}

/// Adds the key of an entry, where it is not too long.
fn push_key(
    alloc: Global,
    number: u8,
    prefix: &[u8],
    indexed: &[Value],
    key: &[Value],
    out: &mut Vec<Bytes>,
) -> Result<(), NoMemory>
    requires { number ≤ 64 }
    ensures { OnOk result (out.new.items ≡ out.old.items ++ (if nat_le (length (index_bytes number prefix.now indexed.now key.now)) 1024 then index_bytes number prefix.now indexed.now key.now ∷ [] else [])) }
{
    match index_key(alloc, number, prefix, indexed, key) {
        Ok(made) => {
            out.push(made)?;
            Ok(())
        }
        Err(KeyFault::NoMemory) => Err(NoMemory),
        Err(_) => Ok(()),
    }
}

/// The keys of a row's entries in an index, but for those that are too long.
pub fn entry_keys(
    alloc: Global,
    number: u8,
    index: &Index,
    group: &[u8],
    key: &[Value],
    row: &Row,
) -> Result<Vec<Bytes>, NoMemory>
    requires { number ≤ 64 }
    ensures { IfOk result (λ keys. keys.items ≡ entry_keys number index.now group.now key.now row.now) }
{
    let chosen = choices(alloc, row, index.indexed.as_slice())?;
    keys_of(
        alloc,
        number,
        prefix_of(index, group),
        chosen.as_slice(),
        key,
    )
}

fn keys_of(
    alloc: Global,
    number: u8,
    prefix: &[u8],
    chosen: &[Items<Value>],
    key: &[Value],
) -> Result<Vec<Bytes>, NoMemory>
    requires { number ≤ 64 }
    ensures { IfOk result (λ keys. keys.items ≡ filter (λ k. nat_le (length k) 1024) (map (λ choice. index_bytes number prefix.now choice key.now) chosen.now)) }
{
    let mut keys = Vec::new(alloc);
    for choice in chosen {
        push_key(alloc, number, prefix, choice.as_slice(), key, &mut keys)?;
    }
    Ok(keys)
}

/// The length of a key of an entry, where it is too long.
fn long_one(
    alloc: Global,
    number: u8,
    prefix: &[u8],
    indexed: &[Value],
    key: &[Value],
) -> Result<Option<u64>, NoMemory>
    requires { number ≤ 64 }
    ensures { IfOk result (λ found. found ≡ (if nat_lt 1024 (length (index_bytes number prefix.now indexed.now key.now)) then Some (length (index_bytes number prefix.now indexed.now key.now)) else None)) }
{
    match index_key(alloc, number, prefix, indexed, key) {
        Err(KeyFault::TooLong { length }) => Ok(Some(length)),
        Err(KeyFault::NoMemory) => Err(NoMemory),
        _ => Ok(None),
    }
}

fn long_among(
    alloc: Global,
    number: u8,
    prefix: &[u8],
    chosen: &[Items<Value>],
    key: &[Value],
) -> Result<Option<u64>, NoMemory>
    requires { number ≤ 64 }
    ensures { IfOk result (λ found. found ≡ first_long (map (λ choice. index_bytes number prefix.now choice key.now) chosen.now)) }
{
    for choice in chosen {
        let long = long_one(alloc, number, prefix, choice.as_slice(), key)?;
        if long.is_some() {
            return Ok(long);
        }
    }
    Ok(None)
}

/// The length of the first key of a row in an index that is too long.
pub fn first_long(
    alloc: Global,
    number: u8,
    index: &Index,
    group: &[u8],
    key: &[Value],
    row: &Row,
) -> Result<Option<u64>, NoMemory>
    requires { number ≤ 64 }
    ensures { IfOk result (λ found. found ≡ first_long (index_keys number index.now group.now key.now row.now)) }
{
    let chosen = choices(alloc, row, index.indexed.as_slice())?;
    long_among(
        alloc,
        number,
        prefix_of(index, group),
        chosen.as_slice(),
        key,
    )
}
