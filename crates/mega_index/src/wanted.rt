//! The places of the rows that may have an entry whose key begins in a given way.
ghost use Rattle.std.specs.Prelude.{◌≡◌, true, List, ℕ, IsSome, None, IfOk, OnOk};
ghost use Rattle.std.specs.BTreeMap.{get};
ghost use Rattle.mega_row_writes.specs.Rows.{key_cmp};
ghost use Rattle.mega_index.specs.Hints.{is_place, is_hinted};
ghost use Rattle.mega_index.specs.Wanted.{is_wanted, begins, KeepsWanted, PlacesWanted};

use crate::hints::{Hints, Place};
use mega_base::{Bytes, Copied, NoMemory};
use std::alloc::Global;
use std::collections::{BTreeMap, BTreeSet};

/// Keys of rows, by their groups.
pub type Wanted = BTreeMap<Bytes, BTreeSet<Bytes>>;

fn add_there(wanted: &mut Wanted, group: &Bytes, key: Bytes) -> Result<(), NoMemory>
    requires { IsSome (get key_cmp wanted.old group.now) }
    ensures kept { OnOk result (KeepsWanted wanted.old wanted.new) }
    ensures there { OnOk result (is_wanted wanted.new group.now key ≡ true) }
{
    match wanted.get_mut(group) {
        Some(keys) => {
            keys.insert(key)?;
            Ok(())
        }
        None => Ok(()),
    }
}

fn add_new(alloc: Global, wanted: &mut Wanted, group: &Bytes, key: Bytes) -> Result<(), NoMemory>
    requires { get key_cmp wanted.old group.now ≡ None }
    ensures kept { OnOk result (KeepsWanted wanted.old wanted.new) }
    ensures there { OnOk result (is_wanted wanted.new group.now key ≡ true) }
{
    let mut keys = BTreeSet::new(alloc);
    keys.insert(key)?;
    let own = group.copy(alloc)?;
    wanted.insert(own, keys)?;
    Ok(())
}

/// Adds a row's place.
fn want(alloc: Global, wanted: &mut Wanted, place: &Place) -> Result<(), NoMemory>
    ensures kept { OnOk result (KeepsWanted wanted.old wanted.new) }
    ensures there { OnOk result ((group key : List ℕ) → is_place group key place.now ≡ true → is_wanted wanted.new group key ≡ true) }
{
    let key = place.key.copy(alloc)?;
    if wanted.contains_key(&place.group) {
        add_there(wanted, &place.group, key)
    } else {
        add_new(alloc, wanted, &place.group, key)
    }
}

/// Adds these places.
fn want_all(alloc: Global, wanted: &mut Wanted, places: &[Place]) -> Result<(), NoMemory>
    ensures kept { OnOk result (KeepsWanted wanted.old wanted.new) }
    ensures there { OnOk result (PlacesWanted places.now wanted.new) }
{
    for place in places {
        want(alloc, wanted, place)?;
    }
    Ok(())
}

/// The places of the rows that may have an entry whose key begins so.
pub fn wanted(alloc: Global, hints: &Hints, front: &Bytes) -> Result<Wanted, NoMemory>
    ensures { IfOk result (λ wanted. (entry group key : List ℕ) → is_hinted hints.now entry group key ≡ true → begins front.now entry ≡ true → is_wanted wanted group key ≡ true) }
{
    let mut wanted = BTreeMap::new(alloc);
    for (entry, places) in hints.range(front..) {
        if !entry.as_slice().starts_with(front.as_slice()) {
            return Ok(wanted);
        }
        want_all(alloc, &mut wanted, places.as_slice())?;
    }
    Ok(wanted)
}
