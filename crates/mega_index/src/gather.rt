//! Gathers the entries of the rows that are wanted, by their keys.
ghost use Rattle.std.specs.Prelude.{◌≡◌, ◌≤◌, filter, [], ◌∷◌, if◌then◌else◌, Some, IfOk, OnOk};
ghost use Rattle.mega_index.specs.Fits.{numbered};
ghost use Rattle.mega_index.specs.Entries.{placed, found_of};
ghost use Rattle.mega_index.specs.Wanted.{begins, with_front, with_front_in, with_fronts, rows_wanted, all_wanted};
ghost use Rattle.std.specs.Option.{option_copied};
ghost use Rattle.mega_index.specs.Marks.{held_rows};
ghost use Rattle.mega_index.specs.Keeping.{marks_in, rows_at, group_wanted};

use crate::cells::{key_values, row_with};
use crate::entries::entry_keys;
use crate::fits::table_at;
use crate::found::Found;
use crate::held::{Held, Slots};
use crate::keys::group_bytes_of;
use crate::standing::stands_in;
use crate::wanted::Wanted;
use mega_base::{Bytes, Copied, Items, NoMemory, Row};
use mega_schema::{Index, Schema, Table};
use std::alloc::Global;
use std::collections::{BTreeMap, BTreeSet};

/// What is found, by the keys of the entries.
pub type Entries = BTreeMap<Bytes, Found>;

/// What an index names of a row of its table.
fn found_of(alloc: Global, index: &Index, table: &Table, row: &Row) -> Result<Found, NoMemory>
    ensures { IfOk result (λ found. found ≡ found_of index.now table.now row.now) }
{
    let key = key_values(alloc, table.primary.as_slice(), row)?;
    let stored = row_with(alloc, index.storing.as_slice(), row)?;
    Ok(Found {
        table: index.table,
        key: Items::from_vec(key),
        stored,
    })
}

/// Adds what is found under a key, where the key begins so.
fn place_one(
    alloc: Global,
    entries: &mut Entries,
    found: &Found,
    key: Bytes,
    front: &Bytes,
) -> Result<(), NoMemory>
    ensures { OnOk result (entries.new.entries ≡ placed entries.old.entries found.now (if begins front.now key then key ∷ [] else [])) }
{
    if !key.as_slice().starts_with(front.as_slice()) {
        return Ok(());
    }
    let found = found.copy(alloc)?;
    entries.insert(key, found)?;
    Ok(())
}

fn place_all(
    alloc: Global,
    entries: &mut Entries,
    found: &Found,
    keys: Vec<Bytes>,
    front: &Bytes,
) -> Result<(), NoMemory>
    ensures { OnOk result (entries.new.entries ≡ placed entries.old.entries found.now (filter (begins front.now) keys.items)) }
{
    for key in keys {
        place_one(alloc, entries, found, key, front)?;
    }
    Ok(())
}

fn add_in(
    alloc: Global,
    entries: &mut Entries,
    schema: &Schema,
    number: u8,
    index: &Index,
    front: &Bytes,
    table: &Table,
    key: &Bytes,
    row: &Row,
) -> Result<(), NoMemory>
    requires few { number ≤ 64 }
    requires there { numbered schema.now.tables index.now.table ≡ Some table.now }
    ensures { OnOk result (entries.new.entries ≡ with_front_in front.now schema.now number index.now (Some table.now) entries.old.entries (key.now, row.now)) }
{
    if !stands_in(alloc, schema, index.table, table, key, row)? {
        return Ok(());
    }
    let group = group_bytes_of(alloc, schema, index.table, table, row)?;
    let values = key_values(alloc, table.primary.as_slice(), row)?;
    let keys = entry_keys(
        alloc,
        number,
        index,
        group.as_slice(),
        values.as_slice(),
        row,
    )?;
    let found = found_of(alloc, index, table, row)?;
    place_all(alloc, entries, &found, keys, front)
}

/// Adds the entries that a row has in an index and whose keys begin so.
pub fn add_row(
    alloc: Global,
    entries: &mut Entries,
    schema: &Schema,
    number: u8,
    index: &Index,
    front: &Bytes,
    key: &Bytes,
    row: &Row,
) -> Result<(), NoMemory>
    requires { number ≤ 64 }
    ensures { OnOk result (entries.new.entries ≡ with_front front.now schema.now number index.now entries.old.entries (key.now, row.now)) }
{
    match table_at(schema, index.table) {
        Some(table) => add_in(
            alloc, entries, schema, number, index, front, table, key, row,
        ),
        None => Ok(()),
    }
}

/// Adds those of a row that is held, if one is.
fn add_held(
    alloc: Global,
    entries: &mut Entries,
    schema: &Schema,
    number: u8,
    index: &Index,
    front: &Bytes,
    key: &Bytes,
    row: Option<&Option<Row>>,
) -> Result<(), NoMemory>
    requires { number ≤ 64 }
    ensures { OnOk result (entries.new.entries ≡ with_fronts front.now schema.now number index.now entries.old.entries (rows_at key.now (option_copied row.entry))) }
{
    match row {
        Some(Some(row)) => add_row(alloc, entries, schema, number, index, front, key, row),
        _ => Ok(()),
    }
}

/// Adds those of a group's rows under these keys.
fn add_rows(
    alloc: Global,
    entries: &mut Entries,
    schema: &Schema,
    number: u8,
    index: &Index,
    front: &Bytes,
    rows: &Slots,
    keys: &BTreeSet<Bytes>,
) -> Result<(), NoMemory>
    requires { number ≤ 64 }
    ensures { OnOk result (entries.new.entries ≡ with_fronts front.now schema.now number index.now entries.old.entries (rows_wanted keys.now (held_rows rows.now.entries))) }
{
    if rows.len() == 0 {
        return Ok(());
    }
    for key in keys {
        let row = rows.get(key);
        add_held(alloc, entries, schema, number, index, front, key, row)?;
    }
    Ok(())
}

fn add_group(
    alloc: Global,
    entries: &mut Entries,
    schema: &Schema,
    number: u8,
    index: &Index,
    front: &Bytes,
    held: Option<&Held>,
    keys: &BTreeSet<Bytes>,
) -> Result<(), NoMemory>
    requires { number ≤ 64 }
    ensures { OnOk result (entries.new.entries ≡ with_fronts front.now schema.now number index.now entries.old.entries (group_wanted keys.now (option_copied held.entry))) }
{
    match held {
        Some(held) => add_rows(
            alloc, entries, schema, number, index, front, &held.rows, keys,
        ),
        None => Ok(()),
    }
}

/// The entries of the rows that are wanted of these groups, whose keys begin so.
pub fn gather(
    alloc: Global,
    schema: &Schema,
    number: u8,
    index: &Index,
    front: &Bytes,
    groups: &BTreeMap<Bytes, Held>,
    wanted: &Wanted,
) -> Result<Entries, NoMemory>
    requires { number ≤ 64 }
    ensures { IfOk result (λ entries. entries.entries ≡ with_fronts front.now schema.now number index.now [] (all_wanted wanted.now (marks_in groups.now.entries))) }
{
    let mut entries = BTreeMap::new(alloc);
    if groups.len() == 0 {
        return Ok(entries);
    }
    for (group, keys) in wanted {
        let held = groups.get(group);
        add_group(
            alloc,
            &mut entries,
            schema,
            number,
            index,
            front,
            held,
            keys,
        )?;
    }
    Ok(entries)
}
