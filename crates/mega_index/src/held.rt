//! The rows of a group at its mark, and the writes that move the mark on.
ghost use Rattle.std.specs.Prelude.{◌≡◌, true, [], IsSome, None, OnOk, OnErr};
ghost use Rattle.std.specs.BTreeMap.{get, insert_entry, keys};
ghost use Rattle.mega_row_writes.specs.Rows.{key_cmp, list_changed, list_written};
ghost use Rattle.mega_index.specs.Marks.{held_rows, has_slot, have_slots, marked_in};
ghost use Rattle.mega_index.specs.Keeping.{marked_of, moved, marks_in};

use mega_base::{Bytes, Copied, NoMemory, Row};
use mega_row_writes::mega_entry::Write;
use std::alloc::Global;
use std::collections::BTreeMap;

/// Places for rows by their keys. One that is empty holds no row.
pub type Slots = BTreeMap<Bytes, Option<Row>>;

/// A group at its mark: the position, and the rows there.
#[derive(Drop)]
pub struct Held {
    pub position: u64,
    pub rows: Slots,
}

/// Makes an empty place for a key that has none.
fn make_slot(alloc: Global, rows: &mut Slots, key: &Bytes) -> Result<(), NoMemory>
    ensures held { held_rows rows.new.entries ≡ held_rows rows.old.entries }
    ensures kept { (k : _) → has_slot rows.old.entries k ≡ true → has_slot rows.new.entries k ≡ true }
    ensures there { OnOk result (has_slot rows.new.entries key.now ≡ true) }
{
    if rows.contains_key(key) {
        return Ok(());
    }
    let own = key.copy(alloc)?;
    rows.insert(own, None)?;
    Ok(())
}

/// Makes the places that these writes need.
fn make_slots(alloc: Global, rows: &mut Slots, writes: &[Write]) -> Result<(), NoMemory>
    ensures held { held_rows rows.new.entries ≡ held_rows rows.old.entries }
    ensures there { OnOk result (have_slots rows.new.entries writes.now ≡ true) }
{
    for write in writes {
        make_slot(alloc, rows, &write.key)?;
    }
    Ok(())
}

/// Sets the row in the place of a key.
fn set_slot(rows: &mut Slots, key: &Bytes, row: Option<Row>)
    requires { has_slot rows.old.entries key.now ≡ true }
    ensures held { held_rows rows.new.entries ≡ list_changed (held_rows rows.old.entries) (record { key = key.now; row = row }) }
    ensures keys { keys rows.new ≡ keys rows.old }
{
    if let Some(slot) = rows.get_mut(key) {
        *slot = row;
    }
}

/// Makes these writes, whose places are there; this takes no memory.
fn set_slots(rows: &mut Slots, writes: Vec<Write>)
    requires { have_slots rows.old.entries writes.items ≡ true }
    ensures { held_rows rows.new.entries ≡ list_written writes.items (held_rows rows.old.entries) }
{
    for write in writes {
        let Write { key, row } = write;
        set_slot(rows, &key, row);
    }
}

/// Moves the mark on by so many entries, which made these writes.
pub fn advance(
    alloc: Global,
    held: &mut Held,
    count: usize,
    writes: Vec<Write>,
) -> Result<(), NoMemory>
    ensures ok { OnOk result (marked_of held.new ≡ moved count writes.items (marked_of held.old)) }
    ensures err { OnErr result (marked_of held.new ≡ marked_of held.old) }
{
    make_slots(alloc, &mut held.rows, writes.as_slice())?;
    set_slots(&mut held.rows, writes);
    held.position = held.position.saturating_add(count as u64);
    Ok(())
}

/// Moves the mark of a group that has one.
fn hold_there(
    alloc: Global,
    groups: &mut BTreeMap<Bytes, Held>,
    group: &Bytes,
    count: usize,
    writes: Vec<Write>,
) -> Result<(), NoMemory>
    requires { IsSome (get key_cmp groups.old group.now) }
    ensures ok { OnOk result (marks_in groups.new.entries ≡ insert_entry key_cmp (marks_in groups.old.entries) group.now (moved count writes.items (marked_in (marks_in groups.old.entries) group.now))) }
    ensures err { OnErr result (marks_in groups.new.entries ≡ marks_in groups.old.entries) }
{
    match groups.get_mut(group) {
        Some(held) => advance(alloc, held, count, writes),
        None => Ok(()),
    }
}

/// Sets the first mark of a group.
fn hold_new(
    alloc: Global,
    groups: &mut BTreeMap<Bytes, Held>,
    group: &Bytes,
    count: usize,
    writes: Vec<Write>,
) -> Result<(), NoMemory>
    requires { get key_cmp groups.old group.now ≡ None }
    ensures ok { OnOk result (marks_in groups.new.entries ≡ insert_entry key_cmp (marks_in groups.old.entries) group.now (moved count writes.items (marked_in (marks_in groups.old.entries) group.now))) }
    ensures err { OnErr result (marks_in groups.new.entries ≡ marks_in groups.old.entries) }
{
    let mut held = Held {
        position: 0,
        rows: BTreeMap::new(alloc),
    };
    advance(alloc, &mut held, count, writes)?;
    let own = group.copy(alloc)?;
    groups.insert(own, held)?;
    Ok(())
}

/// Moves the mark of a group on by so many entries, which made these writes.
pub fn hold(
    alloc: Global,
    groups: &mut BTreeMap<Bytes, Held>,
    group: &Bytes,
    count: usize,
    writes: Vec<Write>,
) -> Result<(), NoMemory>
    ensures ok { OnOk result (marks_in groups.new.entries ≡ insert_entry key_cmp (marks_in groups.old.entries) group.now (moved count writes.items (marked_in (marks_in groups.old.entries) group.now))) }
    ensures err { OnErr result (marks_in groups.new.entries ≡ marks_in groups.old.entries) }
{
    if groups.contains_key(group) {
        hold_there(alloc, groups, group, count, writes)
    } else {
        hold_new(alloc, groups, group, count, writes)
    }
}
