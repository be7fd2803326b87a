//! Lets go of the hints of entries that rows no longer have.
ghost use Rattle.std.specs.Prelude.{◌≡◌, true, IfOk, Some};
ghost use Rattle.std.specs.Option.{option_copied};
ghost use Rattle.std.specs.List.{list_any};
ghost use Rattle.mega_row_writes.specs.Rows.{same_key};
ghost use Rattle.mega_index.specs.Marks.{held_rows};
ghost use Rattle.mega_index.specs.Hints.{all_hinted};
ghost use Rattle.mega_index.specs.Keeping.{marks_in};
ghost use Rattle.mega_index.specs.Forgetting.{keys_of_row, Spares, OnlyRow, OnlyRows, row_held};

use crate::held::Held;
use crate::hints::{Hints, drop_hint};
use crate::standing::global_keys;
use mega_base::{Bytes, Copied, NoMemory, Row};
use mega_row_writes::mega_entry::Write;
use mega_schema::Schema;
use std::alloc::Global;
use std::collections::BTreeMap;

/// A key that is written, and the entries of its rows before and behind the write.
#[derive(Drop)]
pub struct Touched {
    key: Bytes,
    entries: Vec<Bytes>,
}

fn slot_row<'a>(held: &'a Held, key: &Bytes) -> Option<&'a Row>
    ensures { option_copied result ≡ row_held key.now (Some held.now) }
{
    match held.rows.get(key) {
        Some(Some(row)) => Some(row),
        _ => None,
    }
}

/// The row under a key of a group that is held.
fn row_in<'a>(held: &'a Held, key: &Bytes) -> Option<&'a Row>
    ensures { OnlyRow key.now (option_copied result) (held_rows held.now.rows.entries) }
{
    if held.rows.len() == 0 {
        return None;
    }
    slot_row(held, key)
}

/// The row under a key in a group, as it is held.
fn row_at<'a>(groups: &'a BTreeMap<Bytes, Held>, group: &Bytes, key: &Bytes) -> Option<&'a Row>
    ensures { OnlyRows group.now key.now (option_copied result) (marks_in groups.now.entries) }
{
    if groups.len() == 0 {
        return None;
    }
    match groups.get(group) {
        Some(held) => row_in(held, key),
        None => None,
    }
}

fn keys_of_row(
    alloc: Global,
    schema: &Schema,
    key: &Bytes,
    row: Option<&Row>,
) -> Result<Vec<Bytes>, NoMemory>
    ensures { IfOk result (λ keys. keys.items ≡ keys_of_row schema.now key.now (option_copied row.entry)) }
{
    match row {
        Some(row) => global_keys(alloc, schema, key, row),
        None => Ok(Vec::new(alloc)),
    }
}

fn touched_one(
    alloc: Global,
    schema: &Schema,
    groups: &BTreeMap<Bytes, Held>,
    group: &Bytes,
    write: &Write,
) -> Result<Touched, NoMemory> {
    let before = row_at(groups, group, &write.key);
    let mut entries = keys_of_row(alloc, schema, &write.key, before)?;
    let mut more = keys_of_row(alloc, schema, &write.key, write.row.as_ref())?;
    entries.append(&mut more)?;
    let key = write.key.copy(alloc)?;
    Ok(Touched { key, entries })
}

/// What these writes of a group may leave behind.
pub fn touched_by(
    alloc: Global,
    schema: &Schema,
    groups: &BTreeMap<Bytes, Held>,
    group: &Bytes,
    writes: &[Write],
) -> Result<Vec<Touched>, NoMemory> {
    let mut touched = Vec::new(alloc);
    for write in writes {
        touched.push(touched_one(alloc, schema, groups, group, write)?)?;
    }
    Ok(touched)
}

fn is_among(keys: &[Bytes], entry: &Bytes) -> bool
    ensures { result ≡ list_any (same_key entry.now) keys.now }
{
    keys.iter().any(|key| entry.cmp(key).is_eq())
}

/// Lets go of the hint of an entry that is not among these.
fn drop_stale(hints: &mut Hints, now: &[Bytes], entry: &Bytes, group: &Bytes, key: &Bytes)
    ensures { Spares group.now key.now now.now hints.old hints.new }
{
    if is_among(now, entry) {
        return;
    }
    drop_hint(hints, entry, group, key);
}

fn drop_all_stale(hints: &mut Hints, now: &[Bytes], entries: &[Bytes], group: &Bytes, key: &Bytes)
    ensures { Spares group.now key.now now.now hints.old hints.new }
{
    for entry in entries {
        drop_stale(hints, now, entry, group, key);
    }
}

/// Lets go of the hints of the entries that a row has no more. Where memory runs out they stay, which
/// changes no answer.
fn forget_row(
    alloc: Global,
    hints: &mut Hints,
    schema: &Schema,
    group: &Bytes,
    touched: &Touched,
    row: Option<&Row>,
)
    ensures { Spares group.now touched.now.key (keys_of_row schema.now touched.now.key (option_copied row.entry)) hints.old hints.new }
{
    match keys_of_row(alloc, schema, &touched.key, row) {
        Ok(now) => drop_all_stale(
            hints,
            now.as_slice(),
            touched.entries.as_slice(),
            group,
            &touched.key,
        ),
        Err(NoMemory) => {}
    }
}

/// Lets go of the hints of the entries that the rows under these keys have no more.
pub fn forget(
    alloc: Global,
    hints: &mut Hints,
    schema: &Schema,
    groups: &BTreeMap<Bytes, Held>,
    group: &Bytes,
    touched: &[Touched],
)
    ensures { all_hinted schema.now hints.old (marks_in groups.now.entries) ≡ true → all_hinted schema.now hints.new (marks_in groups.now.entries) ≡ true }
{
    for one in touched {
        let row = row_at(groups, group, &one.key);
        forget_row(alloc, hints, schema, group, one, row);
    }
}
