//! The writes of log entries, and the hints of the index entries that they make.
ghost use Rattle.std.specs.Prelude.{◌≡◌, ◌++◌, true, IfOk, OnOk};
ghost use Rattle.std.specs.List.{list_all};
ghost use Rattle.mega_index.specs.Hints.{KeepsHints, is_hinted, row_is_hinted, write_is_hinted, writes_are_hinted};
ghost use Rattle.mega_index.specs.Marks.{writes_of};

use crate::hints::{Hints, add_hint};
use crate::standing::global_keys;
use mega_base::{Bytes, Copied, NoMemory, Row};
use mega_row_writes::mega_entry::{Entry, Write};
use mega_schema::Schema;
use std::alloc::Global;

fn push_writes(alloc: Global, writes: &mut Vec<Write>, entry: &[Write]) -> Result<(), NoMemory>
    ensures { OnOk result (writes.new.items ≡ writes.old.items ++ entry.now) }
{
    for write in entry {
        writes.push(write.copy(alloc)?)?;
    }
    Ok(())
}

/// Copies of the writes of entries, the oldest first.
pub fn writes_of(alloc: Global, entries: &[Entry]) -> Result<Vec<Write>, NoMemory>
    ensures { IfOk result (λ writes. writes.items ≡ writes_of entries.now) }
{
    let mut writes = Vec::new(alloc);
    for entry in entries {
        push_writes(alloc, &mut writes, entry.content().writes.as_slice())?;
    }
    Ok(writes)
}

fn add_hints(
    alloc: Global,
    hints: &mut Hints,
    group: &Bytes,
    key: &Bytes,
    entries: Vec<Bytes>,
) -> Result<(), NoMemory>
    ensures kept { KeepsHints hints.old hints.new }
    ensures there { OnOk result (list_all (λ entry. is_hinted hints.new entry group.now key.now) entries.items ≡ true) }
{
    for entry in entries {
        add_hint(alloc, hints, entry, group, key)?;
    }
    Ok(())
}

/// Adds the hints of a row's entries.
fn hint_row(
    alloc: Global,
    hints: &mut Hints,
    schema: &Schema,
    group: &Bytes,
    key: &Bytes,
    row: &Row,
) -> Result<(), NoMemory>
    ensures kept { KeepsHints hints.old hints.new }
    ensures there { OnOk result (row_is_hinted schema.now hints.new group.now (key.now, row.now) ≡ true) }
{
    let entries = global_keys(alloc, schema, key, row)?;
    add_hints(alloc, hints, group, key, entries)
}

fn hint_write(
    alloc: Global,
    hints: &mut Hints,
    schema: &Schema,
    group: &Bytes,
    write: &Write,
) -> Result<(), NoMemory>
    ensures kept { KeepsHints hints.old hints.new }
    ensures there { OnOk result (write_is_hinted schema.now hints.new group.now write.now ≡ true) }
{
    match &write.row {
        Some(row) => hint_row(alloc, hints, schema, group, &write.key, row),
        None => Ok(()),
    }
}

/// Adds the hints of the entries that these writes make.
pub fn hint_writes(
    alloc: Global,
    hints: &mut Hints,
    schema: &Schema,
    group: &Bytes,
    writes: &[Write],
) -> Result<(), NoMemory>
    ensures kept { KeepsHints hints.old hints.new }
    ensures there { OnOk result (writes_are_hinted schema.now hints.new group.now writes.now ≡ true) }
{
    for write in writes {
        hint_write(alloc, hints, schema, group, write)?;
    }
    Ok(())
}
