//! Which groups and queues the sends of a transaction may name.
ghost use Rattle.std.specs.Prelude.{◌≡◌, ◌+◌, ◌<◌, ◌^◌, ◌++◌, ◌∷◌, [], length, is_ok, Some, IfOk};
ghost use Rattle.mega_index.specs.of_keys.Reading.{key_at};
ghost use Rattle.mega_index.specs.of_schema.Shaping.{shape_of};
ghost use Rattle.mega_index.specs.Fits.{numbered};
ghost use Rattle.mega_index.specs.Fitted.{is_root_group, is_group, is_queue, send_fits};
ghost use Rattle.mega_outcome.specs.Outcome.{all_sends};
ghost use Rattle.mega_outcome.specs.Steps.{IsInside};

use crate::answer::Turn;
use mega_base::{Bytes, NoMemory, Shape, Text};
use mega_index::mega_entry::Send;
use mega_index::mega_keys::is_spelled;
use mega_index::mega_schema::{Schema, Table};
use mega_index::table_at;
use std::alloc::Global;

/// The most bytes that a group has.
const LONGEST: usize = 1024;

fn shape_of(alloc: Global, schema: &Schema, number: u8, table: &Table) -> Result<Shape, NoMemory>
    requires { numbered schema.now.tables number ≡ Some table.now }
    ensures { IfOk result (λ shape. shape ≡ shape_of schema.now number table.now) }
{
    let _table = table;
    schema.shape(alloc, number)
}

/// Whether the bytes with a table's number at their end are a row key of the table.
fn is_root_key(
    alloc: Global,
    schema: &Schema,
    number: u8,
    table: &Table,
    group: &[u8],
) -> Result<bool, NoMemory>
    requires { numbered schema.now.tables number ≡ Some table.now }
    ensures { IfOk result (λ found. found ≡ is_ok (key_at (shape_of schema.now number table.now) (group.now ++ number ∷ []))) }
{
    let shape = shape_of(alloc, schema, number, table)?;
    let mut key = Bytes::from_slice(alloc, group)?;
    key.push(number)?;
    is_spelled(alloc, &shape, key.as_slice())
}

/// Whether the bytes are the group of a root with this table number.
fn is_root_group(alloc: Global, schema: &Schema, number: u8, group: &[u8]) -> Result<bool, NoMemory>
    ensures { IfOk result (λ found. found ≡ is_root_group schema.now number (numbered schema.now.tables number) group.now) }
{
    match table_at(schema, number) {
        Some(table) if table.root == number && group.len() <= LONGEST => {
            is_root_key(alloc, schema, number, table, group)
        }
        _ => Ok(false),
    }
}

/// Whether the bytes are a group of the schema.
fn is_group(alloc: Global, schema: &Schema, group: &[u8]) -> Result<bool, NoMemory>
    ensures { IfOk result (λ found. found ≡ is_group schema.now group.now) }
{
    match group {
        [] => Ok(false),
        [number, ..] => is_root_group(alloc, schema, *number, group),
    }
}

/// Whether a queue may have the name.
fn is_queue(queue: &Text) -> bool
    ensures { result ≡ is_queue queue.now }
{
    let length = queue.as_bytes().len();
    1 <= length && length <= 64
}

/// Whether a send goes to a group of the schema, under a name that a queue may have.
pub fn send_fits(alloc: Global, schema: &Schema, send: &Send) -> Result<bool, NoMemory>
    ensures { IfOk result (λ found. found ≡ send_fits schema.now send.now) }
{
    if !is_group(alloc, schema, send.to.key.as_slice())? {
        return Ok(false);
    }
    Ok(is_queue(&send.queue))
}

/// Sends, which are numbered from the first item on, each to a group of the schema under a name that a queue
/// may have.
pub fn all_sends(
    alloc: Global,
    schema: &Schema,
    first: u32,
    sends: &[Send],
) -> Result<Result<(), Turn>, NoMemory>
    requires { first + length sends.now < 2 ^ 32 }
    ensures exact { IfOk result (λ answer. answer ≡ all_sends schema.now first sends.now) }
    ensures inside { IfOk result IsInside }
{
    let mut item = first;
    for send in sends {
        if !send_fits(alloc, schema, send)? {
            return Ok(Err(Turn::BadRow { item }));
        }
        item += 1;
    }
    Ok(Ok(()))
}
