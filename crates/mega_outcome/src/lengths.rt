//! The lengths of the texts of writes and sends, which bound what an entry may hold.
ghost use Rattle.std.specs.Prelude.{◌≡◌, ◌+◌, length, IfOk};
ghost use Rattle.std.specs.Option.{option_copied};
ghost use Rattle.mega_base.specs.Codec.{option_text};
ghost use Rattle.mega_base.specs.Values.{value_text, cell_text, row_text};
ghost use Rattle.mega_index.specs.of_entry.Entries.{write_text, send_text};
ghost use Rattle.mega_outcome.specs.Lengths.{values_length, cells_length, writes_length, sends_length};

use mega_base::{Cell, NoMemory, Row, Value};
use mega_index::mega_entry::{Send, Write};

/// The sum; numbers of bytes that no memory holds have none.
pub fn sum(some: u64, more: u64) -> Result<u64, NoMemory>
    ensures { IfOk result (λ n. n ≡ some + more) }
{
    match some.checked_add(more) {
        Some(sum) => Ok(sum),
        None => Err(NoMemory),
    }
}

/// The length of the text of some bytes.
fn bytes_length(bytes: &[u8]) -> Result<u64, NoMemory>
    ensures { IfOk result (λ n. n ≡ 4 + length bytes.now) }
{
    sum(4, bytes.len() as u64)
}

#[tactic(auto, using(crate::proofs::Sizes::value_lengths))]
fn value_length(value: &Value) -> Result<u64, NoMemory>
    ensures { IfOk result (λ n. n ≡ length (value_text value.now)) }
{
    match value {
        Value::Int32(_) => Ok(5),
        Value::Int64(_) => Ok(9),
        Value::Bool(_) => Ok(2),
        Value::Str(text) => sum(1, bytes_length(text.as_bytes())?),
        Value::Raw(bytes) => sum(1, bytes_length(bytes.as_slice())?),
    }
}

fn values_length(values: &[Value]) -> Result<u64, NoMemory>
    ensures { IfOk result (λ n. n ≡ values_length values.now) }
{
    let mut total = 0;
    for value in values {
        total = sum(total, value_length(value)?)?;
    }
    Ok(total)
}

#[tactic(auto, using(crate::proofs::Sizes::cell_length))]
fn cell_length(cell: &Cell) -> Result<u64, NoMemory>
    ensures { IfOk result (λ n. n ≡ length (cell_text cell.now)) }
{
    sum(5, values_length(cell.values.as_slice())?)
}

fn cells_length(cells: &[Cell]) -> Result<u64, NoMemory>
    ensures { IfOk result (λ n. n ≡ cells_length cells.now) }
{
    let mut total = 0;
    for cell in cells {
        total = sum(total, cell_length(cell)?)?;
    }
    Ok(total)
}

#[tactic(auto, using(crate::proofs::Sizes::row_length))]
fn row_length(row: Option<&Row>) -> Result<u64, NoMemory>
    ensures { IfOk result (λ n. n ≡ length (option_text row_text (option_copied row.entry))) }
{
    match row {
        Some(row) => sum(2, cells_length(row.cells.as_slice())?),
        None => Ok(1),
    }
}

#[tactic(auto, using(crate::proofs::Sizes::write_length))]
fn write_length(write: &Write) -> Result<u64, NoMemory>
    ensures { IfOk result (λ n. n ≡ length (write_text write.now)) }
{
    sum(
        bytes_length(write.key.as_slice())?,
        row_length(write.row.as_ref())?,
    )
}

/// The length of the texts of these writes.
pub fn writes_length(writes: &[Write]) -> Result<u64, NoMemory>
    ensures { IfOk result (λ n. n ≡ writes_length writes.now) }
{
    let mut total = 0;
    for write in writes {
        total = sum(total, write_length(write)?)?;
    }
    Ok(total)
}

/// The length of the text of a queue's name and a payload.
pub fn message_length(send: &Send) -> Result<u64, NoMemory>
    ensures { IfOk result (λ n. n ≡ 8 + (length send.now.queue + length send.now.payload)) }
{
    sum(
        bytes_length(send.queue.as_bytes())?,
        bytes_length(send.payload.as_slice())?,
    )
}

#[tactic(auto, using(crate::proofs::Sizes::send_length))]
fn send_length(send: &Send) -> Result<u64, NoMemory>
    ensures { IfOk result (λ n. n ≡ length (send_text send.now)) }
{
    sum(bytes_length(send.to.key.as_slice())?, message_length(send)?)
}

/// The length of the texts of these sends.
pub fn sends_length(sends: &[Send]) -> Result<u64, NoMemory>
    ensures { IfOk result (λ n. n ≡ sends_length sends.now) }
{
    let mut total = 0;
    for send in sends {
        total = sum(total, send_length(send)?)?;
    }
    Ok(total)
}
