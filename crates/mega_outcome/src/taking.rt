//! Takes a transaction into a batch, or leaves it out with its refusal.
ghost use Rattle.std.specs.Prelude.{◌≡◌, ◌<◌, ◌++◌, length, OnOk};
ghost use Rattle.mega_index.specs.Rows.{Rows, written};
ghost use Rattle.mega_outcome.specs.Outcome.{left_out, taken, taken_unless_large, with_result};
ghost use Rattle.mega_outcome.specs.Answers.{seen};

use crate::answer::{Batch, Done, Turn};
use crate::cutting::{batch_length, cut_of};
use crate::longest::MOST_BYTES;
use crate::replacing::append;
use mega_base::{Items, NoMemory};
use mega_index::mega_entry::{Cut, Send};
use mega_index::mega_row_writes::{Pending, note};
use std::alloc::Global;

/// Leaves the next transaction out with its refusal.
fn leave_out(batch: &mut Batch, turn: Turn) -> Result<(), NoMemory>
    ensures { OnOk result (batch.new ≡ left_out batch.old turn) }
{
    batch.results.push(Err(turn))
}

/// Adds these sends at the end.
fn append_sends(sends: &mut Items<Send>, more: Items<Send>) -> Result<(), NoMemory>
    ensures { OnOk result (sends.new ≡ sends.old ++ more) }
{
    for send in more.into_vec() {
        sends.push(send)?;
    }
    Ok(())
}

/// Takes the next transaction.
fn take(batch: &mut Batch, done: Done, cut: Cut) -> Result<(), NoMemory>
    requires { cut ≡ record { index = length batch.old.results; writes = length done.writes; sends = length done.sends } }
    ensures { OnOk result (batch.new ≡ taken batch.old done) }
{
    let Done {
        replies,
        writes,
        sends,
    } = done;
    batch.results.push(Ok(replies))?;
    append(&mut batch.writes, writes.into_vec())?;
    append_sends(&mut batch.sends, sends)?;
    batch.cuts.push(cut)
}

/// Takes the next transaction, unless the batch's entry would be too long with it.
fn take_unless_large(
    alloc: Global,
    batch: &mut Batch,
    pending: &mut Pending,
    done: Done,
) -> Result<(), NoMemory>
    requires { length batch.old.results < 256 }
    ensures exact { OnOk result (batch.new ≡ taken_unless_large batch.old (taken batch.old done)) }
    ensures noted { OnOk result ((rows : Rows) → seen pending.old rows ≡ written batch.old.writes rows → seen pending.new rows ≡ written batch.new.writes rows) }
{
    let cut = cut_of(batch, &done)?;
    let bytes = batch_length(batch, &done, &cut)?;
    if MOST_BYTES < bytes {
        return leave_out(batch, Turn::TooLarge { bytes });
    }
    note(alloc, pending, done.writes.as_slice())?;
    take(batch, done, cut)
}

/// Adds what the next transaction came to.
pub fn add_result(
    alloc: Global,
    batch: &mut Batch,
    pending: &mut Pending,
    answer: Result<Done, Turn>,
) -> Result<(), NoMemory>
    requires { length batch.old.results < 256 }
    ensures exact { OnOk result (batch.new ≡ with_result batch.old answer) }
    ensures noted { OnOk result ((rows : Rows) → seen pending.old rows ≡ written batch.old.writes rows → seen pending.new rows ≡ written batch.new.writes rows) }
{
    match answer {
        Ok(done) => take_unless_large(alloc, batch, pending, done),
        Err(turn) => leave_out(batch, turn),
    }
}
