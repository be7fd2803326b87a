//! What a transaction comes to in a group, from its checks through its sends.
ghost use Rattle.std.specs.Prelude.{◌≡◌, ◌≤◌, ◌+◌, ◌<◌, ◌^◌, true, length, IfOk};
ghost use Rattle.std.specs.Result.{result_err};
ghost use Rattle.mega_outcome.specs.Outcome.{outcome_in};
ghost use Rattle.mega_outcome.specs.Steps.{IsInside, seen_by, done_with, written_by};
ghost use Rattle.mega_outcome.specs.Answers.{rows_at, seen};
ghost use Rattle.mega_outcome.specs.Looks.{Looks};
ghost use Rattle.mega_outcome.specs.Numbers.{AreNumbers};

use crate::answer::{Done, Shown, Turn};
use crate::changing::all_changes;
use crate::checking::all_checks;
use crate::longest::unless_large;
use crate::numbers::{Numbers, numbers_of};
use crate::reading::all_reads;
use crate::sending::all_sends;
use crate::transaction::Transaction;
use mega_base::{Copied, Items, NoMemory, Position};
use mega_disk::{StoreError, Versions};
use mega_index::mega_entry::Write;
use mega_index::mega_row_writes::Pending;
use mega_index::mega_schema::Schema;
use std::alloc::Global;

/// What the checks and reads of a transaction give.
fn seen_by<V: Versions>(
    alloc: Global,
    schema: &Schema,
    group: &[u8],
    pending: &Pending,
    rows: &mut V,
    at: Position,
    numbers: Numbers,
    txn: &Transaction,
) -> Result<Result<Items<Option<Shown>>, Turn>, StoreError>
    requires { AreNumbers txn.now numbers }
    ensures exact { V.is_told ≡ true → IfOk result (λ answer. answer ≡ seen_by schema.now group.now txn.now (seen pending.now (rows_at (V.version rows.old) at.0))) }
    ensures inside { IfOk result IsInside }
    ensures looks { Looks V.Versions (result_err result) rows.old rows.new }
{
    let checks = txn.checks.as_slice();
    if let Err(turn) = all_checks(alloc, schema, group, pending, rows, at, 0, checks)? {
        return Ok(Err(turn));
    }
    let reads = txn.reads.as_slice();
    all_reads(alloc, schema, group, pending, rows, at, numbers.read, reads)
}

/// What is done, where the sends fit and no entry is too long.
fn done_with(
    alloc: Global,
    schema: &Schema,
    group: &[u8],
    numbers: Numbers,
    txn: &Transaction,
    replies: Items<Option<Shown>>,
    writes: Items<Write>,
) -> Result<Result<Done, Turn>, NoMemory>
    requires { AreNumbers txn.now numbers }
    ensures exact { IfOk result (λ answer. answer ≡ done_with schema.now group.now txn.now replies writes) }
    ensures inside { IfOk result IsInside }
{
    if let Err(turn) = all_sends(alloc, schema, numbers.send, txn.sends.as_slice())? {
        return Ok(Err(turn));
    }
    let sends = txn.sends.copy(alloc)?;
    unless_large(
        group,
        Done {
            replies,
            writes,
            sends,
        },
    )
}

/// What the writes and sends of a transaction come to, after its checks and reads.
fn written_by<V: Versions>(
    alloc: Global,
    schema: &Schema,
    group: &[u8],
    pending: &Pending,
    rows: &mut V,
    at: Position,
    numbers: Numbers,
    txn: &Transaction,
    replies: Items<Option<Shown>>,
) -> Result<Result<Done, Turn>, StoreError>
    requires { AreNumbers txn.now numbers }
    ensures exact { V.is_told ≡ true → IfOk result (λ answer. answer ≡ written_by schema.now group.now txn.now (seen pending.now (rows_at (V.version rows.old) at.0)) replies) }
    ensures inside { IfOk result IsInside }
    ensures looks { Looks V.Versions (result_err result) rows.old rows.new }
{
    let changes = txn.writes.as_slice();
    let first = numbers.change;
    match all_changes(alloc, schema, group, pending, rows, at, first, changes)? {
        Ok(writes) => Ok(done_with(alloc, schema, group, numbers, txn, replies, writes)?),
        Err(turn) => Ok(Err(turn)),
    }
}

/// What a transaction comes to in a group over the rows at a position and what was written since.
#[tactic(auto, using(crate::proofs::Items::outcome_is))]
pub fn outcome_in<V: Versions>(
    alloc: Global,
    schema: &Schema,
    group: &[u8],
    pending: &Pending,
    rows: &mut V,
    at: Position,
    txn: &Transaction,
) -> Result<Result<Done, Turn>, StoreError>
    ensures exact { V.is_told ≡ true → IfOk result (λ answer. answer ≡ outcome_in schema.now group.now txn.now (seen pending.now (rows_at (V.version rows.old) at.0))) }
    ensures inside { IfOk result IsInside }
    ensures looks { Looks V.Versions (result_err result) rows.old rows.new }
{
    let numbers = numbers_of(txn)?;
    match seen_by(alloc, schema, group, pending, rows, at, numbers, txn)? {
        Ok(replies) => written_by(
            alloc, schema, group, pending, rows, at, numbers, txn, replies,
        ),
        Err(turn) => Ok(Err(turn)),
    }
}
