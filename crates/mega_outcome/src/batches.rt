//! Runs the transactions of a batch in turn, each on the rows as the earlier ones left them.
ghost use Rattle.std.specs.Prelude.{◌≡◌, ◌≤◌, ◌+◌, ◌<◌, ℕ, true, length, IfOk, IfErr, OnOk, Ok};
ghost use Rattle.std.specs.Result.{result_err};
ghost use Rattle.mega_base.specs.Causes.{Rose};
ghost use Rattle.mega_disk.specs.Images.{Within, LeavesOnly};
ghost use Rattle.mega_disk.specs.Fuse.{MayBurn, Burns};
ghost use Rattle.mega_disk.specs.VersionMaps.{SameVersions};
ghost use Rattle.mega_index.specs.Rows.{Rows, written};
ghost use Rattle.mega_outcome.specs.Outcome.{with_next, with_all, batch_outcome, entry_cuts};
ghost use Rattle.mega_outcome.specs.Answers.{Gives, is_outside, rows_at, seen};
ghost use Rattle.mega_outcome.specs.Looks.{Looks};

use crate::answer::{Batch, Turn};
use crate::running::outcome_in;
use crate::taking::add_result;
use crate::transaction::Transaction;
use mega_base::{GroupId, Items, Position};
use mega_disk::{StoreError, Versions};
use mega_index::mega_row_writes::Pending;
use mega_index::mega_schema::Schema;
use std::alloc::Global;
use std::collections::BTreeMap;

/// Runs the next transaction on the rows as the earlier ones that were taken left them.
fn run_next<V: Versions>(
    alloc: Global,
    schema: &Schema,
    group: &[u8],
    batch: &mut Batch,
    pending: &mut Pending,
    rows: &mut V,
    at: Position,
    txn: &Transaction,
) -> Result<(), StoreError>
    requires { length batch.old.results < 256 }
    ensures exact { V.is_told ≡ true → seen pending.old (rows_at (V.version rows.old) at.0) ≡ written batch.old.writes (rows_at (V.version rows.old) at.0) → OnOk result (batch.new ≡ with_next schema.now group.now (rows_at (V.version rows.old) at.0) batch.old txn.now) }
    ensures noted { OnOk result ((rows : Rows) → seen pending.old rows ≡ written batch.old.writes rows → seen pending.new rows ≡ written batch.new.writes rows) }
    ensures counted { OnOk result (length batch.new.results ≡ length batch.old.results + 1) }
    ensures looks { Looks V.Versions (result_err result) rows.old rows.new }
{
    let answer = outcome_in(alloc, schema, group, pending, rows, at, txn)?;
    add_result(alloc, batch, pending, answer)?;
    Ok(())
}

/// Runs transactions one after another.
fn run_each<V: Versions>(
    alloc: Global,
    schema: &Schema,
    group: &[u8],
    txns: &[Transaction],
    rows: &mut V,
    at: Position,
) -> Result<Batch, StoreError>
    requires { length txns.now ≤ 16 }
    ensures exact { V.is_told ≡ true → IfOk result (λ batch. batch ≡ with_all schema.now group.now txns.now (rows_at (V.version rows.old) at.0)) }
    ensures looks { Looks V.Versions (result_err result) rows.old rows.new }
{
    let mut batch = Batch {
        results: Items::new(alloc),
        writes: Items::new(alloc),
        sends: Items::new(alloc),
        cuts: Items::new(alloc),
    };
    let mut pending = BTreeMap::new(alloc);
    for txn in txns {
        run_next(
            alloc,
            schema,
            group,
            &mut batch,
            &mut pending,
            rows,
            at,
            txn,
        )?;
    }
    Ok(batch)
}

/// The batch with the cuts of its entry.
fn with_entry_cuts(alloc: Global, batch: Batch) -> Batch
    ensures { result ≡ record { results = batch.results; writes = batch.writes; sends = batch.sends; cuts = entry_cuts batch.cuts } }
{
    let Batch {
        results,
        writes,
        sends,
        cuts,
    } = batch;
    let cuts = match cuts.as_slice() {
        [cut] if cut.index == 0 => Items::new(alloc),
        _ => cuts,
    };
    Batch {
        results,
        writes,
        sends,
        cuts,
    }
}

/// What a batch of 1 to 16 transactions of one group comes to over the rows of the group at a position. They run one
/// after another, each on the rows as the earlier ones that were taken left them. One that is refused is left out with its
/// refusal, and so is one with which the batch's entry would be too long. The rows stay as they are.
pub fn run_all<V: Versions>(
    alloc: Global,
    schema: &Schema,
    group: &GroupId,
    txns: &[Transaction],
    rows: &mut V,
    at: Position,
) -> Result<Batch, Turn>
    requires { length txns.now ≤ 16 }
    ensures exact { V.is_told ≡ true → Gives result (Ok (batch_outcome schema.now group.now txns.now (rows_at (V.version rows.old) at.0))) }
    ensures outside { IfErr result (λ turn. is_outside turn ≡ true) }
    ensures versions { SameVersions (V.version rows.old) (V.version rows.new) }
    ensures cleaned { V.cleaned rows.new ≡ V.cleaned rows.old }
    ensures marks { V.marked rows.new ≡ V.marked rows.old }
    ensures full { V.is_full rows.new ≡ V.is_full rows.old }
    ensures any_moment { LeavesOnly V.moment V.opened_since rows.old rows.new (V.may_open rows.old) }
    ensures within { Within (V.may_open rows.old) (V.may_open rows.new) }
    ensures cause { result ≡ Err Turn.DiskFault → Rose (V.faults rows.old) (V.faults rows.new) }
    ensures later { V.faults rows.old ≤ V.faults rows.new }
    ensures bad { (n : ℕ) → result ≡ Err (Turn.BadRecord n) → V.is_bad rows.old n }
    ensures bad_stays { (n : ℕ) → V.is_bad rows.new n → V.is_bad rows.old n }
    ensures never_full { (n : ℕ) → result ≡ Err (Turn.Full n) → ⊥ }
    ensures may_burn { MayBurn (V.fuse_left rows.old) (V.fuse_left rows.new) }
    ensures burns { V.fails_by_fuse rows.old ≡ true → result ≡ Err Turn.DiskFault → Burns (V.fuse_left rows.old) (V.fuse_left rows.new) }
    ensures by_fuse { V.fails_by_fuse rows.old ≡ true → V.fails_by_fuse rows.new ≡ true }
{
    match run_each(alloc, schema, group.key.as_slice(), txns, rows, at) {
        Ok(batch) => Ok(with_entry_cuts(alloc, batch)),
        Err(fault) => Err(Turn::from(fault)),
    }
}
