//! What a transaction or a batch comes to over the rows, with faults of the store told apart.
ghost use Rattle.std.specs.Prelude.{◌≡◌, ◌≤◌, IfOk, Err, Some, true, length};
ghost use Rattle.mega_disk.specs.VersionMaps.{SameVersions};
ghost use Rattle.mega_outcome.specs.Answers.{rows_at};
ghost use Rattle.mega_outcome.specs.Outcome.{batch_outcome, outcome};
ghost use Rattle.mega_replica.specs.Used.{StoreUsed};
ghost use Rattle.mega_answers.specs.declared.fault.ActFault.TheVariants.{Unserved};
ghost use Rattle.mega_answers.specs.Faults.{failed_by, fault_of};

use crate::fault::ActFault;
use mega_base::{GroupId, Position};
use mega_disk::Versions;
use mega_outcome::{Batch, Done, Transaction, Turn, run, run_all};
use mega_schema::Schema;
use std::alloc::Global;

/// The fault that a refusal is, where it tells of the store or of memory.
fn fault_of(turn: Turn) -> Option<ActFault>
    ensures exact { result ≡ fault_of turn }
    ensures built { result ≡ Some Unserved → ⊥ }
{
    match turn {
        Turn::DiskFault => Some(ActFault::DiskFault),
        Turn::Full { length } => Some(ActFault::Full { length }),
        Turn::BadRecord { number } => Some(ActFault::BadRecord { number }),
        Turn::NoMemory => Some(ActFault::NoMemory),
        _ => None,
    }
}

/// What a transaction comes to over the rows at a position.
pub(crate) fn outcome_at<V: Versions>(
    alloc: Global,
    schema: &Schema,
    txn: &Transaction,
    rows: &mut V,
    position: u64,
) -> Result<Result<Done, Turn>, ActFault>
    ensures exact { IfOk result (λ came. V.is_told ≡ true → came ≡ outcome schema.now txn.now (rows_at (V.version rows.old) position)) }
    ensures versions { SameVersions (V.version rows.old) (V.version rows.new) }
    ensures used { StoreUsed V.Versions (failed_by result) rows.old rows.new }
    ensures built { result ≡ Err Unserved → ⊥ }
{
    match run(alloc, schema, txn, rows, Position(position)) {
        Ok(done) => Ok(Ok(done)),
        Err(turn) => match fault_of(turn) {
            Some(fault) => Err(fault),
            None => Ok(Err(turn)),
        },
    }
}

/// What a batch comes to over the rows at a position.
pub(crate) fn batch_at<V: Versions>(
    alloc: Global,
    schema: &Schema,
    group: &GroupId,
    txns: &[Transaction],
    rows: &mut V,
    position: u64,
) -> Result<Batch, ActFault>
    requires { length txns.now ≤ 16 }
    ensures exact { IfOk result (λ came. V.is_told ≡ true → came ≡ batch_outcome schema.now group.now txns.now (rows_at (V.version rows.old) position)) }
    ensures versions { SameVersions (V.version rows.old) (V.version rows.new) }
    ensures used { StoreUsed V.Versions (failed_by result) rows.old rows.new }
    ensures built { result ≡ Err Unserved → ⊥ }
{
    match run_all(alloc, schema, group, txns, rows, Position(position)) {
        Ok(batch) => Ok(batch),
        Err(turn) => match fault_of(turn) {
            Some(fault) => Err(fault),
            None => Err(ActFault::NoMemory),
        },
    }
}
