//! What a request comes to over the rows of its group.
ghost use Rattle.std.specs.Prelude.{◌≡◌, IfOk, Some, true, false, Err};
ghost use Rattle.mega_disk.specs.VersionMaps.{SameVersions};
ghost use Rattle.mega_outcome.specs.Answers.{rows_at};
ghost use Rattle.mega_replica.specs.Used.{StoreUsed};
ghost use Rattle.mega_answers.specs.declared.fault.ActFault.TheVariants.{Unserved};
ghost use Rattle.mega_step_work.specs.Servable.{is_proposed};
ghost use Rattle.mega_answers.specs.Coming.{comes};
ghost use Rattle.mega_answers.specs.Faults.{failed_by};

use crate::fault::ActFault;
use crate::outcomes::{batch_at, outcome_at};
use mega_disk::Versions;
use mega_outcome::{Batch, Done, Request, Turn};
use mega_schema::Schema;
use std::alloc::Global;

/// What a request comes to over the rows of its group.
#[derive(Debug, Drop)]
pub enum RequestOutcome {
    /// What a transaction does, or why it is turned away.
    Alone(Result<Done, Turn>),
    /// What a batch does.
    Batched(Batch),
}

/// What a request comes to over the rows at a position.
#[tactic(auto, using(mega_replica::proofs::Using::used_here))]
pub(crate) fn comes_to<V: Versions>(
    alloc: Global,
    schema: &Schema,
    request: &Request,
    rows: &mut V,
    position: u64,
) -> Result<RequestOutcome, ActFault>
    ensures exact { IfOk result (λ came. V.is_told ≡ true → comes schema.now request.now (rows_at (V.version rows.old) position) ≡ Some came) }
    ensures versions { SameVersions (V.version rows.old) (V.version rows.new) }
    ensures used { StoreUsed V.Versions (failed_by result) rows.old rows.new }
    ensures unserved { result ≡ Err Unserved → is_proposed request.now ≡ false }
{
    match request {
        Request::Txn(txn) => {
            let came = outcome_at(alloc, schema, txn, rows, position)?;
            Ok(RequestOutcome::Alone(came))
        }
        Request::Batch(group, txns) => {
            let txns = txns.as_slice();
            if txns.len() > 16 {
                return Err(ActFault::Unserved);
            }
            let came = batch_at(alloc, schema, group, txns, rows, position)?;
            Ok(RequestOutcome::Batched(came))
        }
        _ => Err(ActFault::Unserved),
    }
}
