//! Requests that the global indexes of a node answer: a find in no group, and a refresh.
ghost use Rattle.std.specs.Prelude.{◌≡◌, IfOk, OnOk, Some, None, Err, false};
ghost use Rattle.mega_replica.specs.Following.{Follows, progress_at};
ghost use Rattle.mega_rules.specs.Logs.{log_of};
ghost use Rattle.mega_rules.specs.Operations.{Now};
ghost use Rattle.mega_step_work.specs.of_voter.Telling.{Tells};
ghost use Rattle.mega_view.specs.Small.{IsSmall};
ghost use Rattle.mega_marks.specs.AreMarked.{AreMarked, IsIndexed};
ghost use Rattle.mega_answers.specs.declared.fault.ActFault.TheVariants.{Unserved};
ghost use Rattle.mega_step_work.specs.Servable.{is_indexed};
ghost use Rattle.mega_answers.specs.Faults.{failed_by};
ghost use Rattle.mega_answers.specs.Indexing.{by_index, marks_then};

use crate::fault::ActFault;
use mega_disk::{Records, Versions};
use mega_marks::Indexed;
use mega_outcome::{Answer, Request};
use mega_replica::StoredRows;
use mega_step_work::mega_operations::Members;
use mega_step_work::mega_voter::Voter;
use std::alloc::Global;

/// The answer of such a request; a refresh brings the indexes to what is applied.
pub fn indexed_answer<R: Records, V: Versions>(
    alloc: Global,
    members: &Members,
    voter: &Voter<R>,
    rows: &StoredRows<V>,
    indexed: &mut Indexed,
    request: &Request,
) -> Result<Answer, ActFault>
    ensures answer { IfOk result (λ answer. (now : Now) → Tells voter.now.logs.kept now.met → Follows (V.version rows.now.rows) (progress_at rows.now.progress) (log_of now.met) now.stored →
        IsSmall (members.now).schema → IsIndexed (members.now).schema indexed.old now.met → by_index (members.now).schema now request.now ≡ Some answer) }
    ensures marked { OnOk result ((now : Now) → Tells voter.now.logs.kept now.met → Follows (V.version rows.now.rows) (progress_at rows.now.progress) (log_of now.met) now.stored →
        IsIndexed (members.now).schema indexed.old now.met → AreMarked (members.now).schema indexed.new now.met (marks_then now request.now)) }
    ensures apart { failed_by result ≡ None }
    ensures unserved { result ≡ Err Unserved → is_indexed request.now ≡ false }
{
    let schema = &members.cluster().schema;
    match request {
        Request::Refresh => {
            let marks = indexed.refresh(alloc, schema, voter, rows)?;
            Ok(Answer::Refreshed { marks })
        }
        Request::Find(find) if find.group.is_none() => {
            let answer = indexed.find(alloc, schema, find)?;
            Ok(answer)
        }
        _ => Err(ActFault::Unserved),
    }
}
