//! Finds in a group: what an index has over the rows of a position.
ghost use Rattle.std.specs.Prelude.{◌≡◌, IfOk, Some, true, Err};
ghost use Rattle.mega_disk.specs.VersionMaps.{SameVersions};
ghost use Rattle.mega_index.specs.Rows.{Listed};
ghost use Rattle.mega_outcome.specs.Answers.{rows_at};
ghost use Rattle.mega_rules.specs.Finding.{local_found};
ghost use Rattle.mega_replica.specs.Used.{StoreUsed};
ghost use Rattle.mega_answers.specs.declared.fault.ActFault.TheVariants.{Unserved};
ghost use Rattle.mega_answers.specs.Faults.{failed_by};
ghost use Rattle.mega_view.specs.Small.{IsSmall};
ghost use Rattle.mega_view.specs.Shows.{Shows};

use crate::fault::{ActFault, fault_by};
use mega_base::{GroupId, Position};
use mega_disk::Versions;
use mega_marks::{find_answer, mark_at};
use mega_outcome::{Answer, FindRequest};
use mega_schema::Schema;
use mega_view::find_all;
use std::alloc::Global;

/// The answer of a find in a group over its rows at a position, as one of the position that it tells.
pub(crate) fn found_at<V: Versions>(
    alloc: Global,
    schema: &Schema,
    find: &FindRequest,
    group: &GroupId,
    rows: &mut V,
    at: u64,
    position: u64,
) -> Result<Answer, ActFault>
    ensures exact { IfOk result (λ answer. V.is_told ≡ true → IsSmall schema.now → (listed : Listed) → find.now.group ≡ Some group.now → Shows schema.now group.now (rows_at (V.version rows.old) at) listed →
        answer ≡ local_found schema.now find.now position listed) }
    ensures versions { SameVersions (V.version rows.old) (V.version rows.new) }
    ensures used { StoreUsed V.Versions (failed_by result) rows.old rows.new }
    ensures built { result ≡ Err Unserved → ⊥ }
{
    let marks = mark_at(alloc, group, position)?;
    match find_all(
        alloc,
        schema,
        find.index,
        group,
        find.values.as_slice(),
        rows,
        Position(at),
    ) {
        Ok(found) => {
            let answer = find_answer(marks, found)?;
            Ok(answer)
        }
        Err(error) => {
            drop(marks);
            Err(fault_by(error))
        }
    }
}
