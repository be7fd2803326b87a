//! The answer of a read that names no rows.
ghost use Rattle.std.specs.Prelude.{◌≡◌, true, IfOk};
ghost use Rattle.std.specs.Result.{result_err};
ghost use Rattle.mega_index.specs.Rows.{Listed};
ghost use Rattle.mega_outcome.specs.Answers.{rows_at};
ghost use Rattle.mega_outcome.specs.Looks.{Looks};
ghost use Rattle.mega_outcome.specs.Reads.{all_rows};
ghost use Rattle.mega_outcome.specs.declared.answer.Answer.TheVariants.{Read as ReadAnswer};
ghost use Rattle.mega_view.specs.Shows.{Shows};

use crate::tables::{shown_of, table_rows};
use mega_base::{GroupId, Position};
use mega_disk::{StoreError, Versions};
use mega_outcome::Answer;
use mega_schema::Schema;
use std::alloc::Global;

/// The answer of a read of all rows of a group's tables, over the rows at one position and as one of the position that it tells.
/// The rows are in order of their keys. It fails as the store does, or where memory is wanting.
pub fn read_all<V: Versions>(
    alloc: Global,
    schema: &Schema,
    group: &GroupId,
    rows: &mut V,
    at: Position,
    position: Position,
) -> Result<Answer, StoreError>
    ensures exact { V.is_told ≡ true → IfOk result (λ answer. (listed : Listed) → Shows schema.now group.now (rows_at (V.version rows.old) at.0) listed →
        answer ≡ ReadAnswer position (all_rows schema.now group.now listed)) }
    ensures looks { Looks V.Versions (result_err result) rows.old rows.new }
{
    let found = table_rows(alloc, schema, group, rows, at)?;
    let rows = shown_of(alloc, found)?;
    Ok(Answer::Read { position, rows })
}
