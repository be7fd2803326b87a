//! What a global index has over the rows of all groups at their marks.
ghost use Rattle.std.specs.Prelude.{◌≡◌, true, [], IfOk};
ghost use Rattle.mega_index.specs.Finding.{found_over};
ghost use Rattle.mega_index.specs.Keeping.{is_kept_under, marks_of};
ghost use Rattle.mega_index.specs.Marks.{rows_marked};
ghost use Rattle.mega_view.specs.Small.{IsSmall};

use crate::finding::{index_at, told};
use mega_base::{Items, NoMemory, Value};
use mega_index::{Found, GlobalIndex, find_over};
use mega_schema::Schema;
use std::alloc::Global;

/// What an index has of the entries that begin with these values, in order of key, over the rows of all groups at their marks, and the
/// place of the first value of another kind than its place. A local index, or none, has nothing there.
pub fn find_marked(
    alloc: Global,
    schema: &Schema,
    index: &GlobalIndex,
    number: u8,
    values: &[Value],
) -> Result<Result<Items<Found>, u64>, NoMemory>
    ensures { is_kept_under schema.now index.now ≡ true → IsSmall schema.now → IfOk result (λ found. found ≡ found_over schema.now number [] values.now (rows_marked (marks_of index.now))) }
{
    let Some(there) = index_at(schema, number) else {
        return Ok(Ok(Items::new(alloc)));
    };
    if there.global {
        return told(index.find(alloc, schema, number, values));
    }
    if number > 64 {
        return Ok(Ok(Items::new(alloc)));
    }
    told(find_over(alloc, schema, number, &[], values, &[]))
}
