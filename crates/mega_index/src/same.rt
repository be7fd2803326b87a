//! Whether a row has given values.
ghost use Rattle.std.specs.Prelude.{◌≡◌};
ghost use Rattle.mega_index.specs.Cells.{values_of};
ghost use Rattle.mega_row_writes.specs.of_entry.Same.{same_values};

use crate::cells::cell_of;
use mega_base::{Items, Row, Value};
use mega_row_writes::mega_entry::are_same_values;

/// Whether the row has exactly these values of the property with this number.
#[tactic(auto, using(crate::proofs::SameLemmas::none_same))]
pub fn values_are(row: &Row, property: u8, values: &Items<Value>) -> bool
    ensures { result ≡ same_values (values_of row.now property) values.now }
{
    match cell_of(row, usize::from(property)) {
        Some(cell) => are_same_values(&cell.values, values),
        None => values.is_empty(),
    }
}
