//! Tests of equality, each told by the definition that it computes.
ghost use Rattle.std.specs.Prelude.{◌≡◌};
ghost use Rattle.mega_entry.specs.Same.{same_entry, same_group, same_name, same_op, same_row, same_values};

use crate::content::Name;
use crate::entry::Entry;
use mega_base::{GroupId, Items, OpId, Row, Same, Value};

/// Whether two operations are one.
pub fn is_same_op(one: OpId, two: OpId) -> bool
    ensures { result ≡ same_op one two }
{
    one.node.0 == two.node.0 && one.start == two.start && one.number == two.number
}

/// Whether two groups are one.
pub fn is_same_group(one: &GroupId, two: &GroupId) -> bool
    ensures { result ≡ same_group one.now two.now }
{
    one.same_as(two)
}

/// Whether two names of messages are one.
pub fn is_same_name(one: &Name, two: &Name) -> bool
    ensures { result ≡ same_name one.now two.now }
{
    one.same_as(two)
}

/// Whether two lists of values are equal.
pub fn are_same_values(one: &Items<Value>, two: &Items<Value>) -> bool
    ensures { result ≡ same_values one.now two.now }
{
    one.same_as(two)
}

/// Whether two rows are equal.
pub fn is_same_row(one: &Row, two: &Row) -> bool
    ensures { result ≡ same_row one.now two.now }
{
    one.same_as(two)
}

/// Whether two entries are equal.
pub fn is_same_entry(one: &Entry, two: &Entry) -> bool
    ensures { result ≡ same_entry one.now two.now }
{
    one.same_as(two)
}
