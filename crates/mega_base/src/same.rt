//! Values of which it can be told whether they are equal.
ghost use Rattle.std.specs.Prelude.{◌≡◌, ◌↔◌, IsTrue};

use crate::bytes::Bytes;
use crate::items::Items;
use crate::names::{GroupId, NodeId, OpId, Position};
use crate::text::Text;
use crate::values::{Cell, Row, Value};

/// Values of which it can be told whether they are equal.
pub trait Same {
    /// Whether the two are equal.
    fn same_as(&self, other: &Self) -> bool
        ensures { IsTrue result ↔ (self.now ≡ other.now) };
}

impl Same for u8 {
    fn same_as(&self, other: &u8) -> bool {
        *self == *other
    }
}

impl Same for Bytes {
    fn same_as(&self, other: &Bytes) -> bool {
        self.as_slice() == other.as_slice()
    }
}

impl Same for Text {
    fn same_as(&self, other: &Text) -> bool {
        self.as_str() == other.as_str()
    }
}

impl Same for NodeId {
    fn same_as(&self, other: &NodeId) -> bool {
        *self == *other
    }
}

impl Same for Position {
    fn same_as(&self, other: &Position) -> bool {
        *self == *other
    }
}

impl Same for OpId {
    fn same_as(&self, other: &OpId) -> bool {
        *self == *other
    }
}

impl Same for GroupId {
    fn same_as(&self, other: &GroupId) -> bool {
        self.key.same_as(&other.key)
    }
}

impl<T: Same> Same for Option<T> {
    fn same_as(&self, other: &Option<T>) -> bool {
        match (self, other) {
            (None, None) => true,
            (Some(mine), Some(others)) => mine.same_as(others),
            _ => false,
        }
    }
}

impl<T: Same> Same for Items<T> {
    fn same_as(&self, other: &Items<T>) -> bool {
        same_items(self.as_slice(), other.as_slice())
    }
}

/// Whether the two lists are equal.
fn same_items<T: Same>(mine: &[T], others: &[T]) -> bool
    ensures { IsTrue result ↔ (mine.now ≡ others.now) }
{
    if mine.len() != others.len() {
        return false;
    }
    for (place, item) in mine.iter().enumerate() {
        if !item.same_as(&others[place]) {
            return false;
        }
    }
    true
}

impl Same for Value {
    fn same_as(&self, other: &Value) -> bool {
        match (self, other) {
            (Value::Int32(mine), Value::Int32(others)) => *mine == *others,
            (Value::Int64(mine), Value::Int64(others)) => *mine == *others,
            (Value::Bool(mine), Value::Bool(others)) => *mine == *others,
            (Value::Str(mine), Value::Str(others)) => mine.same_as(others),
            (Value::Raw(mine), Value::Raw(others)) => mine.same_as(others),
            _ => false,
        }
    }
}

impl Same for Cell {
    fn same_as(&self, other: &Cell) -> bool {
        self.property == other.property && self.values.same_as(&other.values)
    }
}

impl Same for Row {
    fn same_as(&self, other: &Row) -> bool {
        (*self.cells).same_as(&*other.cells)
    }
}
