//! Values, cells and rows.
ghost use Rattle.std.specs.Prelude.{◌^◌, IsUtf8};
ghost use Rattle.hex.specs.Hex.{IsBytes};
ghost use Rattle.mega_outcome.specs.of_index.of_keys.Fit.{IsWithin};
ghost use Rattle.mega_transcript.specs.PlainRows.{IsHeld};
ghost use Rattle.mega_field_ranges.specs.Held.{HoldsCell, HoldsRow};

use crate::held::Held;
use mega_base::{Cell, Row, Text, Value};

/// A number of 32 bits.
fn hold_small(number: i32)
    ensures { IsWithin (2 ^ 31) number }
{}

/// A number of 64 bits.
fn hold_large(number: i64)
    ensures { IsWithin (2 ^ 63) number }
{}

/// A text is of UTF-8, and of bytes.
pub(crate) fn hold_text(text: &Text)
    ensures utf8 { IsUtf8 text.now }
    ensures bytes { IsBytes text.now }
{
    crate::held::hold_bytes(text.as_bytes());
}

impl Held for Value {
    ghost holds = { IsHeld };

    fn hold(&self) {
        match self {
            Value::Int32(number) => hold_small(*number),
            Value::Int64(number) => hold_large(*number),
            Value::Bool(_) => {}
            Value::Str(text) => hold_text(text),
            Value::Raw(bytes) => bytes.hold(),
        }
    }
}

impl Held for Cell {
    ghost holds = { HoldsCell };

    fn hold(&self) {
        let _property = self.property;
        self.values.hold();
    }
}

impl Held for Row {
    ghost holds = { HoldsRow };

    fn hold(&self) {
        (*self.cells).hold();
    }
}
