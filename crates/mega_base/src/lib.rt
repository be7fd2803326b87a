//! The words that every other crate speaks in: names of nodes and operations, text, bytes, values and rows.
#![tactic(auto)]

mod bytes;
mod coding;
mod copied;
mod cursor;
mod fault;
mod field;
mod items;
mod list_fields;
mod name_fields;
mod names;
mod nested;
mod row_fields;
mod same;
mod shared;
mod text;
mod text_field;
mod value_fields;
mod values;
mod writers;

pub use bytes::Bytes;
pub use coding::{decode, encode};
pub use copied::{Copied, NoMemory};
pub use cursor::{BadByte, Cursor, CursorFault};
pub use fault::FieldFault;
pub use field::Field;
pub use items::Items;
pub use list_fields::{put_list, put_option, take_list, take_option};
pub use names::{Epoch, GroupId, NodeId, OpId, Position};
pub use nested::{put_nested, take_nested};
pub use same::Same;
pub use shared::Shared;
pub use text::Text;
pub use text_field::take_text;
pub use values::{Cell, Kind, NodeKind, Row, Shape, Value};
pub use writers::{put_bytes, put_u8, put_u32, put_u64};
