//! Whether the items of a journal and the messages of a node may be written: each is of its format, and each entry's text is short enough.
#![tactic(auto)]

mod cuts;
mod entry;
mod formed;
mod item;
mod message;
mod names;
mod rows;

pub use item::{are_items, is_entry};
pub use message::is_message;
