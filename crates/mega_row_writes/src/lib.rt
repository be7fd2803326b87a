//! Rows by their keys, the writes that turn some of them into others, and writes that are pending.
#![tactic(auto)]

mod noting;
mod writes;

pub use mega_entry;
pub use noting::{Pending, copy_row, note};
pub use writes::{Rows, turned};
