//! Which entries of a group's log a backup has, and the put that brings back one of the rows behind them.
#![tactic(auto)]

mod entries;
mod puts;
mod tables;

pub use entries::{entry_behind, first_entries};
pub use puts::put_in;
pub use tables::shape_of;
