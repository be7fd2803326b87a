//! One position of a voter's log: what the voter promised and accepted there, and what is decided.
#![tactic(auto)]

mod slot;
mod votes;

pub use mega_ballot;
pub use mega_entry;
pub use slot::Slot;
pub use votes::{copy_vote, is_below, is_same};
