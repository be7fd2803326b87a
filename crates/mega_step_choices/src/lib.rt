//! Small decisions of a node: which of its operations a message is for, with which read one begins and what it comes to at its position, what its voter keeps of
//! a note of its cell, how far it is behind with a group, and whether its log is to be compacted and its rows are to be spilled (Lamport 2001; CIDR 2011).
#![tactic(auto)]

mod behind;
mod entries;
mod hearing;
mod keeping;
mod reading;
mod upkeep;

pub use behind::{applied_at, is_behind};
pub use entries::{own_entry, verdict};
pub use hearing::is_for;
pub use keeping::keep_note;
pub use reading::read_begun;
pub use upkeep::{is_to_compact, is_to_spill};
