//! Current reads of a group (CIDR 2011, reads and catch-up): a read is local or polls, and then completes what its node
//! has not decided.
#![tactic(auto)]

mod beginning;
mod completing;
mod due;
mod hearing;
mod kept;
mod reading;
mod sending;

pub use beginning::local_read;
pub use reading::{Move, Reader, Reading, Search, Stage};
