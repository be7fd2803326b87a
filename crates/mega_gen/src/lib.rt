//! Schedules from a number: a cluster's header and lines that a replay takes; and the draws for trials.
#![tactic(auto)]

mod block;
mod drawn_numbers;
mod draws;
mod header;
mod lines;
mod page;
mod writing;

pub use drawn_numbers::DrawnNumbers;
pub use writing::generate;
