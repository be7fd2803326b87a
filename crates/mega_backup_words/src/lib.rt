//! The words `backup` and `restore`: the lines of a group's log, and the schedule lines that bring back its rows.
#![tactic(auto)]

mod backing;
mod ending;
mod header;
mod lines;
mod logs;
mod restoring;
mod stop;

pub use backing::{Outcome, run_backup};
pub use restoring::run_restore;
