//! The eight counts of a run, kept as its items come, one after another.
#![tactic(auto)]

mod decided;
mod kinds;
mod logs;
mod longest;
mod reach;
mod tally;
mod telling;

pub use tally::Tally;
