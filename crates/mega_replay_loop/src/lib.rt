//! The replay of an input: its header, the lines of its schedule, and the report of what happens.
#![tactic(auto)]

mod heading;
mod input;
mod opening;
mod replay;
mod transcribing;

pub use transcribing::replay_all;
