//! How a change of several groups goes on by what it is told, and in which order a finish writes.
#![tactic(auto)]

mod finish;
mod moves;
mod phase;
mod request_result;

pub use finish::finish_of;
pub use moves::{by_state, ended_in, moved};
pub use phase::{Ended, Phase};
pub use request_result::{RequestResult, State};
