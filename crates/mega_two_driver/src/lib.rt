//! A change of several groups, driven in two phases: the requests that it asks, and how it goes on by the replies.
#![tactic(auto)]

mod begins;
mod checks;
mod fault;
mod fits;
mod joins;
pub mod laws;
mod parts;
mod pieces;
mod places;
mod plan;
mod root;
mod rows;
mod tables;
mod texts;
mod two;
mod words;

pub use fault::TwoFault;
pub use mega_two_moves::{Ended, Phase, RequestResult, State};
pub use plan::{PartRequests, Plan};
pub use two::Two;
