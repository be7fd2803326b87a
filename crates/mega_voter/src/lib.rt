//! A voter's logs, said over what its node met: what it answers, what it keeps of what it sends and decides, and what
//! its logs hold.
#![tactic(auto)]

mod answers;
mod keeping;
pub mod laws;
mod readers;
mod voter;

pub use voter::Voter;
