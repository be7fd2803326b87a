//! Laws of every run: what the nodes of a run do is what the rules of lawful tapes allow, so that the laws of lawful tapes hold of runs.
//! Replies and rounds are one law each, and on them stands the law of all runs. No code stands on this crate.
#![tactic(auto)]

pub mod examples;
pub mod indexes;
pub mod laws;
