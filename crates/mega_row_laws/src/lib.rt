//! In every run, at every node, the rows of a group are written by its own entries alone. No code stands here but laws.
#![tactic(auto)]

pub mod examples;
pub mod laws;
