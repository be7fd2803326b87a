//! That what an operation reads through covers each position that was decided before it began, in every run, while leases are safe. No code stands here.
#![tactic(auto)]

pub mod examples;
pub mod laws;
