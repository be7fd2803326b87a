//! What follows from what a node met: its logs, its rows, and what its operations send. No code stands here but laws.
#![tactic(auto)]

pub mod laws;
