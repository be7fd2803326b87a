//! Laws of a served node and its clients: each request gets one reply at most. No code stands here.
#![tactic(auto)]

pub mod examples;
pub mod laws;
