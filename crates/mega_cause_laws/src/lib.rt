//! Laws of every run: an answer has its cause on the tape before it. No code stands here.
#![tactic(auto)]

pub mod laws;
