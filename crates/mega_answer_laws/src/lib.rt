//! Laws of every run: each answer has its cause on the tape before it, under the handlers of the event in which it is given. No code stands here.
#![tactic(auto)]

pub mod examples;
pub mod laws;
