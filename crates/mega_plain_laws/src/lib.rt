//! Laws of every run: what its tape shows is plain, so that its text tells the tape. No code stands here.
#![tactic(auto)]

pub mod examples;
pub mod laws;
