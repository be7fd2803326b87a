//! Laws of every run: each item of its tape is plain, also where it shows rows, so that the text tells the tape. No code stands here.
#![tactic(auto)]

pub mod examples;
pub mod laws;
