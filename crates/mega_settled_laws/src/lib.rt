//! Laws of what settles an entry, of every run. No code stands here.
#![tactic(auto)]

pub mod laws;
