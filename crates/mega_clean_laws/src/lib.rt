//! Laws of cleaning: a node may let go of versions of rows below what it applied. No code stands on this crate.
#![tactic(auto)]

pub mod examples;
pub mod laws;
