//! Laws of the record of a served node: what was written is read back. No code stands on this crate.
#![tactic(auto)]

pub mod examples;
pub mod laws;
