//! Runs that meet the premises of the laws, and tapes that the laws refuse. No code stands here.
#![tactic(auto)]

pub mod refused;
pub mod runs;
