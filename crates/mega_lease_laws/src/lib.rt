//! Laws of leases, of every run: what a coordinator tells stands behind what it noted. No code stands here.
#![tactic(auto)]

pub mod laws;
