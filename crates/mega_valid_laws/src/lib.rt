//! Laws of leases, of every tape whose leases are as the rules have them: behind what an epoch serves, and what a node has of a group that is valid
//! there. No code stands here.
#![tactic(auto)]

pub mod laws;
