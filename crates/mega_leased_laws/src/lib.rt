//! That the leases of every run are as the rules have them, and so, while they are safe, that a node where a group is valid has each decided position.
//! No code stands here.
#![tactic(auto)]

pub mod laws;
