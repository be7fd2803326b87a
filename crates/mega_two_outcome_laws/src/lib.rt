//! The laws that join changes of several groups to a store: each request that a driver asks, run by `outcome` on the rows of its
//! group, is the step of the world of all groups. No code stands here.
#![tactic(auto)]

pub mod laws;
