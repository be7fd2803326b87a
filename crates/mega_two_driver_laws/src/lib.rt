//! The laws of a change that is driven: it is a driver of the world of all groups, and ends as committed only where it is.
#![tactic(auto)]

pub mod laws;
