//! The laws of a change that is driven over a link: a run that ends as committed was shown it.
#![tactic(auto)]

pub mod laws;
