//! Changes of several groups in two phases: the laws of any number of drivers.
#![tactic(auto)]

pub mod laws;
