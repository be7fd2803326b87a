//! The rules of the nodes, as definitions in `specs/`, with worked examples.
#![tactic(auto)]

pub mod examples;
