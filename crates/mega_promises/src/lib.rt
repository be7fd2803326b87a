//! What a run of a cluster is, and what is promised of it, as definitions in `specs/`, with worked runs.
#![tactic(auto)]

pub mod examples;
