//! Laws of a node by itself: what it does rests on its journal and on what it met in its present start. No code stands here.
#![tactic(auto)]

pub mod examples;
pub mod laws;
