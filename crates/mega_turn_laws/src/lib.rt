//! Laws of the turns of a served node: whatever datagrams come, they go by the rules. No code stands here.
#![tactic(auto)]

pub mod laws;
