//! Laws of every run whose handlers may change between events: an entry that handles a message is what the handler made of it that stood under the queue in the step
//! in which the entry was made. No code stands here.
#![tactic(auto)]

pub mod examples;
pub mod laws;
