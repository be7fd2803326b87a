//! Laws of what is read of an input: a line that is an event asks for what the formats can hold, and the text with which its
//! operation begins means its request; a cluster that was read of a header is one that can start. No code stands here.
#![tactic(auto)]

pub mod laws;
