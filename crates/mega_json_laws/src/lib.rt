//! Laws of JSON texts that are read: what is read has texts in UTF-8 and names in ascending order, and its compact text
//! is read as the same. No code stands here.
#![tactic(auto)]

pub mod laws;
