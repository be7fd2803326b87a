//! Laws of calm clusters: an operation that begins alone, and whose messages are all delivered, is answered. No code stands here.
#![tactic(auto)]

pub mod calm_transactions;
pub mod examples;
pub mod laws;
