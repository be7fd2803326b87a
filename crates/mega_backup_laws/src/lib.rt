//! The law of backups: what is restored is what was backed up. No code stands here.
#![tactic(auto)]

pub mod laws;
