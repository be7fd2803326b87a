//! A list of byte records in a file of two areas, of which a shorter list takes the place at once; a file that is one
//! chain goes on as such.
#![tactic(auto)]

mod appending;
mod chain;
mod checkpoint;
pub mod laws;
mod making;
mod numbering;
mod opening;
mod reading;
mod reopening;
mod replacing;

pub use checkpoint::Checkpoint;
