//! The groups of which a node may not have applied all that is decided, kept in order from step to step, so that a tick looks at these alone.
#![tactic(auto)]

mod lagging;
mod watching;

pub use lagging::notes_watched;
pub use watching::{behind, watched};
