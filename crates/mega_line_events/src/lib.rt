//! The events of a schedule's lines happen in the world, one after another.
#![tactic(auto)]

mod happening;

pub use happening::take_line;
pub use mega_world;
