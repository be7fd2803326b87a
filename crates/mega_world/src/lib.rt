//! All nodes of a cluster and the messages between them, as the events of a run drive them.
#![tactic(auto)]

mod applying;
mod beginning;
mod crashing;
mod delivering;
mod draining;
mod dropping;
mod fusing;
mod opening;
mod owing;
mod restarting;
mod showing;
mod ticking;
mod world;

pub use mega_places::{Mail, Place, WorldFault};
pub use world::World;
