//! A node of a cluster: what it notes and sends where it takes a message, begins an operation or ticks, as the rules have it
//! (Lamport 2001; CIDR 2011).
#![tactic(auto)]

mod beginning;
mod ending;
mod node;
mod restarting;

pub use mega_actions;
pub use mega_node_events::{StepFault, next_op};
pub use mega_propose;
pub use mega_step_parts;
pub use node::Node;
pub use restarting::{RestartFault, Restarted};
