//! A change of several groups, driven over a link: turn by turn its requests are sent to a node, and the replies are taken.
#![tactic(auto)]

mod driving;
mod messages;
mod turns;

pub use driving::Driving;
pub use turns::drive;
