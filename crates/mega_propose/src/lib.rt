//! The rounds of a proposer at one position (Lamport 2001, the proposer; CIDR 2011, write algorithm): what a round
//! sends, what it counts of the answers, and when it is settled.
#![tactic(auto)]

mod accepting;
mod covering;
mod due;
mod members;
mod moves;
mod preparing;
mod round;
mod sending;
mod taking;
mod votes;

pub use due::is_due;
pub use mega_entry::{is_same_group, is_same_op};
pub use mega_wire;
pub use members::{greatest_top, has, is_majority, joined, others, with_node, without};
pub use round::{Cover, Free, Move, Proposal, Report, Round, Site};
