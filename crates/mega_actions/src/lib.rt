//! What the open operations of a node do in a step, one after another: they end, propose, or read on, each on what those
//! before it left (CIDR 2011, reads and writes).
#![tactic(auto)]

mod acting;
mod beginning;
mod replica;
mod resting;
mod turning;

pub use mega_answers;
pub use mega_answers::{
    mega_leases, mega_marks, mega_operations, mega_pumps, mega_step_work, mega_voter,
};
pub use replica::Replica;
