//! What a replica does with a message or a tick before its operations act, how they act then, and how an operation begins (Lamport 2001;
//! CIDR 2011).
#![tactic(auto)]

mod beginning;
mod fault;
mod taking;
mod telling;
mod ticking;

pub use beginning::{at_open, next_op, refusal, unless_refused};
pub use fault::StepFault;
pub use taking::{Arrival, acts, takes};
pub use ticking::{Ticked, acts_ticked, ticks};
