//! What an operation that acts does: it stays open, ends, or proposes its own entry, and the step takes that up; and which requests are served
//! (CIDR 2011, reads and writes).
#![tactic(auto)]

mod action;
mod complete_read;
mod limit;
mod proposing;
mod serving;
mod work;

pub use action::{Action, End};
pub use complete_read::CompleteRead;
pub use limit::is_limit;
pub use mega_leases;
pub use mega_operations;
pub use mega_step_choices::read_begun;
pub use mega_voter;
pub use proposing::{Proposing, unless_decided};
pub use serving::{
    group_asked, is_answered, is_at_once, is_indexed, is_proposed, is_pump, is_served, mode_asked,
};
pub use work::{Answered, Valid, Work};
