//! What an operation does whose read of a group is complete: it is answered, comes to its own entry, enters or handles a queue
//! message, or picks again; and what is answered at once (CIDR 2011, reads, writes and queues).
#![tactic(auto)]

mod answering;
mod completing;
mod fault;
mod finding;
mod finishing;
mod indexing;
mod outcomes;
mod pumping;
mod request_outcome;

pub use answering::answer_now;
pub use completing::{goes, reads_through};
pub use fault::ActFault;
pub use indexing::indexed_answer;
pub use mega_marks;
pub use mega_pumps;
pub use mega_step_work;
pub use mega_step_work::{mega_leases, mega_operations, mega_voter};
pub use pumping::{Pumped, is_entering, picks, pumps, takes};
pub use request_outcome::RequestOutcome;
