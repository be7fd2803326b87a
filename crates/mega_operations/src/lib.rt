//! One open operation of a node: what it comes to when its node takes a message or a tick, what it settles, and how it ends
//! where its patience does. Contracts see it as the rules do.
#![tactic(auto)]

mod hearing;
mod kept;
mod members;
mod operation;
mod patience;
mod phase;
mod settling;

pub use kept::OperationBase;
pub use members::{Members, MembersFault};
pub use operation::{Heard, Operation};
pub use phase::{Phase, Promised};
pub use settling::{Decision, first_settled};
