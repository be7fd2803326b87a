//! What pumps find in the applied logs of a node: the message that they enter next, the group in which they handle one
//! next, and what is entered and handled through a position (CIDR 2011, queues).
#![tactic(auto)]

mod deciding;
mod digest;
mod following;
pub mod laws;
mod mailing;
mod marking;
mod noting;
mod picking;
mod reached;
mod through;
mod visiting;

pub use deciding::{Own, enters, handles};
pub use digest::Digest;
pub use mailing::mailbox_at;
pub use marking::applied_marks;
pub use picking::Picked;
pub use through::Through;
pub use visiting::{read_begun, visits};
