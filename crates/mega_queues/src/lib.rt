//! Queues: what a node's logs sent, entered and handled, and which message or group a pump picks
//! (CIDR 2011, queues).
#![tactic(auto)]

mod entering;
pub mod laws;
mod mailbox;
mod mailboxes;
mod names;
mod outboxes;
mod picks;
mod posted;
mod queues;
mod short;

pub use entering::enter_entry;
pub use mailbox::Mailbox;
pub use mailboxes::Mailboxes;
pub use names::Names;
pub use outboxes::Outboxes;
pub use posted::Posted;
pub use queues::Queues;
pub use short::is_short;
