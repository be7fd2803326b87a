//! A node over its devices, with the handlers of its queues, as one that is served over a link.
#![tactic(auto)]

mod faults;
mod forming;
mod number;
mod server;

pub use forming::items_of;
pub use mega_durable;
pub use mega_durable::mega_core;
pub use number::Number;
pub use server::Server;
