//! The rows of a node, as they follow the decided prefixes of its logs: each write stands at the position of its entry
//! (CIDR 2011, write-ahead log).
#![tactic(auto)]

mod applying;
pub mod laws;
mod progress;
mod rows;
mod storing;

pub use applying::{after_portion, after_read, applied, writes_through};
pub use progress::Progress;
pub use rows::StoredRows;
