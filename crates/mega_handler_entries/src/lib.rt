//! The entry by which a pump handles a queue message: what of its handler's effect fits the schema and the group
//! (CIDR 2011, queues).
#![tactic(auto)]

mod entry;
mod keeping;
mod listing;
mod placing;
mod sending;

pub use entry::handling;
pub use listing::rows_of_tables;
