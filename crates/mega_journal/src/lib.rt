//! A journal: a list of byte records on one device, each on the disk before it is acknowledged.
#![tactic(auto)]

mod append;
mod device;
mod journal;
mod opening;
mod parsing;

pub use device::{read_all, settle, write_through};
pub use journal::Journal;
pub use parsing::{Found, parse};
