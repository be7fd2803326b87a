//! Versions of rows that need not fit in memory: the newest in memory, the others on a device, in runs that are sorted.
#![tactic(auto)]

mod among;
mod append;
mod archive;
mod body;
mod cleaning;
mod coding;
mod ending;
mod examples;
mod file;
mod index;
mod keeping;
mod laws;
mod lookup;
mod marking;
mod merging;
mod opening;
mod reading;
mod scan;
mod search;
mod span;
mod store;
mod writable;

pub use archive::Archive;
pub use body::{Mark, Run, Version};
pub use coding::{read_body, write_body};
pub use file::RunFile;
pub use store::Runs;
pub use writable::can_write;
