//! Lines of transcripts, read and written back as they are.
#![tactic(auto)]

#[cfg(test)]
mod lines;
#[cfg(test)]
mod reading_tests;
mod written;

pub use written::written_back;
