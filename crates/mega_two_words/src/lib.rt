//! The word `two`: a change of several groups, from a header and a line or by its name, driven over a link.
#![tactic(auto)]

mod last;
mod start;
mod stop;
mod words;

pub use last::Last;
pub use words::run_two;
