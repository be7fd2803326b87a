//! The words of the program: a command, and then each of its options once.
#![tactic(auto)]

mod change;
mod command;
mod group;
mod number;
mod option;
pub mod worked;

pub use command::{Command, Report, command_of};
