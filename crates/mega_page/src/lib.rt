//! A page of a served node's record: its lines, the datagrams in them, and how both are given; and one receive.
#![tactic(auto)]

mod fault;
mod hearing;
mod page;
mod replying;
mod texts;

pub use fault::{NodeFault, ServeFault};
pub use hearing::hear;
pub use page::Page;
pub use texts::{put_digits, put_number, put_word};
