//! Schedule lines: one JSON object a line, and the event that it stands for.
#![tactic(auto)]

mod asking;
pub mod fields;
mod form;
mod lines;
pub mod parts;
mod read;
mod requests;
mod rows;
pub mod values;
mod verdict;
mod world_event;

pub use asking::{Ask, asked};
pub use form::{Form, Pump};
pub use read::{event, object_of};
pub use verdict::Verdict;
pub use world_event::{LineFault, WorldEvent};
