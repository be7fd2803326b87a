//! What the items of a tape hold is within the sizes of their types, as is told once it is read.
#![tactic(auto)]

mod answers;
mod entries;
mod held;
mod items;
mod messages;
mod values;

pub use items::hold;
