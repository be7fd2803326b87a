//! A file as a chain of records of any length: each a gate, eight bytes of length, and a body.
#![tactic(auto)]

mod append;
mod device;
mod ending;

pub use append::put_record;
pub use ending::shut;
