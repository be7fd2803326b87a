//! Whether a number that is neither an i64 nor a u64 stands in a JSON value.
#![tactic(auto)]

mod floats;

pub use floats::has_float;
