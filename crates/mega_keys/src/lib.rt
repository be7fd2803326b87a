//! The bytes of row keys, entity groups and index entries: their order is the order of the values.
#![tactic(auto)]

mod fault;
mod fit;
mod laws;
mod read;
mod spelling;
mod write;

pub use fault::KeyFault;
pub use fit::has_kind;
pub use laws::{
    keys_are_apart, keys_are_ordered, keys_are_read_back, refusals_are_told_where_they_are,
};
pub use read::{is_spelled, read_key};
pub use write::{group_of, index_key, row_key};
