//! All rows of a group's tables at a position, and what an index has over them.
#![tactic(auto)]

mod answering;
mod finding;
mod keys;
mod marked;
mod scanning;
mod tables;

pub use answering::read_all;
pub use finding::find_all;
pub use keys::{is_key_of, shape_of};
pub use marked::find_marked;
pub use tables::{TableRows, table_rows, tables_of};
