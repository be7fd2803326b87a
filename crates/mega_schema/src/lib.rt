//! The schema language: a text's tables and indexes, or the first fault in it.
#![tactic(auto)]

mod copies;
mod declare;
mod fault;
mod growth;
mod known;
mod lookup;
mod named;
mod places;
mod rules;
mod schema;
mod shaping;
mod verdict;

pub use fault::SchemaFault;
pub use mega_syntax;
pub use mega_syntax::Need;
pub use schema::{Index, Property, Schema, Table};
pub use verdict::parse;
