//! The global indexes of a node, brought to what its logs have applied, and what a find has there (CIDR 2011, indexes).
#![tactic(auto)]

mod answers;
mod entries;
mod indexed;
mod moving;

pub use answers::{find_answer, mark_at};
pub use indexed::Indexed;
