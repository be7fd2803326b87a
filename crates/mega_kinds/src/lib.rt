//! What each kind of node does: which kinds vote, keep rows, are full, hold a lock cell, and serve a request (CIDR 2011, replica types).
#![tactic(auto)]

mod kinds;

pub use kinds::{has_rows, is_cell, is_full, is_node, is_voter, kind_of, missing_kind};
