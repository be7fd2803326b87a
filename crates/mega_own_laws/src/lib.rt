//! Laws of whose rows a node writes: a node that is told only of entries that write rows of their own groups keeps, decides and sends only such
//! entries, so its steps act on logs whose rows are each group's own. No code stands here.
#![tactic(auto)]

pub mod laws;
