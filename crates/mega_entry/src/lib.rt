//! Entries of an entity group's log (CIDR 2011, write-ahead log), and their text.
#![tactic(auto)]

mod coding;
mod content;
mod cuts;
mod entry;
mod entry_field;
mod equal;
mod parts;
mod same;

pub use coding::{decode, encode};
pub use content::{Content, Cut, Enter, Name, Send, Write};
pub use entry::Entry;
pub use equal::{
    are_same_values, is_same_entry, is_same_group, is_same_name, is_same_op, is_same_row,
};
pub use mega_base::FieldFault as EntryFault;
