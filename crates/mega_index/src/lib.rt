//! Local and global indexes (CIDR 2011, indexes).
#![tactic(auto)]

mod asked;
mod cells;
mod choices;
mod entries;
mod fault;
mod find;
mod fits;
mod forget;
mod found;
mod gather;
mod global;
mod held;
mod hints;
mod keys;
mod laws;
mod listed;
mod local;
mod long;
mod refresh;
mod same;
mod standing;
mod wanted;
mod writes;

pub use cells::{key_values, row_set, row_under, row_with, values_of};
pub use fault::IndexFault;
pub use fits::{are_kind, properties_fit, property_at, table_at};
pub use found::Found;
pub use global::GlobalIndex;
pub use keys::{group_of, key_of};
pub use laws::local_writes_turn_entries;
pub use listed::find_over;
pub use long::{has_place, long_key, row_fits};
pub use mega_keys;
pub use mega_row_writes;
pub use mega_row_writes::mega_entry;
pub use mega_schema;
pub use mega_schema::mega_syntax;
pub use same::values_are;
pub use standing::stands_in;
pub use writes::{index_writes, local_writes};
