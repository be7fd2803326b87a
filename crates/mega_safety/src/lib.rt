//! What tells whether leases are safe: every lapse of an epoch that a world saw, and whether it was told that they are not.
#![tactic(auto)]

mod safety;

pub use safety::{Lapse, Safety, keep_lapses};
