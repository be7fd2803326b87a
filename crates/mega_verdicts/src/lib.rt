//! What a world decides by plain values: which messages wait, which is next and why one is refused, what a node that is cut off leaves owed, and whether an item is the first that tells that leases are not safe.
#![tactic(auto)]

mod cut_at;
mod dropping;
mod refusing;
mod telling;
mod waiting;

pub use cut_at::CutAt;
pub use dropping::drop_message;
pub use refusing::delivery_refusal;
pub use telling::is_first;
pub use waiting::{first_for, forget, keep, lesser};
