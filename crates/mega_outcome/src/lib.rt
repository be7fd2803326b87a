//! Transactions, what they come to over the rows of their group, and the answers of operations
//! (CIDR 2011, transactions and concurrency control).
#![tactic(auto)]

mod adding;
mod answer;
mod batches;
mod changing;
mod checking;
mod copies;
mod cutting;
mod extending;
mod laws;
pub mod lengths;
mod longest;
mod looking;
mod naming;
mod numbers;
mod outcomes;
mod places;
mod reading;
mod replacing;
mod request;
mod running;
mod sending;
mod taking;
mod transaction;
mod turns;

pub use answer::{Answer, Batch, Done, Mark, Shown, Turn};
pub use batches::run_all;
pub use extending::extends_outcome;
pub use laws::{outcomes_look_at_their_group, outcomes_stay_under_more_properties};
pub use mega_index;
pub use naming::names_nothing;
pub use outcomes::run;
pub use places::key_in;
pub use request::{FindRequest, Mode, ReadRequest, Request};
pub use sending::send_fits;
pub use transaction::{Change, Check, RowRef, Transaction};
