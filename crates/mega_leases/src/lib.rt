//! The clock, the lock cell and the coordinator of a node, said over what the node met.
#![tactic(auto)]

mod counting;
mod fault;
pub mod laws;
mod leases;
mod note;
mod noting;
mod numbers;
mod taking;
mod ticking;

pub use fault::TakeFault;
pub use leases::Leases;
pub use note::LeaseNote;
pub use taking::Reaction;
pub use ticking::Ticking;
