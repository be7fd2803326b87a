//! Laws of every lawful tape: what holds as soon as each item of a tape was allowed at its moment, with any number of nodes, operations
//! and ballots, and with messages lost, repeated or taken in any order, crashes and restarts. `specs/Lawful.antt` says what is allowed.
//! No code stands on this crate.
#![tactic(auto)]

pub mod answers;
pub mod examples;
pub mod growing;
pub mod indexes;
pub mod laws;
pub mod reads;
pub mod writes;
