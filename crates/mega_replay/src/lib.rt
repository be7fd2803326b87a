//! The call that the program makes: the replay of a schedule by the nodes of its cluster, a drawn schedule, a node over its socket, a backup, or its rows.
#![tactic(auto)]

mod calling;
mod ended;
mod saving;
mod serving;

pub use calling::run;
pub use ended::Ended;
