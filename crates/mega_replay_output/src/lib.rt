//! What a replay writes: the lines of its tape or their counts, and the last line and the status of its stop.
#![tactic(auto)]

mod status;
mod stopping;
mod writing;

pub use status::Stop;
pub use stopping::write_stop;
pub use writing::{tell, write_end, write_on};
