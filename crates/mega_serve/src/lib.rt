//! A node that is served over a link: its turns, its record and the replies to its clients.
#![tactic(auto)]

mod asking;
mod receiving;
mod replying;
mod serving;
mod steps;
mod texts;
mod turning;
mod waiting;

pub use mega_page::{NodeFault, ServeFault};
pub use serving::serve;
pub use steps::{Event, Made, Steps};
pub use waiting::Waiting;
