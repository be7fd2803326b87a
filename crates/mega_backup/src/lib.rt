//! Backups of a group: the first entries of its log as lines, and the transactions that bring back the rows behind them.
#![tactic(auto)]

mod fault;
mod heads;
mod puts;
mod reading;
mod restoring;
mod rows;
mod showing;
mod spelling;
mod words;
mod writing;

pub use fault::BackupFault;
pub use restoring::read;
pub use spelling::line;
pub use writing::write;
