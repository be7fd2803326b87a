//! Trials of the stores: each over its device, and beside a plain one that keeps everything; tests alone.
#![tactic(auto)]

#[cfg(test)]
mod calls;
#[cfg(test)]
mod crashes;
#[cfg(test)]
mod disk;
#[cfg(test)]
mod drawn_logs;
#[cfg(test)]
mod drawn_rows;
#[cfg(test)]
mod journal;
#[cfg(test)]
mod plain;
#[cfg(test)]
mod replica;
#[cfg(test)]
mod rows;
#[cfg(test)]
mod wal;
