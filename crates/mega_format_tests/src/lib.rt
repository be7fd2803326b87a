//! Trials of the libraries below the stores, over what they show: tests alone.
#![tactic(auto)]

#[cfg(test)]
mod asserted;
#[cfg(test)]
mod ballot;
#[cfg(test)]
mod base;
#[cfg(test)]
mod changes;
#[cfg(test)]
mod cluster;
#[cfg(test)]
mod coordinator;
#[cfg(test)]
mod entry;
#[cfg(test)]
mod generation;
#[cfg(test)]
mod io;
#[cfg(test)]
mod keys;
#[cfg(test)]
mod link;
#[cfg(test)]
mod locks;
#[cfg(test)]
mod schema;
#[cfg(test)]
mod syntax;
#[cfg(test)]
mod wire;
