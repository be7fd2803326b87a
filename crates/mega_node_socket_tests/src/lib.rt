//! Tests of a node's call over links, clocks and devices in memory.
#![tactic(auto)]

#[cfg(test)]
mod called;
#[cfg(test)]
mod compaction_tests;
#[cfg(test)]
mod ends_tests;
#[cfg(test)]
mod record_tests;
#[cfg(test)]
mod samples;
#[cfg(test)]
mod talk;
#[cfg(test)]
mod talk_samples;
#[cfg(test)]
mod unbound;
