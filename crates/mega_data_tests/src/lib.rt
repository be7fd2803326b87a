//! Tests of indexes, handlers and schedules over what these libraries show.
#![tactic(auto)]

#[cfg(test)]
mod asserted;
#[cfg(test)]
mod handler_tests;
#[cfg(test)]
mod index_tests;
#[cfg(test)]
mod schedule_tests;
