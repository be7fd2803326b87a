//! Trials of a list of records in two areas: over a device that stops at any call, and over files that were changed; tests alone.
#![tactic(auto)]

#[cfg(test)]
mod asserted;
#[cfg(test)]
mod changed;
#[cfg(test)]
mod compacted;
#[cfg(test)]
mod device;
#[cfg(test)]
mod files;
#[cfg(test)]
mod plain;
#[cfg(test)]
mod stops;
