//! Files and stores of runs over devices that stop at any call, and over any bytes.
#![tactic(auto)]

#[cfg(test)]
mod asserted;
#[cfg(test)]
mod changed;
#[cfg(test)]
mod device;
#[cfg(test)]
mod file;
#[cfg(test)]
mod plain;
#[cfg(test)]
mod scan;
#[cfg(test)]
mod store;
