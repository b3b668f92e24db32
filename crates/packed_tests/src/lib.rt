//! Tests of the device that a dump is read from.
#![tactic(auto)]

#[cfg(test)]
mod files;
#[cfg(test)]
mod packed_files;
#[cfg(test)]
mod reading;
#[cfg(test)]
mod unpacking;
