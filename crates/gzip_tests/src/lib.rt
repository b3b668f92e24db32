//! Tests of the reader of gzip files.
#![tactic(auto)]

#[cfg(test)]
mod damage;
#[cfg(test)]
mod devices;
#[cfg(test)]
mod files;
#[cfg(test)]
mod members;
#[cfg(test)]
mod reading;
