//! Tests of reading bzip2 files. The files were made by bzip2 1.0.8, through Python's module bz2.
#![tactic(auto)]

#[cfg(test)]
mod damages;
#[cfg(test)]
mod devices;
#[cfg(test)]
mod files;
#[cfg(test)]
mod reading;
#[cfg(test)]
mod unpacking;
