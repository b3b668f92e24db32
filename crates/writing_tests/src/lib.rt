//! Tests of what an MRT dump is written as.
#![tactic(auto)]

#[cfg(test)]
mod writing;
