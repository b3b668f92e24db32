//! Tests of what no run of the program shows of sessions and reports: refused growths, writers that fail, and threads.
#![tactic(auto)]

#[cfg(test)]
mod sessions;
#[cfg(test)]
mod tables;
#[cfg(test)]
mod units;
#[cfg(test)]
mod writers;
