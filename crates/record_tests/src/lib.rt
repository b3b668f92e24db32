//! Tests of what a caller sees beside the units of records: limits, failures, refused growths and what is lent.
#![tactic(auto)]

#[cfg(test)]
mod units;
