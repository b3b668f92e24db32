//! Tests of maps from prefixes: refused growths, calls at each family, and the shape of the trie. Calls in great number
//! are made by tests/maps.sh.
#![tactic(auto)]

#[cfg(test)]
mod prefixes;
