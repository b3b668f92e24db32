//! Tests of the command line: what no run of the program shows. What runs show is in `tests/rows/words.rows`,
//! `tests/rows/words-ipv6.rows` and `tests/program.sh`.
#![tactic(auto)]

#[cfg(test)]
mod pieces;
#[cfg(test)]
mod routes;
#[cfg(test)]
mod words;
