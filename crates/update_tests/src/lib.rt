//! Tests of the framing of records, and of UPDATE messages: what only a caller of the libraries sees. What messages are
//! read to is tried by rows and by fronts.py.
#![tactic(auto)]

#[cfg(test)]
mod frames;
#[cfg(test)]
mod updates;
