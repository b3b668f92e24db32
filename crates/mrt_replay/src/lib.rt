//! `run`: the replay of MRT dumps into a report on their routes, with the headline as its contract.
//!
//! The headline is one record, `IsPromised`: what a run that completes did, that it met no failure, why a run doesn't
//! complete, and when it does. `run` is two halves with a contract each. `replay` makes tables that stand for the
//! selected units and the refusals of the files; `write_report` writes the lines of a request on tables. `run` knows of
//! lanes only what `replay` states, and `replay` only the contracts of `Replayer`.
//!
//! - It is a library and not a part of the program, since nobody, not even a test, can call a function of a program. It
//!   takes any readers, writer, map, dealing and gate.
//! - Nothing is written before all rows are made or all buffers allocated, so only a failed write leaves a part of a
//!   report.
//! - `faults` keeps routes too. Its lines need none, but every summary counts the routes at the end, and that count is
//!   part of the contract.
//! - `AreHonest` is about readers only. A writer that reports nothing is excluded by `Appends`, `Keeps` and
//!   `WritesFront`, which say something about known bytes only.
#![tactic(auto)]

mod replay;
mod replayed;

pub use replay::run;
