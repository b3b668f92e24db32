//! The replay of files into rows of what happened to each prefix, in one thread and in the order of the files.
#![tactic(auto)]

mod history;
mod told;

pub use history::{History, count_faults, list_history};
pub use told::Told;
