//! What the program says on standard error, and the files of prefixes and of dumps that it reads before a run.
//!
//! It stands beside the crates that replay and write, so that a change of a sentence proves none of them anew. Nothing
//! is proved of its texts but that it is safe and returns.
#![tactic(auto)]

mod lists;
mod notes;
mod telling;

pub use lists::{listed_dumps, listed_prefixes};
pub use notes::{NoteContext, tell_notes};
pub use telling::{has_ended_early, tell, tell_memory, tell_open, tell_summary, tell_write};
