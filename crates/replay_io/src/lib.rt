//! What the program reads and writes: its dumps, packed or not, and its report, with what is counted and shown of them
//! on the way.
//!
//! - **All files are opened before any is read**, so that a wrong name is reported at once. The first 16 stay open, as
//!   long as the system lets so many be open; a later one is closed and opened again when its turn comes, except pipes
//!   and the like, which can't be opened twice. A file is closed when the next one is begun, if its end wasn't read.
//!   Standard input is read like a file; a second `-` finds nothing left.
//! - **`Dump` and `Report` are generic over their device**, and state what they make known by what it does (`run_io`):
//!   so what is counted, shown and kept on the way is proved to change no byte.
//! - **The gate sleeps** (`Counter`), since the libraries below have no clock: a worker after ten looks in a row in
//!   vain, for 20 microseconds at first and 80 at most, and the dealer at once, for one at first and 64 at most. A
//!   thread that only yields stays ready to run, and two that have work share a processor meanwhile. A sleep ends by
//!   itself, so no thread waits for another one.
//! - **`--progress` looks at the clock once per mebibyte** and rewrites its line after 250 ms; its number of routes is
//!   that after the last round, since counting goes over all sessions. **`--summary`** takes the units and faults of
//!   each file from the gate (`counts.rt`). Nothing is proved of either but that they are safe.
#![tactic(auto)]

mod counts;
mod files;
mod input;
mod naps;
mod output;
mod progress;

pub use counts::{Counts, FileCounts};
pub use files::{Device, Files, OpenError};
pub use input::{Dump, Input, Watched, inputs_of, packed_files_of};
pub use naps::Naps;
pub use output::{Output, Report, header_of};
pub use progress::{Board, Counter, terminal_width};
