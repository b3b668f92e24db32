//! The records of MRT dumps (RFC 6396, 2), cut from the bytes of a file or a reader, and the devices that they are read
//! from.
//!
//! `FrameReader` returns one record at a time, by header and length, or the fault of the file's rest: a header or a
//! body that isn't whole, or a limit that is exceeded (16,777,216 bytes of body, byte 2^62 of the file). How a device
//! splits its reads doesn't matter. A whole record is one value, `Record` in `Cut::Whole`, and is passed on as it is.
//!
//! - `Source` and `Sink` are readers and writers that report failures: a count rises exactly where a call returns
//!   `Failed`, and their ghost members are the bytes that they will give, or hold, where these are known. `Counted`
//!   makes them of std's `Read` and `Write`. It returns `Failed` at each error, an interrupted read among them, and at
//!   a write of some bytes that accepts none. That it does so only there can't be stated: `Read` and `Write` have no
//!   value that reports a failure, nor one that reports a flush. So whether a writer is flushed is a flag, which a
//!   flush that is Ok sets and each write clears.
//! - After a failed read the bytes that were taken hold no whole record, and the reader of records stays failed. No
//!   read is tried again, not even an interrupted one.
//! - `next_into` reads a record into a block of memory that was used before. Records aren't cut in place from the
//!   blocks that a reader fills: by the contracts all that is still to come is with the reader, and bytes read ahead
//!   would be with neither.
//! - Fields are read by `byte_at`, `bytes_at`, `u16_at`, `u32_at` and `u128_at`, each from the bytes that are left,
//!   with the fault to report. Every format above is read with them.
//! - `write_full` writes 8 KB at a time. While a write copies into a pipe, its reader can't read, and a write that
//!   fills the pipe sleeps until it is empty; with parts of 8 KB both run side by side.
#![tactic(auto)]

mod cut;
mod device;
mod error;
mod fault;
mod field;
mod filling;
mod frame_reader;
mod header;
mod laws;
mod logged;
mod read_state;
mod writing;

pub use cut::{Cut, Record};
pub use device::{Counted, Failed, Failures, Sink, Source};
pub use error::ReplayError;
pub use fault::Fault;
pub use field::{byte_at, bytes_at, u16_at, u32_at, u128_at};
pub use frame_reader::FrameReader;
pub use header::{HEADER_SIZE, Header, is_within_limits};
pub use laws::{cutting_is_unique, readings_give_all_cuts};
pub use logged::Logged;
pub use read_state::ReadState;
pub use writing::write_full;
