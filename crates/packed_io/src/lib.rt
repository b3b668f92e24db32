//! The device that a dump is read from, over any reader of std: `Unpacked`. By the first ten bytes of a file it tells
//! whether it is one of gzip, one of bzip2, or to be read as it is, and gives the bytes that it holds.
//!
//! The ten bytes are read in as many reads as the device takes, and what was read before a failure stays. Then there
//! is memory for a block of 64 KiB, or for what unpacks the file, until its end. It is allocated before the device is
//! moved there, so that a read that finds no memory may be tried again. The device is dropped at its end: whoever
//! writes into a pipe behind that of a packed file is then told that nobody reads. A packed file that failed keeps its
//! memory and its device.
//!
//! `Unpacked::fault` tells what is wrong with a packed file, once its end or a failure was returned: where it is, its
//! cause in words, and its effect. A fault that ends the data comes with `Ok(0)`, after all that was unpacked before;
//! any other one, of the data, the device or the memory, comes with an error, at this read and at all later ones.
//!
//! `PackedFiles` are the packed files of a run, which threads unpack before they are read, in pieces of 256 KiB that
//! wait until then in a ring for each file. `PackedReader` reads one of them, and gives what `Unpacked` gives. Either
//! side unpacks: a thread where few pieces wait and no other one is at the file, the reader where none waits and nobody
//! is. What unpacks a file and puts its pieces into the ring stands behind a lock, and a lock that another thread has
//! is passed over, so that no thread waits for another one without an end. Threads may be started or not: only time
//! depends on it.
//!
//! What a file will give is told to the contracts where its device tells its bytes: of a file that is read as it is the
//! first bytes that weren't given yet, and then the device's; of a packed one what all of them unpack to. Then they are
//! told how a packed file ends too: by what is wrong with its bytes, which `Unpacked::fault` tells, or with nothing.
#![tactic(auto)]

mod decoder;
mod fault;
mod format;
mod head;
mod packed_file;
mod packed_files;
mod packed_reader;
mod piece_maker;
mod pieces;
mod place;
mod slots;
mod unpacked;
mod words;

pub use fault::{Effect, PackedCause, PackedFault};
pub use format::{Format, format_of};
pub use packed_files::{Pace, PackedFiles};
pub use packed_reader::PackedReader;
pub use pieces::Pieces;
pub use unpacked::Unpacked;
