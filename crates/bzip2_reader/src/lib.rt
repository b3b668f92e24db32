//! A reader of bzip2 files, as a `Source` over a `Source`: all streams of a device, one after the other, in bounded
//! memory. A block's bytes are given only after its checksum was compared.
//!
//! # The form
//!
//! There is no standard of the form: it is what the program bzip2 1.0 writes. Bits are read from the most significant
//! of each byte on, and numbers are of so many bits.
//!
//! - A file is a sequence of streams. A stream is the bytes `BZh`, a digit from 1 to 9, which is its level, then
//!   blocks, the 48 bits 0x177245385090, the stream's checksum of 32 bits, and zero bits up to the next byte.
//! - A block is the 48 bits 0x314159265359, its checksum (32), a bit that is 0 (the versions before 0.9.5 could
//!   shuffle a block's bytes, and set it), the place of its first byte (24), and then what follows.
//! - The byte values that occur: 16 bits, one for each sixteen values, and 16 bits more for each of these that is set.
//! - The number of code tables, 2 to 6 (3), the number of selectors (15), and the selectors: each is the place of a
//!   table in a list that it is then moved to the front of, as so many ones and a zero.
//! - For each table a first length (5), and for each symbol steps from the length before: 10 is one more, 11 is one
//!   less, 0 ends. Lengths are 1 to 20. Codes are given out by length and then by symbol.
//! - The symbols, fifty by each selector's table in turn: 0 and 1 are digits of a run of the value in front, 1 and 2
//!   times a power of two; the last symbol ends the block; each other symbol takes the value at the
//!   place one less than its number, the front being place 0, and moves it to the front of the values.
//! - The bytes so made are the last column of the sorted rotations of a text (the Burrows-Wheeler transform), and the
//!   place tells which row is the text itself. In the text, four equal bytes are followed by a byte that tells how
//!   many more of them there are. A block has at most 100,000 bytes times its level before these runs are written out,
//!   and so at most 46,800,000 after.
//! - Checksums are CRC-32 with the polynomial 0x04C11DB7, most significant bit first, from all ones and inverted: a
//!   block's is that of its bytes, and a stream's the xor of its blocks' in turn, turned left by one bit before each.
//!
//! # How it ends
//!
//! Data that end early, a damaged block, a stream whose checksum is another, and bytes after the last stream that
//! begin no other end the bytes there: all that was before is given, and `Bunzip::damage` tells the place and the
//! cause. No bytes at all are a file of no streams. A device that fails after some bytes gives what these hold, and
//! then fails for good; so does a want of memory.
//!
//! # Memory and threads
//!
//! A thread decodes one block at a time. The way back through the transform waits for memory at each step, so a dozen
//! parts of the block are walked side by side. It needs 5.6 MB for that; the window over the device is 2.3 MB and 1.2
//! MB for each thread; and one block's text is held, 0.9 MB at most. Runs are written out twice: once for the checksum,
//! and once as the bytes are given, so that long ones take no memory. Which places are tried as blocks, and by whom,
//! doesn't matter: a block is used only where the one before it ends.
#![tactic(auto)]

mod batch;
mod bits;
mod block;
mod checksum;
mod codes;
mod fault;
mod front;
mod laws;
mod moves;
mod order;
mod parts;
mod phase;
mod reader;
mod runs;
mod scan;
mod streams;
mod symbols;
mod table;
mod transform;
mod walks;
mod window;

pub use batch::{Alone, Beside, Job, Team};
pub use fault::{BlockFault, Cause, Damage};
pub use front::is_bzip2;
pub use laws::{blocks_stand_alone, files_unpack_part_by_part, transforms_are_inverted};
pub use reader::Bunzip;
