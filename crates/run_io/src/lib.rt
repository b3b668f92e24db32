//! What the program puts around its files and its standard output, over any reader and any writer of std.
//!
//! `Blocks` reads a device in blocks of 64 KiB, whose memory exists only while it is read. `Headed` writes a header
//! before the first byte of a text, or at the flush of an empty one. Both state what they make known of bytes by what
//! their device makes known: `Blocks` gives the device's bytes, and `Headed` holds the other writer's, the header and
//! then the text.
//!
//! It is a crate of its own, since the program's `main` isn't generic: over std's `File` and `Stdout`, which make no
//! bytes known, the contracts of `Read` and `Write` say nothing of bytes, and a reader that lost a block, or a header
//! in the middle of a report, would meet them. Here the same code is proved for every device, those that make their
//! bytes known among them. It uses nothing of the other crates, so a change of it needs no proof but its own and the
//! program's.
//!
//! `Slot` is a place for a reader: the block is allocated before the device is moved into it, so that nothing is lost
//! if there is no memory for it.
#![tactic(auto)]

mod blocks;
mod headed;
mod slot;

pub use blocks::Blocks;
pub use headed::Headed;
