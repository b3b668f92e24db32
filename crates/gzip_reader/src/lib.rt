//! A reader of gzip files (RFC 1952, with the DEFLATE format of RFC 1951): a `Source` over a `Source`, which gives the
//! bytes that the file's members hold.
//!
//! `Gunzip` decodes as it is read, in 240 KiB of memory whatever the file, and reads from the device only when it has
//! nothing decoded to give. It passes over the members' names and comments. Of each member it compares the header's
//! own check, the CRC-32 and the length. `is_gzip` tells by the first bytes whether a file is one of gzip.
//!
//! How it ends is said by `Gunzip::fault`, a `Flaw` with its offset in the compressed data, or nothing:
//!
//! - The data ends where the file does, after a member. Zero bytes after a member are passed over.
//! - Data that ends early (`Flaw::Truncated`), or that goes on after a member with bytes that begin no other
//!   (`Flaw::Trailing`), ends there: all that was decoded is given, then `Ok(0)`.
//! - Any other flaw is a failure. What was decoded before is given first, then `Err(Failed)` at this call and at all
//!   later ones, each of which is counted. So is a failure of the device.
//!
//! The bytes of a member are given before its checksum is reached: what was given of a member whose trailer wasn't
//! reached, or didn't agree, isn't checked and may be wrong. A file that was cut between two members can't be told
//! from a whole one.
//!
//! What a file unpacks to is `unpacked` in specs/Files.antt, in the words of the RFCs. What a `Gunzip` still gives
//! (`remaining`) is known where its device's bytes are: they are exactly the bytes that the file unpacks to
//! (`Gunzip::gives_what_it_unpacks`), up to the flaw that it ends by, which is the fault that is told
//! (`Gunzip::ends_as_it_unpacks`), unless the device fails.
#![tactic(auto)]

mod alphabet;
mod bit_reader;
mod checksum;
mod decoder;
mod fast;
mod fault;
mod gunzip;
mod huffman;
mod inflater;
mod items;
mod output;

pub use fault::{Fault, Flaw};
pub use gunzip::{Gunzip, LONGEST_HEAD, is_gzip};
