//! A checkpoint: the tables of all peers, written as an MRT dump (RFC 6396, 4.3 and 4.4).
//!
//! `write_checkpoint` writes the bytes of a definition over the tables (`written_checkpoint`), and returns the routes
//! that it left out, whose attributes are too long. If there are none, these bytes are the checkpoint of the units that
//! the tables stand for (`checkpoints_are_of_units`), of which `table_dumps` has the laws.
//!
//! - Each peer's entries are listed once, in the order of their keys, and a cursor walks them. `Merge` has a heap of
//!   the first prefix of each peer. A step takes the least prefix, with the routes of each peer that has it: no peer is
//!   asked for a prefix that it doesn't have, and nothing is allocated for a route. That this gives the records of the
//!   definition is `prefixes_are_written_in_order`.
//! - The entries of a record are collected first (`PrefixRecords`), since their count and length stand before them. One
//!   buffer serves all records, and one the attributes of all routes.
//! - The attributes of each route are encoded twice: first to see that they aren't too long, since whether identifiers
//!   are written depends on all routes of a prefix that are.
#![tactic(auto)]

mod checkpoint;
mod cursor;
mod laws;
mod listing;
mod merge;
mod peer_records;
mod prefix_records;
mod prefixes;
mod waiting;

pub use checkpoint::write_checkpoint;
pub use laws::{checkpoints_are_of_units, prefixes_are_written_in_order};
