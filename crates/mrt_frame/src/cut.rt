// What a dump's bytes are cut into.

use crate::fault::Fault;
use bgp_prefix::Sequence;

/// A whole record: the fields of its header, and its body (RFC 6396, section 2).
#[derive(Debug, Drop)]
pub struct Record {
    /// Where it begins, in bytes from the start of its file.
    pub offset: u64,
    /// Its timestamp, in seconds since 1970 UTC.
    pub seconds: u32,
    /// Its type.
    pub kind: u16,
    pub subtype: u16,
    /// The bytes after the 12 of the header.
    pub body: Sequence<u8>,
}

/// A record, or what is at the end of a file instead of one.
#[derive(Debug, Drop)]
pub enum Cut {
    Whole(Record),
    Broken { offset: u64, fault: Fault },
}
