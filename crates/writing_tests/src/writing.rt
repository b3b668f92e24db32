//! Bytes that were written by hand from the RFCs, beside what is written.

mod dumps;
mod routes;

use fixtures::bytes_of;
use std::alloc::Global;
use std::process::Abort;

/// Expects the bytes of these words.
fn expect_bytes(rt: &impl Abort, alloc: Global, bytes: &[u8], words: &str) {
    let expected = bytes_of(alloc, words).expect(rt, "memory for bytes");
    assert!(rt; bytes == expected.as_slice());
}
