//! Whole files.

use super::reading::{EMPTY, HELLO, PAIRS, RUNS, Reading, TEXT, read_by};
use bzip2_reader::{Alone, Beside, Bunzip, is_bzip2};
use fixtures::bytes_of;
use mrt_frame::Counted;
use std::alloc::Global;
use std::process::Abort;

/// What this file gives.
fn reading_of(rt: &impl Abort, alloc: Global, file: &[u8]) -> Reading {
    let mut reader = Bunzip::new(alloc, Counted::new(file));
    read_by(alloc, &mut reader, &Alone).expect(rt, "memory for a file")
}

/// Expects that a file gives these bytes, and has no damage.
fn expect_bytes(rt: &impl Abort, alloc: Global, file: &[u8], bytes: &[u8]) {
    let reading = reading_of(rt, alloc, file);
    assert!(rt; reading.bytes.as_slice() == bytes);
    assert!(rt; !reading.has_failed && reading.damage.is_none());
}

#[test]
fn streams_give_their_bytes_one_after_the_other(rt: HostRuntime) {
    let alloc = rt.alloc();
    expect_bytes(&rt, alloc, &[], &[]);
    expect_bytes(&rt, alloc, &HELLO, TEXT.as_bytes());
    let empty = bytes_of(alloc, EMPTY).expect(&rt, "memory for a file");
    expect_bytes(&rt, alloc, empty.as_slice(), &[]);
    let mut file = Vec::new(alloc);
    for part in [&HELLO, empty.as_slice(), &HELLO] {
        file.extend_from_slice(part)
            .expect(&rt, "memory for a file");
    }
    expect_bytes(&rt, alloc, file.as_slice(), b"hello, bzip2\nhello, bzip2\n");
}

#[test]
fn runs_are_written_out(rt: HostRuntime) {
    let alloc = rt.alloc();
    let mut bytes = Vec::new(alloc);
    let lengths = [1usize, 2, 3, 4, 5, 6, 255, 256, 258, 259, 260, 3];
    for (length, letter) in lengths.into_iter().zip(b"abcabcabcabc") {
        let more = bytes.len().saturating_add(length);
        bytes.resize(more, *letter).expect(&rt, "memory for runs");
    }
    let file = bytes_of(alloc, RUNS).expect(&rt, "memory for a file");
    expect_bytes(&rt, alloc, file.as_slice(), bytes.as_slice());
}

/// Expects 150,000 times the bytes `ab`.
fn expect_pairs(rt: &impl Abort, reading: &Reading) {
    assert!(rt; reading.bytes.len() == 300_000 && reading.damage.is_none());
    let (pairs, _) = reading.bytes.as_slice().as_chunks::<2>();
    assert!(rt; pairs.iter().all(|pair| *pair == [b'a', b'b']));
}

#[test]
fn threads_give_the_same_bytes(rt: HostRuntime) {
    let alloc = rt.alloc();
    let file = bytes_of(alloc, PAIRS).expect(&rt, "memory for a file");
    expect_pairs(&rt, &reading_of(&rt, alloc, file.as_slice()));
    let mut reader = Bunzip::new(alloc, Counted::new(file.as_slice()));
    let reading = read_by(alloc, &mut reader, &Beside(&rt, 2)).expect(&rt, "memory for a file");
    expect_pairs(&rt, &reading);
}

#[test]
fn ten_bytes_tell_the_format(rt: HostRuntime) {
    assert!(rt; is_bzip2(&HELLO[..10]) && !is_bzip2(&HELLO[..9]) && !is_bzip2(&[]));
    let empty = bytes_of(rt.alloc(), EMPTY).expect(&rt, "memory for a file");
    assert!(rt; is_bzip2(empty.as_slice()));
    for place in 0..10usize {
        let mut front = HELLO;
        front[place] = 0x2F;
        assert!(rt; !is_bzip2(&front));
    }
}
