//! Packed files that other threads unpack before they are read.

use crate::files::{BZIP2, EMPTY_BZIP2, EMPTY_GZIP, GZIP, PLAIN, file_of};
use crate::reading::{Failing, read_all};
use packed_io::{Pace, PackedFiles, PackedReader, Pieces};
use std::alloc::Global;
use std::io::ErrorKind;
use std::marker::Sync;
use std::process::Abort;
use std::thread::{Threads, join, yield_now};

/// Lets threads look again at once.
#[derive(Clone, Copy)]
struct Eager {
    /// Whether it says that the reading has begun.
    has_begun: bool,
}

impl Pace for Eager {
    fn has_begun(&self) -> bool {
        self.has_begun
    }

    fn rest(&self, _looks: u32) {
        yield_now();
    }

    fn wait(&self, _looks: u32) {
        yield_now();
    }
}

const BEGUN: Eager = Eager { has_begun: true };

const NOT_BEGUN: Eager = Eager { has_begun: false };

/// The packed files of a run, and the pieces of each.
type Ahead<'a> = (PackedFiles<Failing<'a>>, Vec<Pieces<Failing<'a>>>);

/// These files for so many threads. Each read of a file gives five bytes.
fn packed_of<'a>(
    rt: &impl Abort,
    alloc: Global,
    files: &'a [Vec<u8>],
    threads: usize,
) -> Ahead<'a> {
    let mut packed = PackedFiles::new(alloc, threads);
    let mut all = Vec::new(alloc);
    for file in files {
        let device = Failing::new(file.as_slice(), 5, 0);
        let pieces = packed.add(device, 2).expect(rt, "memory for a packed file");
        all.push(pieces).expect(rt, "memory for its pieces");
    }
    (packed, all)
}

/// Files in each form, an empty one of each among them.
fn files_of(rt: &impl Abort, alloc: Global) -> Vec<Vec<u8>> {
    let mut files = Vec::new(alloc);
    for digits in [GZIP, BZIP2, EMPTY_GZIP, BZIP2, EMPTY_BZIP2, GZIP, BZIP2] {
        files
            .push(file_of(rt, alloc, digits))
            .expect(rt, "memory for a file");
    }
    files
}

/// Expects that each file gives its text, in turn, and ends whole.
fn expect_texts<'a>(
    rt: &impl Abort,
    alloc: Global,
    files: &[Vec<u8>],
    packed: &PackedFiles<Failing<'a>>,
    all: Vec<Pieces<Failing<'a>>>,
) {
    let text = file_of(rt, alloc, PLAIN);
    for (file, pieces) in files.iter().zip(all) {
        let mut reader = PackedReader::new(alloc, packed, pieces, BEGUN);
        let read = read_all(rt, alloc, &mut reader);
        let is_empty = file.len() < 30;
        let expected: &[u8] = if is_empty { &[] } else { text.as_slice() };
        assert!(rt; read.error.is_none() && read.bytes.as_slice() == expected);
        assert!(rt; reader.fault().is_none());
        assert!(rt; reader.packed_bytes() == file.len() as u64);
    }
}

/// Files are unpacked by the reading thread alone, by others before they are read, and by others while they are read.
#[test]
fn each_file_gives_its_text_whoever_unpacks_it(rt: HostRuntime) {
    let alloc = rt.alloc();
    let files = files_of(&rt, alloc);
    let (packed, all) = packed_of(&rt, alloc, files.as_slice(), 2);
    expect_texts(&rt, alloc, files.as_slice(), &packed, all);
    for threads in [1usize, 2, 4] {
        expect_ahead(&rt, alloc, files.as_slice(), threads);
        expect_beside(&rt, alloc, files.as_slice(), threads);
    }
}

/// What was unpacked before the reading begins is read then, and nobody waits for it to begin.
fn expect_ahead<R: Abort + Threads + Sync>(
    rt: &R,
    alloc: Global,
    files: &[Vec<u8>],
    threads: usize,
) {
    let (packed, all) = packed_of(rt, alloc, files, threads);
    packed.unpack(rt, &NOT_BEGUN);
    expect_texts(rt, alloc, files, &packed, all);
}

fn expect_beside<R: Abort + Threads + Sync>(
    rt: &R,
    alloc: Global,
    files: &[Vec<u8>],
    threads: usize,
) {
    let (packed, all) = packed_of(rt, alloc, files, threads);
    join(
        rt,
        || packed.unpack(rt, &BEGUN),
        || {
            expect_texts(rt, alloc, files, &packed, all);
            packed.end();
        },
    );
}

/// A file that is left isn't read on, and the next one gives its text.
#[test]
fn a_file_may_be_left(rt: HostRuntime) {
    let alloc = rt.alloc();
    let files = files_of(&rt, alloc);
    let text = file_of(&rt, alloc, PLAIN);
    let (packed, all) = packed_of(&rt, alloc, files.as_slice(), 2);
    packed.unpack(&rt, &NOT_BEGUN);
    let pieces = all.into_iter().nth(5).expect(&rt, "a sixth file");
    let mut reader = PackedReader::new(alloc, &packed, pieces, BEGUN);
    let read = read_all(&rt, alloc, &mut reader);
    assert!(rt; read.error.is_none() && read.bytes.as_slice() == text.as_slice());
}

/// Expects that a file that fails so gives this kind of error, whether it is unpacked before or not.
fn expect_failure<R: Abort + Threads + Sync>(
    rt: &R,
    alloc: Global,
    file: &[u8],
    failing: u32,
    is_before: bool,
) {
    let mut packed = PackedFiles::new(alloc, 2);
    let device = Failing::new(file, 5, failing);
    let pieces = packed.add(device, 1).expect(rt, "memory for a packed file");
    if is_before {
        packed.unpack(rt, &NOT_BEGUN);
    }
    let mut reader = PackedReader::new(alloc, &packed, pieces, BEGUN);
    for _ in 0..2u32 {
        let read = read_all(rt, alloc, &mut reader);
        assert!(rt; read.error == Some(ErrorKind::TimedOut));
    }
}

/// A failure is told where the file is read, and stays.
#[test]
fn what_fails_before_it_is_read_fails_where_it_is(rt: HostRuntime) {
    let alloc = rt.alloc();
    let file = file_of(&rt, alloc, GZIP);
    for failing in [1u32, 2, 3, 9] {
        expect_failure(&rt, alloc, file.as_slice(), failing, true);
        expect_failure(&rt, alloc, file.as_slice(), failing, false);
    }
}
