//! Devices, and reading a file to its end.

use std::alloc::Global;
use std::io::{self, ErrorKind, Read};
use std::process::Abort;

/// Gives its bytes in pieces. The read of this number, from 1, fails once; then it goes on.
#[derive(Drop)]
pub struct Failing<'a> {
    rest: &'a [u8],
    piece: usize,
    reads: u32,
    failing: u32,
}

impl<'a> Failing<'a> {
    pub fn new(rest: &'a [u8], piece: usize, failing: u32) -> Failing<'a> {
        Failing {
            rest,
            piece,
            reads: 0,
            failing,
        }
    }
}

impl Read for Failing<'_> {
    fn read(&mut self, buf: &mut [u8]) -> io::Result<usize> {
        self.reads = self.reads.saturating_add(1);
        if self.reads == self.failing {
            return Err(io::Error::from(ErrorKind::TimedOut));
        }
        let count = self.piece.min(buf.len()).min(self.rest.len());
        let (front, rest) = self.rest.split_at(count);
        buf[..count].copy_from_slice(front);
        self.rest = rest;
        Ok(count)
    }
}

/// What was read of a file.
#[derive(Drop)]
pub struct Outcome {
    pub bytes: Vec<u8>,
    /// What the last read failed by.
    pub error: Option<ErrorKind>,
}

/// Reads until the end or a failure, and adds what it reads to these bytes.
pub fn read_on<R: Read>(rt: &impl Abort, reader: &mut R, mut bytes: Vec<u8>) -> Outcome {
    let mut block = [0u8; 7];
    for _ in 0..1_000u32 {
        match reader.read(&mut block) {
            Ok(0) => break,
            Ok(count) => {
                bytes
                    .extend_from_slice(&block[..count])
                    .expect(rt, "memory for the bytes");
            }
            Err(error) => {
                return Outcome {
                    bytes,
                    error: Some(error.kind()),
                };
            }
        }
    }
    Outcome { bytes, error: None }
}

/// Reads until the end or a failure.
pub fn read_all<R: Read>(rt: &impl Abort, alloc: Global, reader: &mut R) -> Outcome {
    read_on(rt, reader, Vec::new(alloc))
}
