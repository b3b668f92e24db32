//! The first bytes of a file, and a reader that begins with them.

ghost use Rattle.std.specs.Prelude.{◌≡◌, ◌≤◌, ◌+◌, ◌++◌, [], length, min, drop, take};
ghost use Rattle.packed_io.specs.declared.head.TheConstants.{TELLING};

use crate::place::Place;
use std::io::{self, Read};

/// How many first bytes tell what a file is: four of bzip2's stream, and six of its first block.
pub(crate) const TELLING: usize = 10;

/// The first bytes of a file, as far as they were read.
#[derive(Clone, Copy, Drop)]
pub(crate) struct Head {
    bytes: [u8; TELLING],
    filled: usize,
    ghost within: { filled ≤ TELLING },
}

impl Head {
    ghost use Rattle.packed_io.specs.Devices.{head_bytes};

    pub(crate) fn new() -> Head
        ensures { head_bytes result ≡ [] }
    {
        Head {
            bytes: [0; TELLING],
            filled: 0,
        }
    }

    pub(crate) fn as_slice(&self) -> &[u8]
        ensures bytes { result.now ≡ head_bytes self.now }
        ensures size { length result.now ≤ TELLING }
    {
        &self.bytes[..self.filled]
    }

    /// The bytes from this place on.
    pub(crate) fn from(&self, given: usize) -> &[u8]
        ensures { result.now ≡ drop given (head_bytes self.now) }
    {
        match self.as_slice().get(given..) {
            Some(rest) => rest,
            None => &[],
        }
    }

    /// How many bytes are still wanted.
    pub(crate) fn room(&self) -> usize
        ensures { result + length (head_bytes self.now) ≡ TELLING }
    {
        TELLING - self.filled
    }

    /// Adds the bytes that come next.
    pub(crate) fn add(&mut self, bytes: &[u8])
        requires { length (head_bytes self.old) + length bytes.now ≤ TELLING }
        ensures { head_bytes self.new ≡ head_bytes self.old ++ bytes.now }
    {
        let end = self.filled + bytes.len();
        self.bytes[self.filled..end].copy_from_slice(bytes);
        self.filled = end;
    }
}

/// A reader of a file whose first bytes were read before: it gives these, and then its device's.
#[derive(Drop)]
pub(crate) struct HeadFirst<D> {
    pub(crate) head: Head,
    /// How many of the first bytes were given.
    pub(crate) given: usize,
    pub(crate) place: Place<D>,
}

impl<D: Read> Read for HeadFirst<D> {
    ghost use Rattle.packed_io.specs.Devices.{first_remaining};

    ghost remaining = { first_remaining D.remaining };

    // A block is read at once, so this is called seldom: its locals are no part of each read.
    #[inline(never)]
    fn read(&mut self, buf: &mut [u8]) -> io::Result<usize> {
        let rest = self.head.from(self.given);
        if rest.is_empty() {
            return self.place.read(buf);
        }
        let count = copy_front(rest, buf);
        self.given += count;
        Ok(count)
    }
}

/// Copies as many bytes as there are and as there is room for.
pub(crate) fn copy_front(bytes: &[u8], buf: &mut [u8]) -> usize
    ensures count { result ≡ min (length bytes.now) (length buf.new) }
    ensures bytes { take result buf.new ≡ take result bytes.now }
{
    let count = bytes.len().min(buf.len());
    buf[..count].copy_from_slice(&bytes[..count]);
    count
}
