//! The reader of a packed file that other threads may unpack before it is read.

ghost use Rattle.std.specs.Prelude.{◌≡◌, ◌<◌, ◌≤◌, None, OnOk, false, length, take, true};
ghost use Rattle.std.specs.Io.{ReadsAtMost};
ghost use Rattle.std.specs.Io.KnownBytes.{Consumes, Keeps, ReadConsumes};
ghost use Rattle.packed_io.specs.Faults.{EndsTheData};
ghost use Rattle.packed_io.specs.Pieces.{is_told_ending, pieces_remaining};

use crate::fault::PackedFault;
use crate::head::copy_front;
use crate::packed_files::{Pace, PackedFiles};
use crate::pieces::{Ending, Piece, Pieces};
use std::alloc::Global;
use std::io::{self, ErrorKind, Read};

/// The reader of a packed file of a run. It gives what `Unpacked` gives, unpacked by other threads as far as they did,
/// and else in the calling one.
#[derive(Drop)]
pub struct PackedReader<'l, D: Read, P> {
    files: &'l PackedFiles<D>,
    pieces: Pieces<D>,
    pace: P,
    is_begun: bool,
    bytes: Vec<u8>,
    /// How many of these were given.
    given: usize,
    ending: Option<Ending>,
    ghost told: { is_told_ending ending ≡ true },
}

impl<'l, D: Read + Drop, P: Pace> PackedReader<'l, D, P> {
    ghost use Rattle.packed_io.specs.Ahead.{HasEnded, HasMore, WaitsForMore, not_given, reader_remaining};

    pub fn new(
        alloc: Global,
        files: &'l PackedFiles<D>,
        pieces: Pieces<D>,
        pace: P,
    ) -> PackedReader<'l, D, P>
        ensures { reader_remaining D.remaining result ≡ pieces_remaining D.remaining pieces }
    {
        PackedReader {
            files,
            pieces,
            pace,
            is_begun: false,
            bytes: Vec::new(alloc),
            given: 0,
            ending: None,
        }
    }

    /// How many bytes of the packed file were read.
    pub fn packed_bytes(&self) -> u64 {
        match self.files.file(self.pieces.place) {
            Some(file) => file.packed_bytes(),
            None => 0,
        }
    }

    /// What is wrong with the packed file, once its end or a failure was told.
    pub fn fault(&self) -> Option<PackedFault>
        ensures { HasEnded self.now → EndsTheData result }
    {
        match self.ending {
            Some(Ending::Ended(fault)) | Some(Ending::Failed(fault, _)) => fault,
            None => None,
        }
    }

    /// Takes the piece that comes next, if one waits. Returns whether it did; the first one, which has no bytes, is passed
    /// over.
    fn take_piece(&mut self) -> bool
        requires { WaitsForMore self.old }
        ensures kept { Keeps (reader_remaining D.remaining self.old) (reader_remaining D.remaining self.new) }
        ensures more { result ≡ true → HasMore self.new }
        ensures none { result ≡ false → WaitsForMore self.new }
    {
        match self.pieces.receiver.pop() {
            Ok(Piece::Bytes(bytes)) => {
                self.bytes = bytes;
                self.given = 0;
                true
            }
            Ok(Piece::End(ending)) => {
                self.ending = Some(ending);
                true
            }
            Ok(Piece::Start(_)) | Err(_) => false,
        }
    }

    /// Goes on to the next piece. Where none waits and no other thread is unpacking the file, this thread does. A
    /// thread that is unpacking it waits for nobody, so a piece comes.
    #[inline(never)]
    fn advance(&mut self) -> io::Result<()>
        requires { WaitsForMore self.old }
        ensures kept { Keeps (reader_remaining D.remaining self.old) (reader_remaining D.remaining self.new) }
        ensures more { OnOk result (HasMore self.new) }
    {
        if !self.is_begun {
            self.is_begun = true;
            self.files.begin(self.pieces.place);
        }
        let files = self.files;
        let Some(file) = files.file(self.pieces.place) else {
            return Err(io::Error::from(ErrorKind::NotFound));
        };
        for looks in 0..u32::MAX {
            if self.take_piece() {
                if self.ending.is_none() {
                    file.take(self.bytes.len(), files.slots());
                }
                return Ok(());
            }
            if !file.help(files.slots())? {
                self.pace.wait(looks);
            }
        }
        Err(io::Error::from(ErrorKind::TimedOut))
    }

    /// Whether there is nothing to give before the next piece.
    fn waits(&self) -> bool
        ensures waits { result ≡ true → WaitsForMore self.now }
        ensures has { result ≡ false → HasMore self.now }
    {
        self.ending.is_none() && self.given >= self.bytes.len()
    }

    /// What wasn't given yet of the piece that was taken last.
    fn rest(&self) -> &[u8]
        ensures { result.now ≡ not_given self.now }
    {
        match self.bytes.as_slice().get(self.given..) {
            Some(rest) => rest,
            None => &[],
        }
    }

    /// Gives bytes of the piece that was taken last.
    fn give(&mut self, buf: &mut [u8]) -> usize
        requires goes { self.old.ending ≡ None }
        ensures few { result ≤ length buf.new }
        ensures some { 0 < length (not_given self.old) → 0 < length buf.new → 0 < result }
        ensures bytes { Consumes (reader_remaining D.remaining self.old) (reader_remaining D.remaining self.new) (take result buf.new) }
    {
        let count = copy_front(self.rest(), buf);
        self.given += count;
        count
    }

    /// Gives what there is: bytes, the end or a failure.
    fn read_on(&mut self, buf: &mut [u8]) -> io::Result<usize>
        requires { HasMore self.old }
        ensures bound { ReadsAtMost result buf.new }
        ensures bytes { ReadConsumes (reader_remaining D.remaining self.old) (reader_remaining D.remaining self.new) result buf.new }
    {
        match self.ending {
            None => Ok(self.give(buf)),
            Some(Ending::Ended(_)) => Ok(0),
            Some(Ending::Failed(_, error)) => Err(error),
        }
    }
}

impl<D: Read + Drop, P: Pace> Read for PackedReader<'_, D, P> {
    ghost use Rattle.packed_io.specs.Ahead.{reader_remaining};

    ghost remaining = { reader_remaining D.remaining };

    fn read(&mut self, buf: &mut [u8]) -> io::Result<usize> {
        if buf.is_empty() {
            return Ok(0);
        }
        if self.waits() {
            self.advance()?;
        }
        self.read_on(buf)
    }
}
