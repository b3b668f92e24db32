//! What unpacks a file and hands its pieces over.

ghost use Rattle.std.specs.Prelude.{◌<◌, IfOk, OnErr, length};
ghost use Rattle.std.specs.Io.KnownBytes.{Keeps};
ghost use Rattle.rtrb.specs.Ring.{sent};
ghost use Rattle.packed_io.specs.Making.{IsLeftBy};
ghost use Rattle.packed_io.specs.Pieces.{IsGiven, coming_behind};
ghost use Rattle.packed_io.specs.Reading.{unpacked_remaining};

use crate::pieces::{Ending, Piece, PieceSender};
use crate::unpacked::Unpacked;
use bzip2_reader::Team;
use rtrb::PushError;
use std::alloc::Global;
use std::io::{self, ErrorKind, Read};
use std::marker::Model;

/// How many bytes are unpacked at a time.
const PIECE: usize = 262_144;

/// The system's numbers of errors where no more files can be open, in the process and in the system.
const NO_FILES: [i32; 2] = [24, 23];

/// Whether a file that can't be read now might be when its turn comes: no memory was left, or too many files were open.
fn is_passing(error: &io::Error) -> bool {
    error.kind() == ErrorKind::OutOfMemory
        || error
            .raw_os_error()
            .is_some_and(|number| NO_FILES.contains(&number))
}

/// Unpacks the next piece of a file. What fails for want of means may be tried again.
fn next_piece<D: Read + Drop, T: Team>(
    alloc: Global,
    contents: &mut Unpacked<D>,
    team: &T,
) -> io::Result<Piece<D>>
    requires { T.is_ready team.now }
    ensures given { IfOk result
        (IsGiven (unpacked_remaining D.remaining contents.old) (unpacked_remaining D.remaining contents.new)) }
    ensures kept { OnErr result
        (Keeps (unpacked_remaining D.remaining contents.old) (unpacked_remaining D.remaining contents.new)) }
{
    let mut bytes = Vec::new(alloc);
    bytes.resize(PIECE, 0)?;
    match contents.read_by(team, bytes.as_mut_slice()) {
        Ok(0) => Ok(Piece::End(Ending::Ended(contents.fault()))),
        Ok(count) => {
            bytes.truncate(count);
            Ok(Piece::Bytes(bytes))
        }
        Err(error) => match contents.fault() {
            None if is_passing(&error) => Err(error),
            fault => Ok(Piece::End(Ending::Failed(fault, error))),
        },
    }
}

/// Drops what unpacked a file, if this piece is its end.
fn drop_at_end<D: Read + Drop>(contents: &mut Option<Unpacked<D>>, piece: &Piece<D>)
    ensures { IsLeftBy piece.now contents.old contents.new }
{
    if let Piece::End(_) = piece {
        *contents = None;
    }
}

/// What unpacks a file and hands its pieces over, each the next one of the file's. Contracts see whether it has more to
/// unpack.
#[derive(Drop)]
pub(crate) struct PieceMaker<D: Read> {
    /// None once the end or a failure was met, or the file was left.
    contents: Option<Unpacked<D>>,
    /// What was unpacked last, if it isn't handed over yet.
    kept: Option<Piece<D>>,
    sender: PieceSender<D>,
    /// How many bytes of the packed file were read.
    packed_bytes: u64,
}

impl<D: Read> Model for PieceMaker<D> {
    ghost use Rattle.std.specs.Prelude.{Bool, is_some};
    ghost use Rattle.packed_io.specs.Making.{IsMaking};

    ghost Value = { Bool };

    ghost view = { λ m. is_some m.contents };

    ghost invariant = { λ m. IsMaking D.remaining m.contents m.kept m.sender };
}

impl<D: Read + Drop> PieceMaker<D> {
    pub(crate) fn new(contents: Unpacked<D>, sender: PieceSender<D>) -> PieceMaker<D>
        requires begun { 0 < length (sent sender) }
        requires known { Keeps (coming_behind D.remaining (sent sender)) (unpacked_remaining D.remaining contents) }
    {
        PieceMaker {
            contents: Some(contents),
            kept: None,
            sender,
            packed_bytes: 0,
        }
    }

    /// How many bytes of the packed file were read.
    pub(crate) fn packed_bytes(&self) -> u64 {
        self.packed_bytes
    }

    /// Whether there is nothing more to unpack.
    pub(crate) fn is_over(&self) -> bool {
        self.contents.is_none()
    }

    /// Whether a piece is kept.
    pub(crate) fn has_kept(&self) -> bool {
        self.kept.is_some()
    }

    /// How many bytes the piece has that is kept.
    pub(crate) fn kept_bytes(&self) -> usize {
        match &self.kept {
            Some(piece) => piece.len(),
            None => 0,
        }
    }

    /// Unpacks the next piece, if there is one and no other one is kept.
    pub(crate) fn make<T: Team>(&mut self, alloc: Global, team: &T) -> io::Result<()>
        requires { T.is_ready team.now }
    {
        if self.kept.is_some() {
            return Ok(());
        }
        let Some(contents) = &mut self.contents else {
            return Ok(());
        };
        let piece = next_piece(alloc, contents, team)?;
        self.packed_bytes = contents.packed_bytes();
        drop_at_end(&mut self.contents, &piece);
        self.kept = Some(piece);
        Ok(())
    }

    /// Hands over what was unpacked last, if there is anything and room for it. Returns whether it does.
    pub(crate) fn put(&mut self) -> bool {
        let Some(piece) = self.kept.take() else {
            return false;
        };
        match self.sender.push(piece) {
            Ok(()) => true,
            Err(PushError::Full(piece)) => {
                self.kept = Some(piece);
                false
            }
        }
    }

    /// Drops what unpacks the file, and what isn't handed over yet.
    pub(crate) fn leave(&mut self) {
        self.contents = None;
        self.kept = None;
    }
}
