//! The pieces of a packed file, on their way from who unpacks it to who reads it.

ghost use Rattle.std.specs.Prelude.{◌≡◌, ◌<◌, IfOk, length};
ghost use Rattle.rtrb.specs.Ring.{sent};
ghost use Rattle.packed_io.specs.Formats.{told_of};
ghost use Rattle.packed_io.specs.Pieces.{coming_behind, pieces_remaining};

use crate::fault::PackedFault;
use rtrb::{Consumer, Producer, Protocol, RingBuffer};
use std::alloc::{AllocError, Global};
use std::io::{self, Read};

/// How a file ended.
#[derive(Clone, Copy, Drop)]
pub(crate) enum Ending {
    /// All its bytes were given.
    Ended(Option<PackedFault>),
    Failed(Option<PackedFault>, io::Error),
}

/// What is handed over of a file.
#[derive(Drop)]
pub(crate) enum Piece<D> {
    /// First of all its device, before it was read.
    Start(D),
    Bytes(Vec<u8>),
    /// Last of all.
    End(Ending),
}

impl<D> Piece<D> {
    /// How many bytes it has.
    pub(crate) fn len(&self) -> usize {
        match self {
            Piece::Bytes(bytes) => bytes.len(),
            Piece::Start(_) | Piece::End(_) => 0,
        }
    }
}

/// Each piece is the next of its file.
#[derive(Clone, Copy)]
pub(crate) struct InOrder;

impl<D: Read> Protocol<Piece<D>> for InOrder {
    ghost use Rattle.packed_io.specs.Pieces.{IsNext};

    ghost allows = { IsNext D.remaining };
}

/// Who unpacks a file hands its pieces over by this.
pub(crate) type PieceSender<D> = Producer<Piece<D>, Global, InOrder>;

/// The pieces of a packed file, in order, as they are unpacked: for who reads it.
#[derive(Drop)]
pub struct Pieces<D: Read> {
    /// Its place among the packed files of a run.
    pub(crate) place: usize,
    pub(crate) receiver: Consumer<Piece<D>, Global, InOrder>,
}

/// Returns the two ends by which as many pieces of a file may be on their way as there is room for, and at least one,
/// and the device. That goes through the ring first, so that each end knows what the file gives.
pub(crate) fn pieces_of<D: Read + Drop>(
    alloc: Global,
    place: usize,
    room: usize,
    device: D,
) -> Result<(PieceSender<D>, Pieces<D>, D), AllocError>
    ensures device { IfOk result (λ ends. ends.2 ≡ device) }
    ensures sent { IfOk result (λ ends. 0 < length (sent ends.0)) }
    ensures known { IfOk result (λ ends. coming_behind D.remaining (sent ends.0) ≡ told_of (D.remaining device)) }
    ensures received { IfOk result (λ ends. pieces_remaining D.remaining ends.1 ≡ told_of (D.remaining device)) }
{
    let (mut sender, mut receiver) = RingBuffer::with_protocol::<Global, InOrder>(
        alloc,
        room.max(1),
    )?;
    sender.push_reserved(Piece::Start(device));
    receiver.slots_beside(&mut sender);
    match receiver.pop_known() {
        Piece::Start(device) => Ok((sender, Pieces { place, receiver }, device)),
        Piece::Bytes(_) | Piece::End(_) => unreachable!(),
    }
}
