//! What unpacks a file.

ghost use Rattle.std.specs.Prelude.{◌≡◌, ◌≤◌, IfOk, OnErr, box_value, length, take};
ghost use Rattle.std.specs.Io.KnownBytes.{Consumes, prepend_known};
ghost use Rattle.mrt_frame.specs.Devices.{counted_device};
ghost use Rattle.gzip_reader.specs.Gives.{left_known};
ghost use Rattle.gzip_reader.specs.Readers.{gunzip_source};
ghost use Rattle.bzip2_reader.specs.Coming.{given_of};
ghost use Rattle.bzip2_reader.specs.Reading.{device_of, to_come};
ghost use Rattle.packed_io.specs.Devices.{head_bytes, place_remaining};
ghost use Rattle.packed_io.specs.Endings.{KeepsEnding, ending_in};
ghost use Rattle.packed_io.specs.Stages.{IsMade, IsOutcome, OutcomeConsumes, OutcomeEnds, decoder_ending, decoder_remaining};

use crate::fault::{PackedCause, PackedFault};
use crate::format::Format;
use crate::head::Head;
use crate::place::Place;
use bzip2_reader::{Bunzip, Cause, Damage, Team};
use gzip_reader::{Fault, Gunzip};
use mrt_frame::{Counted, Source};
use std::alloc::{AllocError, Global};
use std::io::{self, ErrorKind, Read};

/// What a read of a packed file comes to.
pub(crate) enum Outcome {
    /// It gave so many bytes: none only where there is no room.
    Gave(usize),
    /// All bytes were given.
    Ended(Option<PackedFault>),
    Failed(PackedFault, io::Error),
}

/// What unpacks a file.
#[derive(Drop)]
pub(crate) enum Decoder<D> {
    /// It isn't made yet: a file of no bytes.
    Empty,
    Gzip(Gunzip<Counted<Place<D>>>),
    Bzip2(Bunzip<Counted<Place<D>>>),
}

/// The fault of a gzip file.
fn gzip_fault(fault: Fault) -> PackedFault
    ensures offset { result.offset ≡ fault.offset }
    ensures cause { result.cause ≡ PackedCause.Gzip fault.flaw }
{
    PackedFault {
        offset: fault.offset,
        cause: PackedCause::Gzip(fault.flaw),
    }
}

/// The fault of a bzip2 file.
fn bzip2_fault(damage: Damage) -> PackedFault
    ensures offset { result.offset ≡ damage.offset }
    ensures cause { result.cause ≡ PackedCause.Bzip2 damage.cause }
{
    PackedFault {
        offset: damage.offset,
        cause: PackedCause::Bzip2(damage.cause),
    }
}

/// The error of a read that failed by this fault: the device's own, if it was that.
fn error_of(fault: PackedFault, device: Option<io::Error>) -> io::Error {
    match (fault.cause, device) {
        (PackedCause::Gzip(gzip_reader::Flaw::Device), Some(error)) => error,
        (PackedCause::Bzip2(Cause::Device), Some(error)) => error,
        (PackedCause::Bzip2(Cause::Memory), _) => io::Error::from(ErrorKind::OutOfMemory),
        _ => io::Error::new(ErrorKind::InvalidData, fault.words()),
    }
}

fn read_gzip<D: Read>(gunzip: &mut Gunzip<Counted<Place<D>>>, buf: &mut [u8]) -> Outcome
    ensures outcome { IsOutcome result buf.new }
    ensures bytes { OutcomeConsumes (left_known gunzip.old (place_remaining D.remaining (counted_device (gunzip_source gunzip.old))))
        (left_known gunzip.new (place_remaining D.remaining (counted_device (gunzip_source gunzip.new)))) result buf.new }
    ensures ending { OutcomeEnds D.remaining (Decoder.Gzip gunzip.old) (Decoder.Gzip gunzip.new) result }
{
    gunzip.source().gives_its_bytes();
    let read = gunzip.read_some(buf);
    gunzip.source().gives_its_bytes();
    gunzip.ends_as_it_unpacks();
    match read {
        Ok(0) if !buf.is_empty() => Outcome::Ended(gunzip.fault().map(gzip_fault)),
        Ok(count) => Outcome::Gave(count),
        Err(_) => match gunzip.fault() {
            Some(fault) => {
                let fault = gzip_fault(fault);
                Outcome::Failed(fault, error_of(fault, gunzip.source().device().error()))
            }
            None => unreachable!(),
        },
    }
}

#[inline(always)]
fn take_gzip<D: Read>(gunzip: &mut Gunzip<Counted<Place<D>>>, buf: &mut [u8]) -> usize
    ensures bound { result ≤ length buf.new }
    ensures bytes { Consumes (left_known gunzip.old (place_remaining D.remaining (counted_device (gunzip_source gunzip.old))))
        (left_known gunzip.new (place_remaining D.remaining (counted_device (gunzip_source gunzip.new)))) (take result buf.new) }
    ensures ending { KeepsEnding (decoder_ending D.remaining (Decoder.Gzip gunzip.old)) (decoder_ending D.remaining (Decoder.Gzip gunzip.new)) }
{
    gunzip.source().gives_its_bytes();
    let count = gunzip.take_held(buf);
    gunzip.source().gives_its_bytes();
    count
}

fn read_bzip2<D: Read, T: Team>(
    bunzip: &mut Bunzip<Counted<Place<D>>>,
    team: &T,
    buf: &mut [u8],
) -> Outcome
    requires { T.is_ready team.now }
    ensures outcome { IsOutcome result buf.new }
    ensures bytes { OutcomeConsumes (given_of (to_come (place_remaining D.remaining (counted_device (device_of bunzip.old))) bunzip.old))
        (given_of (to_come (place_remaining D.remaining (counted_device (device_of bunzip.new))) bunzip.new)) result buf.new }
    ensures ending { OutcomeEnds D.remaining (Decoder.Bzip2 bunzip.old) (Decoder.Bzip2 bunzip.new) result }
{
    bunzip.device().gives_its_bytes();
    let read = bunzip.read_by(team, buf);
    bunzip.device().gives_its_bytes();
    match read {
        Ok(0) if !buf.is_empty() => Outcome::Ended(bunzip.damage().map(bzip2_fault)),
        Ok(count) => Outcome::Gave(count),
        Err(_) => match bunzip.damage() {
            Some(damage) => {
                let fault = bzip2_fault(damage);
                Outcome::Failed(fault, error_of(fault, bunzip.device().device().error()))
            }
            None => unreachable!(),
        },
    }
}

impl<D: Read + Drop> Decoder<D> {
    /// Makes what unpacks a file of this form with these first bytes, and takes the device out of its place. Without
    /// memory for it the device stays there.
    pub(crate) fn make(
        alloc: Global,
        format: Format,
        head: &Head,
        place: &mut Place<D>,
    ) -> Result<Box<Decoder<D>>, AllocError>
        ensures made { IfOk result (λ made. IsMade D.remaining format
            (prepend_known (head_bytes head.now) (place_remaining D.remaining place.old)) (box_value made)) }
        ensures ending { IfOk result (λ made. KeepsEnding (ending_in format
            (prepend_known (head_bytes head.now) (place_remaining D.remaining place.old))) (decoder_ending D.remaining (box_value made))) }
        ensures kept { OnErr result (place.new ≡ place.old) }
    {
        let mut made = Box::new(alloc, Decoder::Empty)?;
        *made = Decoder::over(alloc, format, head, place)?;
        Ok(made)
    }

    /// The same, but for its box.
    fn over(
        alloc: Global,
        format: Format,
        head: &Head,
        place: &mut Place<D>,
    ) -> Result<Decoder<D>, AllocError>
        ensures made { IfOk result (IsMade D.remaining format
            (prepend_known (head_bytes head.now) (place_remaining D.remaining place.old))) }
        ensures ending { IfOk result (λ made. KeepsEnding (ending_in format
            (prepend_known (head_bytes head.now) (place_remaining D.remaining place.old))) (decoder_ending D.remaining made)) }
        ensures kept { OnErr result (place.new ≡ place.old) }
    {
        match format {
            Format::Plain => Ok(Decoder::Empty),
            Format::Gzip => {
                let gunzip = Gunzip::with_head(alloc, head.as_slice(), ())?;
                let gunzip = gunzip.over(Counted::new(place.take_out()));
                gunzip.gives_what_it_unpacks();
                gunzip.source().gives_its_bytes();
                Ok(Decoder::Gzip(gunzip))
            }
            Format::Bzip2 => {
                let front = Vec::from_slice(alloc, head.as_slice())?;
                let bunzip = Bunzip::with_front(front, Counted::new(place.take_out()));
                bunzip.device().gives_its_bytes();
                Ok(Decoder::Bzip2(bunzip))
            }
        }
    }
}

impl<D: Read> Decoder<D> {
    /// How many bytes were read of the device.
    pub(crate) fn bytes_read(&self) -> u64 {
        match self {
            Decoder::Empty => 0,
            Decoder::Gzip(gunzip) => gunzip.source().device().bytes_read(),
            Decoder::Bzip2(bunzip) => bunzip.device().device().bytes_read(),
        }
    }

    /// Gives bytes that a gzip file's decoder holds, as many as it has and as there is room for. Nothing is read.
    #[inline(always)]
    fn take_held(&mut self, buf: &mut [u8]) -> usize
        ensures bound { result ≤ length buf.new }
        ensures bytes { Consumes (decoder_remaining D.remaining self.old) (decoder_remaining D.remaining self.new) (take result buf.new) }
        ensures ending { KeepsEnding (decoder_ending D.remaining self.old) (decoder_ending D.remaining self.new) }
    {
        match self {
            Decoder::Gzip(gunzip) => take_gzip(gunzip, buf),
            _ => 0,
        }
    }

    /// Reads some bytes. The team decodes blocks of bzip2.
    pub(crate) fn read_by<T: Team>(&mut self, team: &T, buf: &mut [u8]) -> Outcome
        requires { T.is_ready team.now }
        ensures outcome { IsOutcome result buf.new }
        ensures bytes { OutcomeConsumes (decoder_remaining D.remaining self.old) (decoder_remaining D.remaining self.new)
            result buf.new }
        ensures ending { OutcomeEnds D.remaining self.old self.new result }
    {
        match self {
            Decoder::Empty => Outcome::Ended(None),
            Decoder::Gzip(gunzip) => read_gzip(gunzip, buf),
            Decoder::Bzip2(bunzip) => read_bzip2(bunzip, team, buf),
        }
    }
}

/// Gives bytes that the decoder in this box holds, as many as it has and as there is room for. Nothing is read.
#[inline(always)]
pub(crate) fn take_boxed<D: Read>(decoder: &mut Box<Decoder<D>>, buf: &mut [u8]) -> usize
    ensures bound { result ≤ length buf.new }
    ensures bytes { Consumes (decoder_remaining D.remaining (box_value decoder.old))
        (decoder_remaining D.remaining (box_value decoder.new)) (take result buf.new) }
    ensures ending { KeepsEnding (decoder_ending D.remaining (box_value decoder.old)) (decoder_ending D.remaining (box_value decoder.new)) }
{
    decoder.take_held(buf)
}

/// Reads some bytes by the decoder in this box, and how many bytes were then read of the device.
pub(crate) fn read_boxed<D: Read, T: Team>(
    decoder: &mut Box<Decoder<D>>,
    team: &T,
    buf: &mut [u8],
) -> (Outcome, u64)
    requires { T.is_ready team.now }
    ensures outcome { IsOutcome result.0 buf.new }
    ensures bytes { OutcomeConsumes (decoder_remaining D.remaining (box_value decoder.old))
        (decoder_remaining D.remaining (box_value decoder.new)) result.0 buf.new }
    ensures ending { OutcomeEnds D.remaining (box_value decoder.old) (box_value decoder.new) result.0 }
{
    let outcome = decoder.read_by(team, buf);
    (outcome, decoder.bytes_read())
}
