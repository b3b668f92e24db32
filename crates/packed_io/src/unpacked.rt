//! A reader of files that may be packed.

ghost use Rattle.std.specs.Prelude.{◌≡◌, ◌<◌, ◌≤◌, ◌⊎◌, Some, length, take, true, IfOk, IsErr, IsOk, OnErr, OnOk};
ghost use Rattle.std.specs.Io.{ReadsAtMost};
ghost use Rattle.std.specs.Io.KnownBytes.{Consumes, Keeps, ReadConsumes};
ghost use Rattle.packed_io.specs.Endings.{KeepsEnding, TellsEnding, ending_of};
ghost use Rattle.packed_io.specs.Formats.{told_of};
ghost use Rattle.packed_io.specs.Faults.{EndsTheData, FailsReading};
ghost use Rattle.packed_io.specs.Stages.{IsWhole, Opens, StageUnpacks, is_told, known_bytes, stage_ending, stage_failed_ending};

use crate::decoder::{Decoder, Outcome, read_boxed, take_boxed};
use crate::fault::PackedFault;
use crate::format::{Format, format_of};
use crate::head::{Head, HeadFirst, TELLING};
use crate::place::Place;
use bzip2_reader::{Alone, Team};
use run_io::Blocks;
use std::alloc::Global;
use std::io::{self, Read};
use std::mem;

/// A file of which only first bytes were read.
#[derive(Drop)]
struct Waiting<D> {
    head: Head,
    place: Place<D>,
}

impl<D: Read> Waiting<D> {
    /// Reads until there are ten first bytes, or the file ends. What was read before a failure stays.
    fn fill(&mut self) -> io::Result<()>
        ensures kept { Keeps (known_bytes D.remaining self.old) (known_bytes D.remaining self.new) }
        ensures whole { OnOk result (IsWhole D.remaining self.new) }
    {
        for _reads in 0..TELLING {
            let room = self.head.room();
            if room == 0 {
                break;
            }
            let mut bytes = [0u8; TELLING];
            let count = self.place.read(&mut bytes[..room])?;
            if count == 0 {
                break;
            }
            self.head.add(&bytes[..count]);
        }
        Ok(())
    }
}

/// How far a file was read.
#[derive(Drop)]
enum Stage<D> {
    Waiting(Waiting<D>),
    /// It is read as it is.
    Plain(Blocks<HeadFirst<D>>),
    Packed(Format, Box<Decoder<D>>),
    /// A packed file was read to its end.
    Ended(Format, Option<PackedFault>),
    /// A packed file can't be read on. What is known of its bytes is known still.
    Failed(PackedFault, io::Error, Box<Decoder<D>>),
}

impl<D: Read> Waiting<D> {
    /// Begins to give the file's bytes, after its first ones were read. Without memory nothing changes.
    fn open(&mut self, alloc: Global) -> io::Result<Stage<D>>
    where
        D: Drop,
        requires { IsWhole D.remaining self.old }
        ensures opened { IfOk result (λ stage. Opens D.remaining self.old stage) }
        ensures ending { IfOk result (λ stage. KeepsEnding (ending_of (known_bytes D.remaining self.old)) (stage_ending D.remaining stage)) }
        ensures kept { OnErr result (self.new ≡ self.old) }
    {
        let format = format_of(self.head.as_slice());
        match format {
            Format::Plain => Ok(Stage::Plain(Blocks::new(
                alloc,
                HeadFirst {
                    head: self.head,
                    given: 0,
                    place: self.place.take_out(),
                },
            ))),
            Format::Gzip | Format::Bzip2 => {
                let decoder = Decoder::make(alloc, format, &self.head, &mut self.place)?;
                Ok(Stage::Packed(format, decoder))
            }
        }
    }
}

/// A reader of a file that may be packed. Its first ten bytes tell whether it is one of gzip or of bzip2, whose data is
/// then given unpacked; any other file is given as it is, in blocks of 64 KiB. Memory for it is taken once its first
/// bytes were read, and given back with its device at its end. A packed file that failed keeps both until it is
/// dropped.
#[derive(Drop)]
pub struct Unpacked<D> {
    alloc: Global,
    stage: Stage<D>,
    /// How many bytes were read of a packed file.
    bytes: u64,
    ghost told: { is_told stage ≡ true },
}

impl<D: Read> Unpacked<D> {
    ghost use Rattle.packed_io.specs.Reading.{HasEnded, HasFailed, IsBegun, IsPacked, IsWaiting, fault_told, file_ending, format_told, unpacked_remaining};

    pub fn new(alloc: Global, device: D) -> Unpacked<D>
        ensures bytes { unpacked_remaining D.remaining result ≡ told_of (D.remaining device) }
        ensures ending { file_ending D.remaining result ≡ ending_of (D.remaining device) }
    {
        Unpacked {
            alloc,
            stage: Stage::Waiting(Waiting {
                head: Head::new(),
                place: Place::of(device),
            }),
            bytes: 0,
        }
    }

    /// In which form the file is, once its first bytes were read.
    pub fn format(&self) -> Option<Format>
        ensures { result ≡ format_told self.now }
    {
        match &self.stage {
            Stage::Waiting(_) => None,
            Stage::Plain(_) => Some(Format::Plain),
            Stage::Packed(format, _) | Stage::Ended(format, _) => Some(*format),
            Stage::Failed(fault, _, _) => Some(fault.format()),
        }
    }

    /// How many bytes of a packed file were read. Those of a plain file aren't counted.
    pub fn packed_bytes(&self) -> u64 {
        match &self.stage {
            Stage::Waiting(waiting) => waiting.place.bytes_read(),
            Stage::Packed(_, decoder) => decoder.bytes_read(),
            _ => self.bytes,
        }
    }

    /// What is wrong with a packed file, once its end or a failure was told: the cause by which its bytes end, unless
    /// its device or memory failed.
    pub fn fault(&self) -> Option<PackedFault>
        ensures told { result ≡ fault_told self.now }
        ensures ended { HasEnded self.now → EndsTheData result }
        ensures failed { HasFailed self.now → FailsReading result }
        // All reads keep how the file ends.
        ensures ending { HasEnded self.now ⊎ HasFailed self.now → TellsEnding (file_ending D.remaining self.now) result }
    {
        match &self.stage {
            Stage::Ended(_, fault) => *fault,
            Stage::Failed(fault, _, _) => Some(*fault),
            _ => None,
        }
    }

    /// Reads the first bytes, and makes what gives the file's. What fails leaves all to be given.
    #[inline(never)]
    fn begin(&mut self) -> io::Result<()>
    where
        D: Drop,
        ensures kept { Keeps (unpacked_remaining D.remaining self.old) (unpacked_remaining D.remaining self.new) }
        ensures ending { KeepsEnding (file_ending D.remaining self.old) (file_ending D.remaining self.new) }
        ensures begun { OnOk result (IsBegun self.new) }
        ensures waiting { OnErr result (IsWaiting self.new) }
        ensures same { IsBegun self.old → IsOk result × (self.new ≡ self.old) }
    {
        if let Stage::Waiting(waiting) = &mut self.stage {
            waiting.fill()?;
            self.stage = waiting.open(self.alloc)?;
        }
        Ok(())
    }

    /// Ends the reading of a packed file that failed by this fault, and keeps what unpacks it.
    fn fail(&mut self, fault: PackedFault, error: io::Error)
    where
        D: Drop,
        requires unpacks { StageUnpacks self.old.stage }
        requires fails { FailsReading (Some fault) }
        ensures failed { HasFailed self.new }
        ensures same { unpacked_remaining D.remaining self.new ≡ unpacked_remaining D.remaining self.old }
        ensures ending { file_ending D.remaining self.new ≡ stage_failed_ending D.remaining fault.cause self.old.stage }
    {
        let stage = mem::replace(&mut self.stage, Stage::Ended(fault.format(), None));
        self.stage = match stage {
            Stage::Packed(_, decoder) => Stage::Failed(fault, error, decoder),
            other => other,
        };
    }

    /// Reads some bytes of a packed file.
    #[inline(never)]
    fn read_packed<T: Team>(&mut self, team: &T, buf: &mut [u8]) -> io::Result<usize>
    where
        D: Drop,
        requires ready { T.is_ready team.now }
        requires packed { IsPacked self.old }
        ensures bound { ReadsAtMost result buf.new }
        ensures bytes { ReadConsumes (unpacked_remaining D.remaining self.old) (unpacked_remaining D.remaining self.new) result buf.new }
        ensures ending { KeepsEnding (file_ending D.remaining self.old) (file_ending D.remaining self.new) }
        ensures packed { IsPacked self.new }
        ensures fails { OnErr result (HasFailed self.new) }
        ensures ends { result ≡ Ok 0 → 0 < length buf.new → HasEnded self.new }
        ensures stays_failed { HasFailed self.old → IsErr result × (self.new ≡ self.old) }
        ensures stays_ended { HasEnded self.old → (result ≡ Ok 0) × (self.new ≡ self.old) }
    {
        match &mut self.stage {
            Stage::Waiting(_) | Stage::Plain(_) => unreachable!(),
            Stage::Packed(format, decoder) => {
                let format = *format;
                let (outcome, bytes) = read_boxed(decoder, team, buf);
                self.bytes = bytes;
                match outcome {
                    Outcome::Gave(count) => Ok(count),
                    Outcome::Ended(fault) => {
                        self.stage = Stage::Ended(format, fault);
                        Ok(0)
                    }
                    Outcome::Failed(fault, error) => {
                        self.fail(fault, error);
                        Err(error)
                    }
                }
            }
            Stage::Ended(_, _) => Ok(0),
            Stage::Failed(_, error, _) => Err(*error),
        }
    }
}

impl<D: Read + Drop> Unpacked<D> {
    ghost use Rattle.packed_io.specs.Reading.{HasEnded, HasFailed, IsPacked, fault_told, file_ending, format_told, unpacked_remaining};

    /// Gives bytes of a plain file's block, or those that are unpacked of a gzip file, as many as there are left and as
    /// there is room for. Nothing is read: where there are none, `read` goes on. Whoever reads a few bytes at a time
    /// asks here first, and clears and copies no result with its error.
    #[inline(always)]
    pub fn take_held(&mut self, buf: &mut [u8]) -> usize
        ensures bound { result ≤ length buf.new }
        ensures bytes { Consumes (unpacked_remaining D.remaining self.old) (unpacked_remaining D.remaining self.new) (take result buf.new) }
        ensures ending { KeepsEnding (file_ending D.remaining self.old) (file_ending D.remaining self.new) }
        ensures packed { IsPacked self.old → IsPacked self.new × (format_told self.new ≡ format_told self.old) × (fault_told self.new ≡ fault_told self.old) }
        ensures over { HasEnded self.old ⊎ HasFailed self.old → (result ≡ 0) × (self.new ≡ self.old) }
    {
        match &mut self.stage {
            Stage::Plain(blocks) => blocks.take_held(buf),
            Stage::Packed(_, decoder) => take_boxed(decoder, buf),
            _ => 0,
        }
    }

    /// Reads some bytes, as `read` does. The team decodes blocks of bzip2, and another one may at each read: the bytes
    /// are the same.
    #[inline(never)]
    pub fn read_by<T: Team>(&mut self, team: &T, buf: &mut [u8]) -> io::Result<usize>
        requires { T.is_ready team.now }
        ensures bound { ReadsAtMost result buf.new }
        ensures bytes { ReadConsumes (unpacked_remaining D.remaining self.old) (unpacked_remaining D.remaining self.new) result buf.new }
        ensures ending { KeepsEnding (file_ending D.remaining self.old) (file_ending D.remaining self.new) }
        // Of a packed file the end and a failure are told by `fault`, and are final.
        ensures fails { OnErr result (IsPacked self.new → HasFailed self.new) }
        ensures ends { result ≡ Ok 0 → 0 < length buf.new → IsPacked self.new → HasEnded self.new }
        ensures stays_failed { HasFailed self.old → IsErr result × (self.new ≡ self.old) }
        ensures stays_ended { HasEnded self.old → (result ≡ Ok 0) × (self.new ≡ self.old) }
    {
        if let Stage::Waiting(_) = &self.stage {
            self.begin()?;
        }
        if let Stage::Plain(blocks) = &mut self.stage {
            return blocks.read(buf);
        }
        self.read_packed(team, buf)
    }
}

impl<D: Read + Drop> Read for Unpacked<D> {
    ghost use Rattle.packed_io.specs.Reading.{HasEnded, HasFailed, IsPacked, file_ending, unpacked_remaining};

    ghost remaining = { unpacked_remaining D.remaining };

    fn read(&mut self, buf: &mut [u8]) -> io::Result<usize>
        ensures bound { ReadsAtMost result buf.new }
        ensures bytes { ReadConsumes (unpacked_remaining D.remaining self.old) (unpacked_remaining D.remaining self.new) result buf.new }
        ensures ending { KeepsEnding (file_ending D.remaining self.old) (file_ending D.remaining self.new) }
        ensures fails { OnErr result (IsPacked self.new → HasFailed self.new) }
        ensures ends { result ≡ Ok 0 → 0 < length buf.new → IsPacked self.new → HasEnded self.new }
        ensures stays_failed { HasFailed self.old → IsErr result × (self.new ≡ self.old) }
        ensures stays_ended { HasEnded self.old → (result ≡ Ok 0) × (self.new ≡ self.old) }
    {
        self.read_by(&Alone, buf)
    }
}

impl<D: Read + Drop> Unpacked<D> {
    ghost use Rattle.packed_io.specs.Reading.{unpacked_remaining};

    /// What is known of the bytes to come: all of a file that is read as it is, and what the bytes of a packed one
    /// unpack to.
    pub fn gives_its_bytes(&self)
        ensures { ⟦<Unpacked<D> as Read>⟧.remaining self.now ≡ unpacked_remaining D.remaining self.now }
    {}
}
