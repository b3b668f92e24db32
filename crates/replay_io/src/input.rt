//! The dumps that are read.

ghost use Rattle.std.specs.Prelude.{◌≡◌, ◌≤◌, length, take};
ghost use Rattle.std.specs.Io.{ReadsAtMost};
ghost use Rattle.std.specs.Io.KnownBytes.{Consumes, ReadConsumes};
ghost use Rattle.packed_io.specs.Formats.{told_of};
ghost use Rattle.packed_io.specs.Pieces.{pieces_remaining};
ghost use Rattle.replay_io.specs.Devices.{AreContentsAhead, contents_remaining, dump_contents, dump_remaining};

use crate::counts::Counts;
use crate::files::{Device, Files};
use crate::naps::Naps;
use crate::progress::{Board, LOOK, ReadSoFar};
use bgp_prefix::Memory;
use command_line::{AddressFamily, FirstBytes, Kind, Records};
use mrt_frame::Counted;
use packed_io::{Format, PackedFault, PackedFiles, PackedReader, Pieces, Unpacked};
use peer_units::TableDumpRule;
use std::io::{self, Read};

/// How many bytes four blocks of bzip2 have, packed, more or less.
const BYTES_EACH: u64 = 1_000_000;

/// What is counted of a dump while it is read, where someone wants to know.
#[derive(Drop)]
struct Watch<'a> {
    records: Records,
    board: Option<&'a Board>,
    /// How many bytes have not been reported to the board yet.
    bytes: u64,
}

impl<'a> Watch<'a> {
    fn new(rt: &HostRuntime, watched: Watched<'a>) -> Watch<'a> {
        Watch {
            records: Records::new(rt.alloc(), watched.family, watched.table_dumps),
            board: watched.board,
            bytes: 0,
        }
    }

    /// Takes the next bytes, and returns whether they should be reported to the board.
    fn take(&mut self, bytes: &[u8]) -> bool {
        self.records.take(bytes);
        if self.board.is_none() {
            return false;
        }
        self.bytes = self.bytes.saturating_add(bytes.len() as u64);
        self.bytes >= LOOK || bytes.is_empty()
    }

    /// Reports to the board what it doesn't know yet, and how far the dump is read.
    fn tell(&mut self, dump: ReadSoFar<'_>) {
        if let Some(board) = self.board {
            board.add(dump, self.bytes);
            self.bytes = 0;
        }
    }
}

/// What the dumps of a run share.
#[derive(Clone, Copy)]
pub struct Watched<'a> {
    /// The family of the routes that are read.
    pub family: AddressFamily,
    /// What is done with TABLE_DUMP records.
    pub table_dumps: TableDumpRule,
    /// The files that are read.
    pub files: &'a Files,
    /// Where units are counted, if records are.
    pub counts: Option<&'a Counts>,
    /// Where the progress is shown.
    pub board: Option<&'a Board>,
}

impl Watched<'_> {
    fn is_any(&self) -> bool {
        self.counts.is_some() || self.board.is_some()
    }
}

/// Where the bytes of a dump come from.
#[derive(Drop)]
enum Contents<'a, D: Read> {
    /// They are unpacked where they are read, if they are packed.
    Here(Unpacked<D>),
    /// They are packed so, and other threads may unpack them before they are read.
    Ahead(Format, PackedReader<'a, D, Naps<'a>>),
}

impl<D: Read + Drop> Contents<'_, D> {
    /// In which form they are packed, and how many packed bytes were read, if they are packed.
    fn packed(&self) -> Option<(Format, u64)> {
        match self {
            Contents::Here(unpacked) => match unpacked.format() {
                None | Some(Format::Plain) => None,
                Some(format) => Some((format, unpacked.packed_bytes())),
            },
            Contents::Ahead(format, reader) => Some((*format, reader.packed_bytes())),
        }
    }

    /// What is wrong with the packed data, if anything is.
    fn fault(&self) -> Option<PackedFault> {
        match self {
            Contents::Here(unpacked) => unpacked.fault(),
            Contents::Ahead(_, reader) => reader.fault(),
        }
    }

    /// Gives bytes of a plain file's block, or those that are unpacked of a gzip file, without reading: none where
    /// there are none, or where other threads may unpack it.
    #[inline(always)]
    fn take_held(&mut self, buf: &mut [u8]) -> usize
        ensures bound { result ≤ length buf.new }
        ensures bytes { Consumes (contents_remaining D.remaining self.old) (contents_remaining D.remaining self.new) (take result buf.new) }
        ensures ahead { AreContentsAhead self.old → (result ≡ 0) × (self.new ≡ self.old) }
    {
        match self {
            Contents::Here(unpacked) => unpacked.take_held(buf),
            Contents::Ahead(_, _) => 0,
        }
    }
}

impl<D: Read + Drop> Read for Contents<'_, D> {
    ghost remaining = { contents_remaining D.remaining };

    fn read(&mut self, buf: &mut [u8]) -> io::Result<usize> {
        match self {
            Contents::Here(unpacked) => unpacked.read(buf),
            Contents::Ahead(_, reader) => reader.read(buf),
        }
    }
}

/// A dump that is read from a device, and unpacked if its first bytes are those of gzip or bzip2. Memory for it exists
/// only while it is being read, and it is closed at its end.
#[derive(Drop)]
pub struct Dump<'a, D: Read> {
    name: &'a str,
    /// From 1.
    number: usize,
    /// Its size in bytes, if known.
    size: Option<u64>,
    contents: Contents<'a, D>,
    /// Whether it has been read.
    is_begun: bool,
    /// How many bytes were read so far, unpacked.
    bytes: u64,
    /// Whether its end has been read.
    is_at_end: bool,
    first: FirstBytes,
    error: Option<io::Error>,
    watch: Option<Watch<'a>>,
    counts: Option<&'a Counts>,
    files: &'a Files,
}

/// A dump, with a count of its failures.
pub type Input<'a, 'f> = Counted<Dump<'a, Device<'f>>>;

impl<'a, D: Read + Drop> Dump<'a, D> {
    /// A dump in this form that other threads may unpack before it is read.
    fn ahead(
        rt: &HostRuntime,
        name: &'a str,
        number: usize,
        format: Format,
        packed: (&'a PackedFiles<D>, Pieces<D>),
        watched: Watched<'a>,
    ) -> Dump<'a, D>
        ensures { dump_remaining D.remaining result ≡ pieces_remaining D.remaining packed.entry.1 }
    {
        let (files, pieces) = packed;
        let reader = PackedReader::new(rt.alloc(), files, pieces, Naps::new(rt, watched.files));
        Dump::new(rt, name, number, Contents::Ahead(format, reader), watched)
    }

    /// A dump that is unpacked where it is read, if it is packed.
    fn here(
        rt: &HostRuntime,
        name: &'a str,
        number: usize,
        device: D,
        watched: Watched<'a>,
    ) -> Dump<'a, D>
        ensures { dump_remaining D.remaining result ≡ told_of (D.remaining device) }
    {
        let contents = Contents::Here(Unpacked::new(rt.alloc(), device));
        Dump::new(rt, name, number, contents, watched)
    }

    fn new(
        rt: &HostRuntime,
        name: &'a str,
        number: usize,
        contents: Contents<'a, D>,
        watched: Watched<'a>,
    ) -> Dump<'a, D>
        ensures { dump_contents result ≡ contents.entry }
    {
        let watch = if watched.is_any() {
            Some(Watch::new(rt, watched))
        } else {
            None
        };
        Dump {
            name,
            number,
            size: watched.files.size(number.saturating_sub(1)),
            contents,
            is_begun: false,
            bytes: 0,
            is_at_end: false,
            first: FirstBytes::new(),
            error: None,
            watch,
            counts: watched.counts,
            files: watched.files,
        }
    }

    /// Its name in the arguments; `-` is standard input.
    pub fn name(&self) -> &'a str {
        self.name
    }

    /// The number of bytes read so far, unpacked.
    pub fn bytes(&self) -> u64 {
        self.bytes
    }

    /// In which form it is packed, and how many bytes of it were read so far, if it is packed.
    pub fn packed(&self) -> Option<(Format, u64)> {
        self.contents.packed()
    }

    /// What is wrong with the packed data, if anything is.
    pub fn packed_fault(&self) -> Option<PackedFault> {
        self.contents.fault()
    }

    /// Its records, if they are counted.
    pub fn records(&self) -> Option<&Records> {
        match &self.watch {
            Some(watch) => Some(&watch.records),
            None => None,
        }
    }

    /// The number of its bytes, unpacked, that are in no whole record, if it is known how many it has: it isn't packed
    /// and its size is known, or its end was read.
    pub fn unread(&self) -> Option<u64> {
        let whole = self.records()?.whole_bytes();
        let size = if self.packed().is_some() {
            None
        } else {
            self.size
        };
        match size {
            Some(size) => Some(size.max(self.bytes).saturating_sub(whole)),
            None if self.is_at_end => Some(self.bytes.saturating_sub(whole)),
            None => None,
        }
    }

    /// What its first bytes look like, if they aren't those of an MRT dump.
    pub fn kind(&self) -> Option<Kind> {
        self.first.kind()
    }

    /// The second of its first record since 1970 UTC, if that was read whole.
    pub fn first_second(&self) -> Option<u32> {
        self.first.first_second(self.bytes)
    }

    /// Why it couldn't be read, after a failure.
    pub fn error(&self) -> Option<io::Error> {
        self.error
    }

    /// Counts the bytes that were read, for whoever wants to know.
    #[inline(never)]
    fn watch(&mut self, bytes: &[u8])
        ensures { dump_contents self.new ≡ dump_contents self.old }
    {
        let of_file = match self.packed() {
            Some((_, packed_bytes)) => packed_bytes,
            None => self.bytes,
        };
        let index = self.number.saturating_sub(1);
        if let Some(watch) = &mut self.watch {
            if watch.take(bytes) {
                watch.tell(ReadSoFar {
                    name: self.name,
                    number: self.number,
                    of_all: self.files.read_of_all(index, of_file),
                });
            }
        }
    }

    /// Tells who counts that its units come now, and closes the files before it, before it is read.
    fn begin(&mut self)
        ensures { dump_contents self.new ≡ dump_contents self.old }
    {
        if self.is_begun {
            return;
        }
        self.is_begun = true;
        let index = self.number.saturating_sub(1);
        self.files.begin(index);
        if let Some(counts) = self.counts {
            counts.begin(index);
        }
    }

    /// Notes the bytes that were read.
    fn note(&mut self, bytes: &[u8])
        ensures { dump_contents self.new ≡ dump_contents self.old }
    {
        self.first.take(bytes);
        self.bytes = self.bytes.saturating_add(bytes.len() as u64);
        if self.watch.is_some() {
            self.watch(bytes);
        }
    }

    /// Reads from the device, or from what unpacks it.
    #[inline(never)]
    fn read_on(&mut self, buf: &mut [u8]) -> io::Result<usize>
        ensures bound { ReadsAtMost result buf.new }
        ensures bytes { ReadConsumes (dump_remaining D.remaining self.old) (dump_remaining D.remaining self.new) result buf.new }
    {
        self.begin();
        match self.contents.read(buf) {
            Ok(count) => {
                self.note(&buf[..count]);
                if count == 0 && !buf.is_empty() {
                    self.is_at_end = true;
                }
                Ok(count)
            }
            Err(error) => {
                self.error = Some(error);
                Err(error)
            }
        }
    }
}

impl<D: Read + Drop> Read for Dump<'_, D> {
    ghost remaining = { dump_remaining D.remaining };

    fn read(&mut self, buf: &mut [u8]) -> io::Result<usize> {
        // Most reads are of a few bytes that a plain file's block has, or that are unpacked.
        let count = self.contents.take_held(buf);
        if count > 0 {
            self.note(&buf[..count]);
            return Ok(count);
        }
        self.read_on(buf)
    }
}

impl<'a, D: Read + Drop> Dump<'a, D> {
    /// What is known of the bytes to come: of a file that is read as it is what wasn't given yet of a block, and what is
    /// still to be read of the device; of a packed one what is left of that to which it unpacks, in whichever thread.
    pub fn gives_its_bytes(&self)
        ensures { ⟦<Dump<'a, D> as Read>⟧.remaining self.now ≡ dump_remaining D.remaining self.now }
    {}
}

/// Returns how many threads may unpack a file side by side: so many that each has four blocks of bzip2 to do.
fn jobs_of(format: Format, size: u64) -> usize {
    match format {
        Format::Bzip2 => usize::try_from(size / BYTES_EACH)
            .unwrap_or(0)
            .saturating_add(1),
        Format::Plain | Format::Gzip => 1,
    }
}

/// The packed files of a run, and the pieces of each for who reads it.
pub type PackedAhead<D> = (PackedFiles<D>, Vec<Pieces<D>>);

/// Returns the packed files among these, which so many threads may unpack before they are read.
pub fn packed_files_of<'f>(
    rt: &HostRuntime,
    names: &'f [String],
    files: &'f Files,
    threads: usize,
) -> Result<PackedAhead<Device<'f>>, Memory> {
    let mut packed = PackedFiles::new(rt.alloc(), threads);
    let mut pieces = Vec::new(rt.alloc());
    for (i, name) in names.iter().enumerate() {
        if let Some(format) = files.packed_as(i) {
            let jobs = jobs_of(format, files.size(i).unwrap_or(0));
            pieces.push(packed.add(Device::new(rt, files, i, name.as_str()), jobs)?)?;
        }
    }
    Ok((packed, pieces))
}

/// Makes the dumps of these files, which were opened. Those that threads may unpack are given beside, with the pieces
/// of each, in this order.
pub fn inputs_of<'a, 'f: 'a>(
    rt: &HostRuntime,
    names: &'f [String],
    files: &'f Files,
    packed: &'a PackedFiles<Device<'f>>,
    pieces: Vec<Pieces<Device<'f>>>,
    watched: Watched<'a>,
) -> Result<Vec<Input<'a, 'f>>, Memory> {
    let mut inputs = Vec::new(rt.alloc());
    let mut pieces = pieces.into_iter();
    for (i, name) in names.iter().enumerate() {
        let name = name.as_str();
        let number = i.saturating_add(1);
        let ahead = match files.packed_as(i) {
            Some(format) => pieces.next().map(|pieces| (format, pieces)),
            None => None,
        };
        let dump = match ahead {
            Some((format, pieces)) => {
                Dump::ahead(rt, name, number, format, (packed, pieces), watched)
            }
            None => Dump::here(rt, name, number, Device::new(rt, files, i, name), watched),
        };
        inputs.push(Counted::new(dump))?;
    }
    Ok(inputs)
}
