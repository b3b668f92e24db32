//! The files of a run: opened in order before any is read, and each closed when nothing more is read of it.

ghost use Rattle.std.specs.Prelude.{◌<◌, IfOk, length};
ghost use Rattle.std.specs.Io.{ReadsAtMost};
ghost use Rattle.replay_io.specs.Devices.{IsOpen};

use packed_io::{Format, format_of};
use std::alloc::AllocFailed;
use std::fs::File;
use std::io::{self, ErrorKind, Read, Stdin};
use std::mem;
use std::os::unix::fs::FileExt;
use std::sync::Mutex;
use std::sync::atomic::{AtomicBool, AtomicUsize, Ordering};

/// The maximum number of regular files kept open from the start until their turn comes. Pipes and the like, which can't
/// be opened twice, are kept open regardless of their number.
const KEPT_OPEN: usize = 16;

/// The system's number of the error that a file isn't open.
const NOT_OPEN: i32 = 9;

/// Where a file is read from.
#[derive(Drop)]
enum Access {
    /// Opened at the start and closed again; it is reopened when its turn comes.
    Closed,
    /// It may be closed and reopened.
    Regular(File),
    Other(File),
    Standard(Stdin),
    /// Nothing more is read of it.
    Left,
}

impl Access {
    /// Opens it, if it is closed.
    fn reopen(&mut self, rt: &HostRuntime, name: &str) -> io::Result<()> {
        if let Access::Closed = self {
            *self = Access::Regular(std::fs::open(rt, name)?);
        }
        Ok(())
    }

    /// Reads from it. One that isn't open fails, since an end would make it an empty dump.
    fn read(&mut self, buf: &mut [u8]) -> io::Result<usize>
        ensures bound { ReadsAtMost result buf.new }
        ensures open { IfOk result (λ count. IsOpen self.old) }
    {
        match self {
            Access::Closed | Access::Left => Err(io::Error::from_raw_os_error(NOT_OPEN)),
            Access::Regular(file) | Access::Other(file) => file.read(buf),
            Access::Standard(input) => input.read(buf),
        }
    }
}

/// A file of a run.
#[derive(Drop)]
struct Place {
    access: Mutex<Access>,
    /// Its size in bytes, if it is a regular file.
    size: Option<u64>,
    /// How many bytes the files before it have, if all of them are regular files, else 0.
    before: u64,
    /// Its form, if it is a regular file of which that is asked.
    format: Format,
}

/// Why not all files were opened.
#[derive(Drop)]
pub enum OpenError {
    /// The file of this number, from 1, and why it wasn't.
    File(usize, io::Error),
    Memory,
}

impl<T: Drop> From<AllocFailed<T>> for OpenError {
    fn from(_failed: AllocFailed<T>) -> OpenError {
        OpenError::Memory
    }
}

/// Returns the size of a regular file in bytes.
fn size_of(file: &File) -> Option<u64> {
    match file.metadata() {
        Ok(metadata) if metadata.is_file() => Some(metadata.len()),
        _ => None,
    }
}

/// Returns the form that a regular file has by its first bytes.
fn format_at(file: &File) -> Format {
    let mut first = [0; 10];
    match file.read_at(&mut first, 0) {
        Ok(count) => format_of(&first[..count]),
        Err(_) => Format::Plain,
    }
}

/// What is done with a file that was opened and may be reopened.
#[derive(Clone, Copy)]
struct Opening {
    /// Whether it is kept open.
    is_kept: bool,
    /// Whether it is looked in which form it is. Packed files aren't kept open.
    asks_format: bool,
}

/// Opens a file. `-` is standard input.
fn open(rt: &HostRuntime, name: &str, opening: Opening) -> io::Result<Place> {
    if name == "-" {
        return Ok(Place {
            access: Mutex::new(Access::Standard(rt.stdin())),
            size: None,
            before: 0,
            format: Format::Plain,
        });
    }
    let file = std::fs::open(rt, name)?;
    let size = size_of(&file);
    let format = if opening.asks_format && size.is_some() {
        format_at(&file)
    } else {
        Format::Plain
    };
    let access = if size.is_none() {
        Access::Other(file)
    } else if opening.is_kept && format == Format::Plain {
        Access::Regular(file)
    } else {
        Access::Closed
    };
    Ok(Place {
        access: Mutex::new(access),
        size,
        before: 0,
        format,
    })
}

/// The files of a run. One thread at a time reads a file, and none waits for another one: a lock that another thread
/// has is passed over.
#[derive(Drop)]
pub struct Files {
    places: Vec<Place>,
    /// How many bytes they have together, if all of them are regular files.
    size: Option<u64>,
    /// The index of the file that is read, from 0. Nothing more is read of those before it.
    current: AtomicUsize,
    has_begun: AtomicBool,
}

impl Files {
    /// Opens all files, in order, and looks in which form regular ones are, if that is asked. A second `-` finds
    /// nothing left. Where no more files can be open, all that may be closed are.
    pub fn open(rt: &HostRuntime, names: &[String], asks_format: bool) -> Result<Files, OpenError> {
        let mut files = Files {
            places: Vec::new(rt.alloc()),
            size: Some(0),
            current: AtomicUsize::new(0),
            has_begun: AtomicBool::new(false),
        };
        let mut kept = KEPT_OPEN;
        for (i, name) in names.iter().enumerate() {
            let mut opening = Opening {
                is_kept: i < kept,
                asks_format,
            };
            let mut opened = open(rt, name.as_str(), opening);
            if opened.is_err() && kept > 0 {
                kept = 0;
                files.close_all();
                opening.is_kept = false;
                opened = open(rt, name.as_str(), opening);
            }
            match opened {
                Ok(place) => files.add(place)?,
                Err(error) => return Err(OpenError::File(i.saturating_add(1), error)),
            }
        }
        Ok(files)
    }

    /// Adds a file behind the others.
    fn add(&mut self, mut place: Place) -> Result<(), AllocFailed<Place>> {
        place.before = self.size.unwrap_or(0);
        self.size = match (self.size, place.size) {
            (Some(before), Some(size)) => Some(before.saturating_add(size)),
            _ => None,
        };
        self.places.push(place)
    }

    /// Closes all that can be reopened.
    fn close_all(&mut self) {
        for place in self.places.iter_mut() {
            let access = place.access.get_mut();
            if let Access::Regular(_) = access {
                *access = Access::Closed;
            }
        }
    }

    /// The size of the file of this index in bytes, if it is a regular file.
    pub fn size(&self, index: usize) -> Option<u64> {
        self.places.get(index)?.size
    }

    /// How many bytes of all files have been read where the files before this index and so many bytes of its own file
    /// have, and how many all have, if all are regular files.
    pub fn read_of_all(&self, index: usize, bytes: u64) -> Option<(u64, u64)> {
        let all = self.size?;
        let place = self.places.get(index)?;
        let read = bytes.min(place.size?);
        Some((place.before.saturating_add(read), all))
    }

    /// The form of the file of this index, if it is packed, regular and was looked at.
    pub fn packed_as(&self, index: usize) -> Option<Format> {
        match self.places.get(index)?.format {
            Format::Plain => None,
            format => Some(format),
        }
    }

    /// Whether a file is or was read.
    pub fn has_begun(&self) -> bool {
        self.has_begun.load(Ordering::SeqCst)
    }

    /// Notes that the file of this index is read from now on, and closes those before it.
    pub fn begin(&self, index: usize) {
        self.has_begun.store(true, Ordering::SeqCst);
        let before = self.current.swap(index, Ordering::SeqCst);
        for left in before..index {
            self.leave(left);
        }
    }

    /// Closes the file of this index, unless it is being read: whoever reads it drops its device then.
    fn leave(&self, index: usize) {
        if let Some(place) = self.places.get(index)
            && let Some(mut access) = place.access.try_lock()
        {
            *access = Access::Left;
        }
    }

    /// Reads from the file of this index, which is reopened where it was closed. One that there isn't, that another
    /// thread reads or of which nothing more is read fails.
    fn read(&self, rt: &HostRuntime, index: usize, name: &str, buf: &mut [u8]) -> io::Result<usize>
        ensures bound { ReadsAtMost result buf.new }
        ensures there { IfOk result (λ count. index < length self.now.places.items) }
    {
        let Some(place) = self.places.get(index) else {
            return Err(io::Error::from_raw_os_error(NOT_OPEN));
        };
        let Some(mut access) = place.access.try_lock() else {
            return Err(io::Error::from(ErrorKind::ResourceBusy));
        };
        access.reopen(rt, name)?;
        access.read(buf)
    }
}

/// The device of a dump: one of these files. It is closed when the device is dropped.
pub struct Device<'a> {
    rt: HostRuntime,
    files: &'a Files,
    index: usize,
    name: &'a str,
}

impl<'a> Device<'a> {
    pub fn new(rt: &HostRuntime, files: &'a Files, index: usize, name: &'a str) -> Device<'a> {
        Device {
            rt: *rt,
            files,
            index,
            name,
        }
    }
}

impl Read for Device<'_> {
    fn read(&mut self, buf: &mut [u8]) -> io::Result<usize> {
        self.files.read(&self.rt, self.index, self.name, buf)
    }
}

impl Drop for Device<'_> {
    fn drop(self) {
        let Self {
            rt: _,
            files,
            index,
            name: _,
        } = self;
        files.leave(index);
    }
}
