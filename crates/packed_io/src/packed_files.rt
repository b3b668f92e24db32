//! The packed files of a run, and the threads that unpack them before they are read.

ghost use Rattle.std.specs.Prelude.{◌≡◌, IfOk};
ghost use Rattle.packed_io.specs.Formats.{told_of};
ghost use Rattle.packed_io.specs.Pieces.{pieces_remaining};

use crate::packed_file::PackedFile;
use crate::pieces::Pieces;
use crate::slots::Slots;
use std::alloc::{AllocError, Global};
use std::io::Read;
use std::marker::Sync;
use std::sync::atomic::{AtomicBool, AtomicUsize, Ordering};
use std::thread::{Threads, map_indices};

/// How many files, from the one that is read on, may be unpacked before they are read, for each thread, and at most:
/// each may be open.
const FILES_EACH: usize = 2;

const MOST_FILES: usize = 16;

/// After this many looks in vain a thread no longer waits for the reading to begin.
const MOST_LOOKS: u32 = 500;

/// What threads do that find nothing to do.
pub trait Pace {
    /// Whether the first file is being read.
    fn has_begun(&self) -> bool;

    /// Lets a thread that unpacks pause, after this many looks in vain.
    fn rest(&self, looks: u32);

    /// Lets the thread that reads pause, after this many looks in vain.
    fn wait(&self, looks: u32);
}

/// The packed files of a run, in the order in which they are read.
#[derive(Drop)]
pub struct PackedFiles<D: Read> {
    alloc: Global,
    files: Vec<PackedFile<D>>,
    threads: usize,
    slots: Slots,
    /// The place of the file that is read.
    front: AtomicUsize,
    is_over: AtomicBool,
}

impl<D: Read + Drop> PackedFiles<D> {
    /// Makes room for files that so many threads may unpack.
    pub fn new(alloc: Global, threads: usize) -> PackedFiles<D> {
        PackedFiles {
            alloc,
            files: Vec::new(alloc),
            threads,
            slots: Slots::new(threads),
            front: AtomicUsize::new(0),
            is_over: AtomicBool::new(false),
        }
    }

    /// Adds the next file, which so many threads may unpack side by side, and returns its pieces for who reads it.
    pub fn add(&mut self, device: D, jobs: usize) -> Result<Pieces<D>, AllocError>
        ensures { IfOk result (λ pieces. pieces_remaining D.remaining pieces ≡ told_of (D.remaining device)) }
    {
        let jobs = jobs.max(1).min(self.threads);
        let (file, pieces) = PackedFile::new(self.alloc, self.files.len(), device, jobs)?;
        self.files.push(file)?;
        Ok(pieces)
    }

    /// Whether there is no file.
    pub fn is_empty(&self) -> bool {
        self.files.is_empty()
    }

    /// Notes that the reading is over, so that nothing more is unpacked.
    pub fn end(&self) {
        self.is_over.store(true, Ordering::SeqCst);
    }

    /// Notes that the file at this place is read from now on, and leaves those before it.
    pub(crate) fn begin(&self, place: usize) {
        let before = self.front.swap(place, Ordering::SeqCst);
        for left in before..place {
            if let Some(file) = self.files.get(left) {
                file.leave(&self.slots);
            }
        }
    }

    /// The file at this place.
    pub(crate) fn file(&self, place: usize) -> Option<&PackedFile<D>> {
        self.files.get(place)
    }

    pub(crate) fn slots(&self) -> &Slots {
        &self.slots
    }

    /// Unpacks a few pieces of the first file that has few. Returns whether there is anything left to unpack, and
    /// whether any was.
    fn unpack_some<R: Threads + Sync>(&self, threads: &R) -> (bool, bool) {
        let front = self.front.load(Ordering::SeqCst);
        let most = self.threads.saturating_mul(FILES_EACH).min(MOST_FILES);
        let end = front.saturating_add(most);
        let mut is_left = end < self.files.len();
        for place in front..end.min(self.files.len()) {
            if let Some(file) = self.files.get(place) {
                if file.unpack(threads, &self.slots, place == front) {
                    return (true, true);
                }
                is_left = is_left || !file.is_done();
            }
        }
        (is_left, false)
    }

    /// Unpacks files before they are read, until all are or the reading is over. Where no thread could be started, the
    /// reading begins after this: so it ends, too, where it finds nothing to do and nothing is read.
    fn unpack_on<R: Threads + Sync, P: Pace>(&self, threads: &R, pace: &P) {
        let mut looks = 0u32;
        for _ in 0..u64::MAX {
            if self.is_over.load(Ordering::SeqCst) {
                return;
            }
            let (is_left, is_some) = self.unpack_some(threads);
            if !is_left {
                return;
            }
            if is_some {
                looks = 0;
                continue;
            }
            if looks >= MOST_LOOKS && !pace.has_begun() {
                self.end();
                return;
            }
            pace.rest(looks);
            looks = looks.saturating_add(1);
        }
    }

    /// Unpacks files before they are read, in as many threads as there may be.
    pub fn unpack<R: Threads + Sync, P: Pace + Sync>(&self, threads: &R, pace: &P)
    where
        D: Send,
    {
        let _ = map_indices(
            threads,
            self.alloc,
            self.threads,
            &|_| self.unpack_on(threads, pace),
        );
    }
}
