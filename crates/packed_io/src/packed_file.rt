//! A packed file that may be unpacked before it is read.

ghost use Rattle.std.specs.Prelude.{◌≡◌, IfOk};
ghost use Rattle.packed_io.specs.Formats.{told_of};
ghost use Rattle.packed_io.specs.Pieces.{pieces_remaining};

use crate::piece_maker::PieceMaker;
use crate::pieces::{Pieces, pieces_of};
use crate::slots::Slots;
use crate::unpacked::Unpacked;
use bzip2_reader::{Alone, Beside, Team};
use std::alloc::{AllocError, Global};
use std::io::{self, Read};
use std::marker::Sync;
use std::sync::Mutex;
use std::sync::atomic::{AtomicBool, AtomicU64, AtomicUsize, Ordering};
use std::thread::Threads;

/// How many pieces are unpacked before it is looked who is to unpack what, for each thread: as many bytes as four
/// blocks of bzip2 have, and a few more.
const STEP: usize = 16;

/// How many bytes may wait for each thread when more are unpacked, which is half of those that a step unpacks.
const FEW: usize = 2_097_152;

/// For how many pieces there is room on their way, for each thread.
const ROOM: usize = 24;

/// What unpacks a file, and what is noted of it.
#[derive(Drop)]
struct Maker<D: Read> {
    pieces: PieceMaker<D>,
    /// How many slots it holds.
    slots: usize,
}

/// A packed file that is unpacked by the thread that reads it, or before it is read by other threads, one at a time. No
/// thread waits for another one here: a lock that another thread has is passed over.
#[derive(Drop)]
pub(crate) struct PackedFile<D: Read> {
    alloc: Global,
    /// How many threads may unpack it side by side.
    jobs: usize,
    maker: Mutex<Maker<D>>,
    /// How many bytes were handed over and not read yet.
    waiting: AtomicUsize,
    /// How many bytes of the packed file were read.
    packed_bytes: AtomicU64,
    /// Whether there is nothing for other threads to do.
    is_done: AtomicBool,
    /// Whether nothing more of it is wanted.
    is_left: AtomicBool,
}

impl<D: Read + Drop> PackedFile<D> {
    /// Returns the file at a place among those of a run, and its pieces for who reads it.
    pub(crate) fn new(
        alloc: Global,
        place: usize,
        device: D,
        jobs: usize,
    ) -> Result<(PackedFile<D>, Pieces<D>), AllocError>
        ensures { IfOk result (λ made. pieces_remaining D.remaining made.1 ≡ told_of (D.remaining device)) }
    {
        let room = jobs.saturating_mul(ROOM);
        let (sender, pieces, device) = pieces_of(alloc, place, room, device)?;
        let contents = Unpacked::new(alloc, device);
        let file = PackedFile {
            alloc,
            jobs,
            maker: Mutex::new(Maker {
                pieces: PieceMaker::new(contents, sender),
                slots: 0,
            }),
            waiting: AtomicUsize::new(0),
            packed_bytes: AtomicU64::new(0),
            is_done: AtomicBool::new(false),
            is_left: AtomicBool::new(false),
        };
        Ok((file, pieces))
    }

    pub(crate) fn packed_bytes(&self) -> u64 {
        self.packed_bytes.load(Ordering::Relaxed)
    }

    /// Whether there is nothing for other threads to do.
    pub(crate) fn is_done(&self) -> bool {
        self.is_done.load(Ordering::SeqCst)
    }

    /// Whether few bytes wait to be read.
    fn has_few(&self) -> bool {
        self.waiting.load(Ordering::SeqCst) < self.jobs.saturating_mul(FEW)
    }

    /// Notes that so many bytes were read.
    pub(crate) fn take(&self, count: usize, slots: &Slots) {
        self.waiting.fetch_sub(count, Ordering::SeqCst);
        slots.remove_waiting(count);
    }

    /// Unpacks a piece, and hands it over. Returns whether one more waits to be read.
    fn step<T: Team>(&self, maker: &mut Maker<D>, team: &T, slots: &Slots) -> io::Result<bool>
        requires { T.is_ready team.now }
    {
        let made = maker.pieces.make(self.alloc, team);
        self.packed_bytes
            .store(maker.pieces.packed_bytes(), Ordering::Relaxed);
        made?;
        // It is counted first, since it may be read at once.
        let count = maker.pieces.kept_bytes();
        self.waiting.fetch_add(count, Ordering::SeqCst);
        slots.add_waiting(count);
        let is_put = maker.pieces.put();
        if !is_put {
            self.take(count, slots);
        }
        Ok(is_put)
    }

    /// Gives back the slots of a file that has ended, or that was left.
    fn settle(&self, maker: &mut Maker<D>, slots: &Slots) {
        if self.is_left.load(Ordering::SeqCst) {
            maker.pieces.leave();
            slots.leave(self.waiting.swap(0, Ordering::SeqCst));
        }
        if maker.pieces.is_over() {
            slots.give(maker.slots);
            maker.slots = 0;
            self.is_done
                .store(!maker.pieces.has_kept(), Ordering::SeqCst);
        }
    }

    /// Unpacks the next piece in the calling thread, unless another thread unpacks this file. Returns whether one more
    /// waits to be read.
    pub(crate) fn help(&self, slots: &Slots) -> io::Result<bool> {
        let Some(mut maker) = self.maker.try_lock() else {
            return Ok(false);
        };
        let maker = &mut *maker;
        let done = self.step(maker, &Alone, slots);
        self.settle(maker, slots);
        done
    }

    /// Unpacks pieces with as many threads as there are slots, for as long as few bytes wait to be read. Returns
    /// whether it unpacked any.
    pub(crate) fn unpack<R: Threads + Sync>(
        &self,
        threads: &R,
        slots: &Slots,
        is_read: bool,
    ) -> bool {
        if self.is_done()
            || !self.has_few()
            || slots.has_many_left()
            || (!is_read && slots.has_many_waiting())
        {
            return false;
        }
        let is_some = match self.maker.try_lock() {
            Some(mut maker) => self.unpack_with(threads, &mut *maker, slots),
            None => return false,
        };
        // Whoever left the file meanwhile may have met the lock.
        if self.is_left.load(Ordering::SeqCst) {
            self.leave(slots);
        }
        is_some
    }

    /// Unpacks pieces with as many threads as the file has slots, after it took those that it may have. A want of means
    /// is left to whoever reads the file, who may meet it again.
    fn unpack_with<R: Threads + Sync>(
        &self,
        threads: &R,
        maker: &mut Maker<D>,
        slots: &Slots,
    ) -> bool {
        let more = slots.take(self.jobs.saturating_sub(maker.slots));
        maker.slots = maker.slots.saturating_add(more);
        let jobs = maker.slots;
        let mut is_some = false;
        for _ in 0..jobs.saturating_mul(STEP) {
            match self.step(maker, &Beside(threads, jobs), slots) {
                Ok(true) => is_some = true,
                Ok(false) => break,
                Err(_) => {
                    self.is_done.store(true, Ordering::SeqCst);
                    break;
                }
            }
            if self.is_left.load(Ordering::SeqCst) {
                break;
            }
        }
        self.settle(maker, slots);
        is_some
    }

    /// Notes that nothing more of the file is wanted, and drops what there is of it but for what was handed over. A
    /// thread that is unpacking it does so when it is done.
    pub(crate) fn leave(&self, slots: &Slots) {
        self.is_left.store(true, Ordering::SeqCst);
        self.is_done.store(true, Ordering::SeqCst);
        if let Some(mut maker) = self.maker.try_lock() {
            self.settle(&mut *maker, slots);
        }
    }
}
