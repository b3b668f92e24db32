//! How many threads may unpack, and hold memory for it.

ghost use Rattle.std.specs.Prelude.{◌≤◌};

use std::sync::atomic::{AtomicUsize, Ordering};

/// How often a change of the number is tried again where another thread changed it.
const TRIES: usize = 64;

/// How many bytes may wait to be read for each thread, before files behind the one that is read are unpacked further.
const WAITING_EACH: usize = 2_097_152;

/// How many bytes of files that were left may be in memory for each thread. With more of them no thread unpacks files
/// before they are read.
const LEFT_EACH: usize = 8_388_608;

/// Slots for so many threads. Whoever takes some gives them back; nobody waits for one. Beside them it is counted how
/// many bytes were unpacked and wait to be read, and how many nobody will read, since their files were left.
#[derive(Drop)]
pub(crate) struct Slots {
    free: AtomicUsize,
    waiting: AtomicUsize,
    most_waiting: usize,
    left: AtomicUsize,
    most_left: usize,
}

impl Slots {
    pub(crate) fn new(count: usize) -> Slots {
        Slots {
            free: AtomicUsize::new(count),
            waiting: AtomicUsize::new(0),
            most_waiting: count.saturating_mul(WAITING_EACH),
            left: AtomicUsize::new(0),
            most_left: count.saturating_mul(LEFT_EACH),
        }
    }

    /// Counts bytes that wait to be read.
    pub(crate) fn add_waiting(&self, count: usize) {
        self.waiting.fetch_add(count, Ordering::SeqCst);
    }

    /// Counts bytes that no longer wait.
    pub(crate) fn remove_waiting(&self, count: usize) {
        self.waiting.fetch_sub(count, Ordering::SeqCst);
    }

    /// Whether many bytes wait to be read.
    pub(crate) fn has_many_waiting(&self) -> bool {
        self.waiting.load(Ordering::SeqCst) >= self.most_waiting
    }

    /// Counts bytes that waited to be read, and that nobody will read.
    pub(crate) fn leave(&self, count: usize) {
        self.remove_waiting(count);
        self.left.fetch_add(count, Ordering::SeqCst);
    }

    /// Whether many bytes are in memory that nobody will read.
    pub(crate) fn has_many_left(&self) -> bool {
        self.left.load(Ordering::SeqCst) >= self.most_left
    }

    /// Takes as many slots as are free, and at most these. It may take none though some are free.
    pub(crate) fn take(&self, most: usize) -> usize
        ensures { result ≤ most }
    {
        for _ in 0..TRIES {
            let free = self.free.load(Ordering::SeqCst);
            let taken = free.min(most);
            if taken == 0 {
                return 0;
            }
            let left = free - taken;
            if self
                .free
                .compare_exchange(free, left, Ordering::SeqCst, Ordering::SeqCst)
                .is_ok()
            {
                return taken;
            }
        }
        0
    }

    /// Gives back slots that were taken.
    pub(crate) fn give(&self, count: usize) {
        self.free.fetch_add(count, Ordering::SeqCst);
    }
}
