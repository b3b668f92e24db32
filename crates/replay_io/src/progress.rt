//! The reading progress, on a line of standard error that is rewritten.

use crate::counts::Counts;
use command_line::{FileName, read_width};
use lane_deal::{Gate, Idle};
use peer_units::Damage;
use std::alloc::{AllocError, Global};
use std::sync::atomic::{AtomicU64, Ordering};
use std::thread::{sleep, yield_now};
use std::time::{Duration, Instant};

/// The minimum time between two lines.
const PAUSE_MILLIS: u64 = 250;

/// After this many looks in vain a worker no longer yields its processor before the next one, but sleeps: a thread that
/// only yields is still ready to run, and the system keeps it on a processor that another thread could use.
const YIELDS: u32 = 10;

/// How long it sleeps at first. Linux adds some 50 microseconds to so short a sleep.
const FIRST_NAP_MICROS: u64 = 20;

/// After this many naps a thread sleeps twice as long, and so on: a worker that has had nothing to do for long wakes
/// less often. With more workers than peers or processors many would otherwise keep a processor busy with waking up.
const NAPS_ALIKE: u32 = 8;

/// How often a worker's nap doubles at most.
const MOST_DOUBLINGS: u32 = 2;

/// How often a dealer's nap doubles at most. It starts at a microsecond, after the first look: a dealer that yields its
/// processor waits behind a worker there until that worker's ring is empty, and one that sleeps wakes on an idle
/// processor if there is one. A dealer that waits in vain takes a thousand naps, some 110 milliseconds.
const MOST_DEALER_DOUBLINGS: u32 = 6;

/// How many bytes are read between two looks at the clock.
pub const LOOK: u64 = 1 << 20;

/// How many characters of a name are shown: the last ones.
const NAME_SHOWN: usize = 30;

/// What all dumps of a run share: how much was read, and what the line shows.
#[derive(Drop)]
pub struct Board {
    rt: HostRuntime,
    start: Instant,
    files: usize,
    bytes: AtomicU64,
    /// How many routes there were when they were last counted.
    routes: AtomicU64,
    /// Milliseconds from the start to that count, at least 1; 0 before the first one.
    counted: AtomicU64,
    /// Milliseconds from the start to the last line.
    told: AtomicU64,
    /// How many characters are on the line.
    width: AtomicU64,
    /// How many it may have.
    room: usize,
}

/// Which dump is read, and how far the reading of all is.
#[derive(Clone, Copy)]
pub struct ReadSoFar<'a> {
    pub name: &'a str,
    /// From 1.
    pub number: usize,
    /// How many bytes of all dumps have been read, and how many there are, if the sizes of all are known.
    pub of_all: Option<(u64, u64)>,
}

impl Board {
    /// Makes the board of this many dumps.
    pub fn new(rt: &HostRuntime, files: usize, start: Instant) -> Board {
        Board {
            rt: *rt,
            start,
            files,
            bytes: AtomicU64::new(0),
            routes: AtomicU64::new(0),
            counted: AtomicU64::new(0),
            told: AtomicU64::new(0),
            width: AtomicU64::new(0),
            // A terminal may begin a new line where the last column is written.
            room: terminal_width(rt).saturating_sub(1),
        }
    }

    /// Adds what was read, and writes the line if the last one is old enough.
    pub fn add(&self, dump: ReadSoFar<'_>, bytes: u64) {
        self.bytes.fetch_add(bytes, Ordering::Relaxed);
        let Some(now) = self.millis() else {
            return;
        };
        let told = self.told.load(Ordering::Relaxed);
        if now >= told.saturating_add(PAUSE_MILLIS) {
            self.told.store(now, Ordering::Relaxed);
            self.write(dump, now);
        }
    }

    /// Returns the milliseconds since the start, if the clock reports them.
    fn millis(&self) -> Option<u64> {
        let elapsed = self.start.elapsed(&self.rt).ok()?;
        let seconds = elapsed.as_secs().saturating_mul(1000);
        Some(seconds.saturating_add(u64::from(elapsed.subsec_millis())))
    }

    /// Rewrites the line.
    fn write(&self, dump: ReadSoFar<'_>, millis: u64) {
        let Some(whole) = self.line(dump, millis) else {
            return;
        };
        let Some(mut line) = cut_to(self.rt.alloc(), whole.as_str(), self.room) else {
            return;
        };
        let width = line.as_str().chars().count();
        let before = self.width.swap(width as u64, Ordering::Relaxed);
        if push_blanks(&mut line, before.saturating_sub(width as u64)).is_ok() {
            let _ = eprint!(self.rt; "\r{line}");
        }
    }

    /// Clears the line.
    pub fn clear(&self) {
        let before = self.width.swap(0, Ordering::Relaxed);
        let mut line = String::new(self.rt.alloc());
        if before > 0 && push_blanks(&mut line, before).is_ok() {
            let _ = eprint!(self.rt; "\r{line}\r");
        }
    }

    fn line(&self, dump: ReadSoFar<'_>, millis: u64) -> Option<String> {
        let alloc = self.rt.alloc();
        let name = shown_name(alloc, dump.name)?;
        let number = dump.number;
        let files = self.files;
        let bytes = self.bytes.load(Ordering::Relaxed);
        let share = share_of(alloc, dump.of_all, bytes)?;
        let routes = self.routes.load(Ordering::Relaxed);
        // Bytes per microsecond are megabytes per second.
        let micros = millis.saturating_mul(1000).max(1);
        let speed = bytes / micros;
        // The share is that of all dumps, so it stands before the name of one.
        format!(in alloc;
            "{share}, {name} ({number} of {files}), {speed} MB/s, {routes} routes"
        ).ok()
    }
}

/// Returns how many microseconds a worker sleeps that has looked this many times in vain.
fn worker_nap_micros(looks: u32) -> u64 {
    let doublings = (looks.saturating_sub(YIELDS) / NAPS_ALIKE).min(MOST_DOUBLINGS);
    FIRST_NAP_MICROS << doublings
}

/// Returns how many microseconds a dealer sleeps that has looked this many times in vain.
fn dealer_nap_micros(looks: u32) -> u64 {
    1 << (looks / NAPS_ALIKE).min(MOST_DEALER_DOUBLINGS)
}

/// The gate of the program, at which threads that find nothing to do sleep. A board, if there is one, is notified of
/// the number of routes, as often as it shows it, and counts, if there are any, are notified of units and faults.
#[derive(Clone, Copy)]
pub struct Counter<'a> {
    pub rt: HostRuntime,
    pub board: Option<&'a Board>,
    pub counts: Option<&'a Counts>,
}

impl Idle for Counter<'_> {
    fn pause(&self, looks: u32) {
        if looks <= YIELDS {
            yield_now();
        } else {
            sleep(&self.rt, Duration::from_micros(worker_nap_micros(looks)));
        }
    }

    fn wait_for_room(&self, looks: u32) {
        sleep(&self.rt, Duration::from_micros(dealer_nap_micros(looks)));
    }
}

impl Gate for Counter<'_> {
    fn before(&self, _worker: usize, _number: u64) {}

    fn dealt(&self, _lane: usize, _number: u64) {
        if let Some(counts) = self.counts {
            counts.add_unit();
        }
    }

    fn is_counting(&self) -> bool {
        let Some(board) = self.board else {
            return false;
        };
        let counted = board.counted.load(Ordering::Relaxed);
        // The first round is counted however short it was: the input may stall after it.
        counted == 0
            || board
                .millis()
                .is_some_and(|now| now >= counted.saturating_add(PAUSE_MILLIS))
    }

    fn counted(&self, routes: u64) {
        if let Some(board) = self.board {
            board.routes.store(routes, Ordering::Relaxed);
            if let Some(now) = board.millis() {
                board.counted.store(now.max(1), Ordering::Relaxed);
            }
        }
    }

    fn listed(&self, damage: &Damage, is_refused: bool) {
        if let Some(counts) = self.counts {
            counts.add_fault(damage.place.file, is_refused);
        }
    }
}

/// Returns the number of columns of the terminal, as far as the environment says it.
pub fn terminal_width(rt: &HostRuntime) -> usize {
    match std::env::var(rt, "COLUMNS") {
        Ok(text) => read_width(text.as_str()),
        Err(_) => read_width(""),
    }
}

/// Returns the first characters of a line.
fn cut_to(alloc: Global, line: &str, room: usize) -> Option<String> {
    let mut cut = String::new(alloc);
    for c in line.chars().take(room) {
        cut.push(c).ok()?;
    }
    Some(cut)
}

fn push_blanks(line: &mut String, count: u64) -> Result<(), AllocError> {
    for _ in 0..count {
        line.push(' ')?;
    }
    Ok(())
}

/// Returns the end of a name, as messages print it.
fn shown_name(alloc: Global, name: &str) -> Option<String> {
    let name = FileName(name);
    let whole = format!(in alloc; "{name}").ok()?;
    let count = whole.as_str().chars().count();
    if count <= NAME_SHOWN {
        return Some(whole);
    }
    let mut shown = String::new(alloc);
    shown.push_str("..").ok()?;
    for c in whole.as_str().chars().skip(count - NAME_SHOWN) {
        shown.push(c).ok()?;
    }
    Some(shown)
}

/// Returns how much of all dumps has been read: in percent if their sizes are known, otherwise in megabytes, unpacked.
fn share_of(alloc: Global, of_all: Option<(u64, u64)>, bytes: u64) -> Option<String> {
    match of_all {
        Some((read, size)) if size > 0 => {
            let percent = (read.saturating_mul(100) / size).min(100);
            format!(in alloc; "{percent} %").ok()
        }
        _ => {
            let megabytes = bytes / 1_000_000;
            format!(in alloc; "{megabytes} MB").ok()
        }
    }
}
