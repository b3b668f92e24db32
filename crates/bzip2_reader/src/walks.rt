//! Walks of a block's links, side by side.

ghost use Rattle.std.specs.Prelude.{◌≡◌, ◌<◌, ◌≤◌, ℕ, List, All, IfSome, length, take};
ghost use Rattle.bzip2_reader.specs.Links.{IsWalk};
ghost use Rattle.bzip2_reader.specs.Walks.{AreSegments, IsFront, IsLane, IsSegment};

use crate::block::MOST_SIZE;
use crate::transform::link_at;
use std::alloc::{AllocError, Global};

/// How many walks there are side by side. A step waits for memory, and these wait together.
const LANES: usize = 12;

/// A segment begins at each row that is a multiple of this.
const STRIDE: u32 = 256;

/// The most bytes of a segment. Hardly one is longer, and what is behind it is walked alone.
const LONGEST: usize = 4096;

/// A walk from one row on.
#[derive(Drop)]
struct Lane {
    /// The row from which it walks, and the one to which it came.
    first: u32,
    row: u32,
    /// How many bytes it has, and these in front of others.
    size: usize,
    bytes: Vec<u8>,
}

impl Lane {
    /// Begins at this row.
    fn begin(&mut self, row: u32)
        ensures { (links : List ℕ) → IsLane links self.new }
    {
        self.first = row;
        self.row = row;
        self.size = 0;
    }

    /// Goes a step on, and returns whether it came to the next segment. Without room for a byte it returns that, too.
    #[inline(always)]
    fn step(&mut self, links: &[u32]) -> bool
        requires { IsLane links.now self.old }
        ensures { IsLane links.now self.new }
    {
        let size = self.size;
        if size >= self.bytes.len() {
            return true;
        }
        let link = link_at(links, self.row);
        let row = link / 256;
        self.row = row;
        self.size = size + 1;
        self.bytes[size] = (link % 256) as u8;
        row % STRIDE == 0
    }
}

/// A part of a text: the row that it begins with, where its bytes stand and how many they are, and the row behind them.
#[derive(Clone, Copy, Drop)]
struct Segment {
    first: u32,
    from: usize,
    size: usize,
    next: u32,
}

/// How much of a text was written, and the row that comes next.
#[derive(Clone, Copy, Drop)]
struct Front {
    done: usize,
    row: u32,
}

/// The segments of a text, by the rows that they begin with. Those that weren't walked have no bytes.
#[derive(Drop)]
struct Segments {
    all: Vec<Segment>,
    bytes: Vec<u8>,
}

impl Segments {
    /// Forgets all, and makes room for so many.
    fn clear(&mut self, count: usize) -> Result<(), AllocError>
        ensures { (links : List ℕ) → AreSegments links self.new }
    {
        let none = Segment {
            first: 0,
            from: 0,
            size: 0,
            next: 0,
        };
        self.bytes.clear();
        self.all.clear();
        self.all.resize(count, none)
    }

    /// Keeps what this lane walked, if there is room for it.
    #[inline(never)]
    fn keep(&mut self, lane: &Lane)
        requires { lane.now.size ≤ length lane.now.bytes.items }
        ensures { (links : List ℕ) → IsLane links lane.now → AreSegments links self.old → AreSegments links self.new }
    {
        let number = (lane.first / STRIDE) as usize;
        let from = self.bytes.len();
        let bytes = &lane.bytes.as_slice()[..lane.size];
        if number >= self.all.len() || from + bytes.len() > MOST_SIZE {
            return;
        }
        if self.bytes.extend_from_slice(bytes).is_err() {
            return;
        }
        self.all[number] = Segment {
            first: lane.first,
            from,
            size: lane.size,
            next: lane.row,
        };
    }

    /// The segment that begins with this row, if it was walked.
    fn begun_at(&self, row: u32) -> Option<Segment>
        ensures row { IfSome result (λ segment. segment.first ≡ row) }
        ensures bytes { IfSome result (λ segment. 1 ≤ segment.size) }
        ensures walked { (links : List ℕ) → AreSegments links self.now →
            IfSome result (λ segment. IsSegment links self.now.bytes.items segment) }
    {
        let segment = *self.all.as_slice().get((row / STRIDE) as usize)?;
        if segment.first == row && segment.size > 0 {
            Some(segment)
        } else {
            None
        }
    }

    /// Writes the bytes of the segment that begins here, or one byte.
    fn go_on(&self, links: &[u32], at: Front, text: &mut [u8]) -> Front
        requires room { at.done < length text.old }
        requires segments { AreSegments links.now self.now }
        ensures grows { at.done < result.done }
        ensures front { (first : ℕ) → IsFront links.now first text.old at → IsFront links.now first text.new result }
    {
        if let Some(segment) = self.begun_at(at.row)
            && segment.size <= text.len() - at.done
        {
            let bytes = &self.bytes.as_slice()[segment.from..segment.from + segment.size];
            text[at.done..at.done + segment.size].copy_from_slice(bytes);
            return Front {
                done: at.done + segment.size,
                row: segment.next,
            };
        }
        let link = link_at(links, at.row);
        text[at.done] = (link % 256) as u8;
        Front {
            done: at.done + 1,
            row: link / 256,
        }
    }

    /// Writes a text whose first byte's link is this one.
    fn write(&self, links: &[u32], first: u32, text: &mut [u8])
        requires { AreSegments links.now self.now }
        ensures { IsWalk links.now first text.new }
    {
        let mut at = Front {
            done: 0,
            row: first,
        };
        for _ in 0..text.len() {
            if at.done >= text.len() {
                break;
            }
            at = self.go_on(links, at, text);
        }
    }
}

/// Begins in each lane, and returns the row of the next segment.
fn begin_all(lanes: &mut [Lane]) -> u32
    ensures { (links : List ℕ) → All (IsLane links) lanes.new }
{
    let mut next = 0u32;
    for lane in lanes.iter_mut() {
        lane.begin(next);
        next = next.wrapping_add(STRIDE);
    }
    next
}

/// Goes a step on in each lane, keeps those that are done, and begins others in their place. Returns the row of the
/// next segment.
#[inline(always)]
fn step_all(links: &[u32], lanes: &mut [Lane], segments: &mut Segments, begun: u32) -> u32
    requires lanes { All (IsLane links.now) lanes.old }
    requires segments { AreSegments links.now segments.old }
    ensures lanes { All (IsLane links.now) lanes.new }
    ensures segments { AreSegments links.now segments.new }
{
    let mut next = begun;
    for lane in lanes.iter_mut() {
        if lane.step(links) {
            segments.keep(lane);
            lane.begin(next);
            next = next.wrapping_add(STRIDE);
        }
    }
    next
}

/// Keeps what all lanes walked.
fn keep_all(links: &[u32], lanes: &[Lane], segments: &mut Segments)
    requires lanes { All (IsLane links.now) lanes.now }
    requires segments { AreSegments links.now segments.old }
    ensures { AreSegments links.now segments.new }
{
    for lane in lanes {
        segments.keep(lane);
    }
}

/// Walks the segments of a text of this size side by side. Those that aren't begun when all steps were taken are left
/// out. It is a function by itself, so that what a step needs stays in registers.
#[inline(never)]
fn walk_all(links: &[u32], lanes: &mut [Lane], segments: &mut Segments, size: usize)
    requires { AreSegments links.now segments.old }
    ensures { AreSegments links.now segments.new }
{
    let mut next = begin_all(lanes);
    for _ in 0..size / LANES + LONGEST {
        if next as usize >= size {
            break;
        }
        next = step_all(links, lanes, segments, next);
    }
    keep_all(links, lanes, segments);
}

/// The memory for walks.
#[derive(Drop)]
pub(crate) struct Walks {
    lanes: Vec<Lane>,
    segments: Segments,
}

impl Walks {
    pub(crate) fn new(alloc: Global) -> Walks {
        Walks {
            lanes: Vec::new(alloc),
            segments: Segments {
                all: Vec::new(alloc),
                bytes: Vec::new(alloc),
            },
        }
    }

    /// Makes it.
    pub(crate) fn make_room(&mut self) -> Result<(), AllocError> {
        let alloc = *self.lanes.allocator();
        for _ in self.lanes.len()..LANES {
            let mut bytes = Vec::new(alloc);
            bytes.resize(LONGEST, 0)?;
            self.lanes.push(Lane {
                first: 0,
                row: 0,
                size: 0,
                bytes,
            })?;
        }
        self.segments.bytes.clear();
        self.segments.bytes.reserve_exact(MOST_SIZE)
    }

    /// Writes a block's bytes in the order of their links.
    fn walk(&mut self, links: &[u32], first: u32, text: &mut [u8])
        ensures { IsWalk links.now first text.new }
    {
        let count = text.len() / STRIDE as usize + 1;
        if self.segments.clear(count).is_ok() {
            walk_all(
                links,
                self.lanes.as_mut_slice(),
                &mut self.segments,
                text.len(),
            );
        }
        self.segments.write(links, first, text);
    }

    /// Writes so many bytes of a block in front of others.
    pub(crate) fn walk_front(&mut self, links: &[u32], first: u32, size: usize, text: &mut [u8])
        requires { size ≤ length text.old }
        ensures { IsWalk links.now first (take size text.new) }
    {
        self.walk(links, first, &mut text[..size]);
    }
}
