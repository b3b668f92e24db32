// Blocks that are decoded side by side.
ghost use denote.Param.Send.{IsSync};
ghost use Rattle.std.specs.Prelude.{◌≡◌, ◌≤◌, ◌+◌, ◌*◌, ◌^◌, ℕ, List, All, IfOk, IfSome, take, length, vec_len};
ghost use Rattle.bzip2_reader.specs.Fields.{bits_of};
ghost use Rattle.bzip2_reader.specs.Jobs.{HasRun, IsRead};
ghost use Rattle.bzip2_reader.specs.Texts.{IsBlock, first_link, text_size};

use crate::bits::MOST_BYTES;
use crate::block::{MOST_SIZE, Text, read_text};
use crate::codes::Codes;
use crate::fault::BlockFault;
use crate::scan::next_block;
use crate::walks::Walks;
use std::alloc::{AllocError, Global};
use std::thread::{Threads, map_vec};

/// How many bytes a block has before its runs are written out, and none if it has a fault.
fn size_of(text: Option<Result<Text, BlockFault>>) -> usize
    ensures { result ≡ text_size text }
{
    match text {
        Some(Ok(text)) => text.size,
        _ => 0,
    }
}

/// The link of a block's first byte.
fn first_of(text: Option<Result<Text, BlockFault>>) -> u32
    ensures { result ≡ first_link text }
{
    match text {
        Some(Ok(text)) => text.first,
        _ => 0,
    }
}

/// What one thread decodes: a block, or what may be one.
#[derive(Drop)]
pub struct Job {
    /// The bit at which it begins, if the job has one.
    start: Option<usize>,
    /// What was read there, if anything was.
    text: Option<Result<Text, BlockFault>>,
    /// The bytes of the block before its runs are written out, and behind them any others.
    raw: Vec<u8>,
    codes: Codes,
    links: Vec<u32>,
    walks: Walks,
}

impl Job {
    pub(crate) fn new(alloc: Global) -> Job {
        Job {
            start: None,
            text: None,
            raw: Vec::new(alloc),
            codes: Codes::new(),
            links: Vec::new(alloc),
            walks: Walks::new(alloc),
        }
    }

    /// Makes the memory for a block.
    fn make_room(&mut self) -> Result<(), AllocError> {
        if self.links.len() < MOST_SIZE {
            self.links.resize(MOST_SIZE, 0)?;
        }
        if self.raw.len() < MOST_SIZE {
            self.raw.resize(MOST_SIZE, 0)?;
        }
        self.walks.make_room()
    }

    /// Gives it this place, and makes the memory for the block.
    fn deal(&mut self, place: Option<usize>) -> Result<(), AllocError> {
        self.start = place;
        if place.is_some() {
            self.make_room()?;
        }
        Ok(())
    }

    /// Reads the block, if there is one and room for it.
    fn read(&mut self, bytes: &[u8])
        ensures { IsRead (bits_of bytes.now) self.new }
    {
        self.text = None;
        if bytes.len() > MOST_BYTES
            || self.raw.len() != MOST_SIZE
            || self.links.len() != MOST_SIZE
        {
            return;
        }
        if let Some(start) = self.start {
            self.text = Some(read_text(
                &mut self.codes,
                self.raw.as_mut_slice(),
                self.links.as_mut_slice(),
                bytes,
                start,
            ));
        }
    }

    /// Walks its links.
    fn walk(&mut self)
        ensures { (bits : List ℕ) → IsRead bits self.old → HasRun bits self.new }
    {
        let size = size_of(self.text);
        if size > self.raw.len() {
            self.text = None;
            return;
        }
        let first = first_of(self.text);
        self.walks.walk_front(self.links.as_slice(), first, size, self.raw.as_mut_slice());
    }

    /// Decodes its block.
    fn run(mut self, bytes: &[u8]) -> Job
        ensures { HasRun (bits_of bytes.now) result }
    {
        self.read(bytes);
        self.walk();
        self
    }

    /// The bit at which its block begins, if it has one.
    pub(crate) fn start(&self) -> Option<usize> {
        self.start
    }

    /// What was decoded at this bit, if anything was.
    pub(crate) fn text(&self, at: usize) -> Option<Result<Text, BlockFault>>
        ensures { (bits : List ℕ) → HasRun bits self.now →
            IfSome result (λ text. IsBlock bits at text self.now.raw.items) }
    {
        if self.start == Some(at) {
            return self.text;
        }
        None
    }

    /// So many bytes of the block before its runs are written out.
    pub(crate) fn raw(&self, size: usize) -> &[u8]
        ensures { size ≤ vec_len self.now.raw → result.now ≡ take size self.now.raw.items }
    {
        match self.raw.as_slice().get(..size) {
            Some(raw) => raw,
            None => &[],
        }
    }
}

/// Who decodes.
pub trait Team {
    /// What running jobs needs.
    ghost is_ready: { Self → Type 0 };

    /// How many jobs there are at a time, 1 to 64.
    fn jobs(&self) -> usize
        ensures least { 1 ≤ result }
        ensures most { result ≤ 64 };

    /// Runs each job over these bytes, in whatever order or side by side, and gives them in order.
    fn run(&self, jobs: Vec<Job>, bytes: &[u8]) -> Result<Vec<Job>, AllocError>
        requires { is_ready self.now }
        ensures run { IfOk result (λ done. All (HasRun (bits_of bytes.now)) done.items) };
}

/// Runs jobs in the calling thread.
#[derive(Drop)]
pub struct Alone;

impl Team for Alone {
    ghost is_ready = { λ _. Unit {0} };

    fn jobs(&self) -> usize {
        1
    }

    fn run(&self, jobs: Vec<Job>, bytes: &[u8]) -> Result<Vec<Job>, AllocError> {
        let mut done = Vec::new(*jobs.allocator());
        for job in jobs {
            done.push(job.run(bytes))?;
        }
        Ok(done)
    }
}

/// Runs so many jobs, at least one and 64 at most, each in a thread of its own where one can be started, and else in
/// the calling thread.
#[derive(Drop)]
pub struct Beside<'r, R: Threads + Sync>(pub &'r R, pub usize);

impl<R: Threads + Sync> Team for Beside<'_, R> {
    ghost is_ready = { λ _. IsSync R.row };

    fn jobs(&self) -> usize {
        self.1.max(1).min(64)
    }

    fn run(&self, jobs: Vec<Job>, bytes: &[u8]) -> Result<Vec<Job>, AllocError> {
        map_vec(self.0, jobs, &|job| job.run(bytes))
    }
}

/// The next place after this one at which a block may begin, if it is before this end.
fn next_place(bytes: &[u8], place: Option<usize>, end: usize) -> Option<usize> {
    next_block(bytes, place?.saturating_add(1)).filter(|next| *next < end)
}

/// Deals the places from this bit on at which blocks may begin among the jobs, and returns how many have one.
fn deal_all(jobs: &mut [Job], bytes: &[u8], at: usize, end: usize) -> Result<usize, AllocError> {
    let mut place = Some(at);
    let mut dealt = 0usize;
    for job in jobs.iter_mut() {
        if dealt > 0 {
            place = next_place(bytes, place, end);
        }
        job.deal(place)?;
        if place.is_some() {
            dealt = dealt.saturating_add(1);
        }
    }
    Ok(dealt)
}

/// Decodes the block at this bit, and blocks that may come after it and begin before the end. Returns the jobs, and
/// how many of them have a block.
pub(crate) fn decode_from<T: Team>(
    team: &T,
    mut jobs: Vec<Job>,
    bytes: &[u8],
    at: usize,
    end: usize,
) -> Result<(Vec<Job>, usize), AllocError>
    requires { T.is_ready team.now }
    ensures run { IfOk result (λ done. All (HasRun (bits_of bytes.now)) done.0.items) }
{
    let dealt = deal_all(jobs.as_mut_slice(), bytes, at, end)?;
    let done = team.run(jobs, bytes)?;
    Ok((done, dealt))
}
