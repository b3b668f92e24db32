// The streams of a device, block by block.
ghost use Rattle.std.specs.Prelude.{◌≡◌, ◌≢◌, ◌<◌, ◌≤◌, ◌+◌, ◌-◌, ◌*◌, ◌/◌, ◌^◌, ◌++◌, ◌⊎◌, ℕ, List, [], length, IfErr, IfOk, OnErr, OnOk, Option, None, Some, vec_len, Ok, Err, true, false, All, bit_xor, drop, min, take};
ghost use Rattle.std.specs.Option.{option_map};
ghost use Rattle.std.specs.Int.{rotate_left, w32};
ghost use Rattle.std.proofs.Props.{props};
ghost use Rattle.bzip2_reader.specs.TextProps.{block_prop};
ghost use Rattle.bzip2_reader.specs.Coming.{Comes, EndsBy, GoesOn, IsWrong, Stops};
ghost use Rattle.bzip2_reader.specs.Endings.{is_failure};
ghost use Rattle.bzip2_reader.specs.Fields.{bits_of};
ghost use Rattle.bzip2_reader.specs.Files.{Between, Inside, IsMore, Unpacked, block_in, part_at, unpacked};
ghost use Rattle.bzip2_reader.specs.Jobs.{HasRun};
ghost use Rattle.bzip2_reader.specs.Stretches.{has_failed};
ghost use Rattle.bzip2_reader.specs.Windows.{window_bytes};
ghost use Rattle.bzip2_reader.specs.declared.fault.Cause.TheVariants.{Device, EarlyEnd, Memory};
ghost use Rattle.bzip2_reader.specs.declared.window.Rest.TheVariants.{None as NoMore};

use crate::batch::{Job, Team, decode_from};
use crate::bits::Cursor;
use crate::block::{Block, read_magic};
use crate::checksum::Checksums;
use crate::fault::{BlockFault, Cause, cause_of};
use crate::parts::{read_end, read_head};
use crate::window::Window;
use mrt_frame::Source;
use std::alloc::{AllocError, Global};

/// The 48 bits that end a stream.
const END_MAGIC: u64 = 0x1772_4538_5090;

/// A block's bits are fewer than these bytes, however they are coded: 18,002 groups of 50 codes of 20 bits, 32,767
/// selectors of 6 bits, and 6 tables of 258 lengths that take 40 steps of 2 bits at most.
const MARGIN: usize = 2_300_000;

/// How many further bytes are read for each thread, and as long as there are how many none are read: no block has more.
/// With fewer a thread may have no block to decode; the more are read at a time, the less often those that are held are
/// moved.
const EACH: usize = 1_200_000;

const ENOUGH: usize = 900_000;

/// Makes this many jobs. Those that are more are dropped with their memory.
fn fill_jobs(alloc: Global, jobs: &mut Vec<Job>, count: usize) -> Result<(), AllocError> {
    jobs.truncate(count);
    for _ in jobs.len()..count {
        jobs.push(Job::new(alloc))?;
    }
    Ok(())
}

/// Where in a stream the reader is.
#[derive(Clone, Copy, Drop)]
enum Stage {
    /// Before a stream, or at the end.
    Between,
    /// Before a block or the end of the stream, whose blocks have at most so many bytes. The checksum is that of the
    /// blocks so far.
    Inside { most: usize, sum: u32 },
}

/// The streams of a device, one after the other.
#[derive(Drop)]
pub(crate) struct Streams<D> {
    alloc: Global,
    pub(crate) device: D,
    window: Window,
    /// The next bit of the window.
    at: usize,
    stage: Stage,
    sums: Checksums,
    jobs: Vec<Job>,
    /// How many of the jobs have a block, and the first of them that wasn't taken.
    dealt: usize,
    next: usize,
    pub(crate) block: Block,
    ghost within: { at ≤ 8 * window.filled },
    ghost decoded: { next < dealt → All (HasRun (bits_of (take window.filled window.block.items))) jobs.items } by { Prim.hlevel (props, block_prop) },
}

impl<D: Source> Streams<D> {
    ghost use Rattle.bzip2_reader.specs.Left.{Follows, IsFresh, left_of};
    ghost use Rattle.bzip2_reader.specs.StreamViews.{IsSame, coming_of, place_of};

    /// Begins with these bytes, which are followed by the device's.
    pub(crate) fn new(front: Vec<u8>, device: D) -> Streams<D>
        ensures device { result.device ≡ device }
        ensures bytes { (known : Option (List ℕ)) →
            coming_of known result ≡ option_map (λ bytes. unpacked (front.items ++ bytes)) known }
    {
        let alloc = *front.allocator();
        Streams {
            alloc,
            device,
            window: Window::new(front),
            at: 0,
            stage: Stage::Between,
            sums: Checksums::new(),
            jobs: Vec::new(alloc),
            dealt: 0,
            next: 0,
            block: Block::new(alloc),
        }
    }

    /// The device's byte that the reader is at.
    pub(crate) fn offset(&self) -> u64 {
        self.window.offset_of(self.at / 8)
    }

    /// Drops what is before the next bit, and reads until there are this many bytes, or the device ends or fails.
    fn hold(&mut self, size: usize) -> Result<(), Cause>
        ensures block { self.new.block ≡ self.old.block }
        ensures comes { Comes [] (coming_of (D.remaining self.old.device) self.old)
            (coming_of (D.remaining self.new.device) self.new) }
        ensures wrong { IfErr result (λ cause. cause ≡ Memory) }
        ensures sound { has_failed self.new.window.rest ≡ false → (has_failed self.old.window.rest ≡ false)
            × (D.failure_count self.new.device ≡ D.failure_count self.old.device) }
    {
        let used = self.at / 8;
        self.at -= used * 8;
        self.dealt = 0;
        self.next = 0;
        match self.window.fill(&mut self.device, used, size) {
            Ok(()) => Ok(()),
            Err(_) => Err(Cause::Memory),
        }
    }

    /// Reads on, so that the next block is in the window whole, or the device's end, and further bytes for each job.
    fn refill(&mut self, jobs: usize) -> Result<(), Cause>
        requires { jobs ≤ 64 }
        ensures block { self.new.block ≡ self.old.block }
        ensures comes { Comes [] (coming_of (D.remaining self.old.device) self.old)
            (coming_of (D.remaining self.new.device) self.new) }
        ensures wrong { IfErr result (λ cause. cause ≡ Memory) }
        ensures sound { has_failed self.new.window.rest ≡ false → (has_failed self.old.window.rest ≡ false)
            × (D.failure_count self.new.device ≡ D.failure_count self.old.device) }
    {
        if self.window.is_last()
            || self.window.bytes().len() - self.at / 8 >= MARGIN + jobs * ENOUGH
        {
            return Ok(());
        }
        self.hold(MARGIN + jobs * EACH)
    }

    /// Reads on where the window's bits end too early, or tells why no more come.
    fn read_on(&mut self) -> Result<(), Cause>
        ensures block { self.new.block ≡ self.old.block }
        ensures comes { Comes [] (coming_of (D.remaining self.old.device) self.old)
            (coming_of (D.remaining self.new.device) self.new) }
        ensures stops { IfErr result (λ cause. (known : Option Unpacked) →
            (self.old.window.rest ≡ NoMore → EndsBy (Some EarlyEnd) known) → Stops cause self.new.window.rest known) }
        ensures stays { self.old.window.rest ≡ NoMore → IsSame self.old self.new }
        ensures sound { has_failed self.new.window.rest ≡ false → (has_failed self.old.window.rest ≡ false)
            × (D.failure_count self.new.device ≡ D.failure_count self.old.device) }
    {
        if self.window.has_failed() {
            return Err(Cause::Device);
        }
        if self.window.is_last() {
            return Err(Cause::EarlyEnd);
        }
        let size = self.window.bytes().len().saturating_add(MARGIN);
        self.hold(size)
    }

    /// A cursor at the next bit. The window is never too long for one.
    fn cursor(&self) -> Result<Cursor<'_>, Cause>
        ensures bytes { IfOk result (λ c. c.bytes.now ≡ window_bytes self.now.window) }
        ensures at { IfOk result (λ c. c.at ≡ self.now.at) }
        ensures wrong { IfErr result (λ cause. cause ≡ Memory) }
    {
        match Cursor::new(self.window.bytes(), self.at) {
            Some(cursor) => Ok(cursor),
            None => Err(Cause::Memory),
        }
    }

    /// Goes past the head of a stream.
    fn begin_stream(&mut self) -> Result<(), Cause>
        ensures begun { OnOk result (part_at Between (drop self.old.at (bits_of (window_bytes self.old.window)))
            ≡ Ok (record {
              given = [];
              next = place_of self.new.stage;
              rest = drop self.new.at (bits_of (window_bytes self.old.window));
            })) }
        ensures file { (self.new.device ≡ self.old.device) × (self.new.window ≡ self.old.window)
            × (self.new.block ≡ self.old.block) }
        ensures stays { OnErr result (IsSame self.old self.new) }
        ensures wrong { IfErr result (λ cause.
            IsWrong cause (part_at Between (drop self.old.at (bits_of (window_bytes self.old.window))))) }
    {
        let mut cursor = self.cursor()?;
        let most = read_head(&mut cursor)?;
        self.at = cursor.at;
        self.stage = Stage::Inside { most, sum: 0 };
        Ok(())
    }

    /// Goes past the end of a stream whose blocks have this checksum, if that is next. Else it is a block.
    fn end_stream(&mut self, sum: u32) -> Result<bool, Cause>
        ensures ended { IfOk result (λ ended. ended ≡ true → (most : ℕ) →
            part_at (Inside most sum) (drop self.old.at (bits_of (window_bytes self.old.window)))
            ≡ Ok (record {
              given = [];
              next = place_of self.new.stage;
              rest = drop self.new.at (bits_of (window_bytes self.old.window));
            })) }
        ensures block { IfOk result (λ ended. ended ≡ false → (most : ℕ) →
            part_at (Inside most sum) (drop self.old.at (bits_of (window_bytes self.old.window)))
            ≡ block_in most sum (drop self.old.at (bits_of (window_bytes self.old.window)))) }
        ensures same { IfOk result (λ ended. ended ≡ false → IsSame self.old self.new) }
        ensures file { (self.new.device ≡ self.old.device) × (self.new.window ≡ self.old.window)
            × (self.new.block ≡ self.old.block) }
        ensures stays { OnErr result (IsSame self.old self.new) }
        ensures wrong { IfErr result (λ cause. (most : ℕ) →
            IsWrong cause (part_at (Inside most sum) (drop self.old.at (bits_of (window_bytes self.old.window))))) }
    {
        let mut cursor = self.cursor()?;
        match read_magic(&mut cursor) {
            Ok(END_MAGIC) => {}
            Ok(_) => return Ok(false),
            Err(fault) => return Err(cause_of(fault)),
        }
        read_end(&mut cursor, sum)?;
        self.at = cursor.at;
        self.stage = Stage::Between;
        Ok(true)
    }

    /// Decodes the block at this bit, and others side by side.
    fn decode<T: Team>(&mut self, team: &T) -> Result<(), AllocError>
        requires { T.is_ready team.now }
        ensures { IsSame self.old self.new }
    {
        self.dealt = 0;
        self.next = 0;
        fill_jobs(self.alloc, &mut self.jobs, team.jobs())?;
        let bytes = self.window.bytes();
        let end = if self.window.is_last() {
            usize::MAX
        } else {
            bytes.len().saturating_sub(MARGIN).saturating_mul(8)
        };
        let jobs = std::mem::replace(&mut self.jobs, Vec::new(self.alloc));
        let (done, dealt) = decode_from(team, jobs, bytes, self.at, end)?;
        self.jobs = done;
        self.dealt = dealt;
        Ok(())
    }

    /// Takes the block that was decoded at this bit, and tells whether there is one.
    fn take_front(&mut self, most: usize, sum: u32) -> Result<bool, Cause>
        ensures taken { IfOk result (λ taken. taken ≡ true →
            block_in most sum (drop self.old.at (bits_of (window_bytes self.old.window)))
            ≡ Ok (record {
              given = left_of self.new.block;
              next = place_of self.new.stage;
              rest = drop self.new.at (bits_of (window_bytes self.old.window));
            })) }
        ensures block { (self.new.block ≡ self.old.block) ⊎ IsFresh self.new.block }
        ensures none { IfOk result (λ taken. taken ≡ false → IsSame self.old self.new) }
        ensures file { (self.new.device ≡ self.old.device) × (self.new.window ≡ self.old.window) }
        ensures stays { OnErr result ((self.new.at ≡ self.old.at) × (self.new.stage ≡ self.old.stage)
            × (left_of self.old.block ≡ [] → left_of self.new.block ≡ [])) }
        ensures wrong { IfErr result (λ cause.
            IsWrong cause (block_in most sum (drop self.old.at (bits_of (window_bytes self.old.window))))) }
    {
        if self.next >= self.dealt {
            return Ok(false);
        }
        let Some(job) = self.jobs.as_slice().get(self.next) else {
            return Ok(false);
        };
        let text = match job.text(self.at) {
            Some(Ok(text)) => text,
            Some(Err(fault)) => return Err(cause_of(fault)),
            None => return Ok(false),
        };
        if text.size > most {
            return Err(Cause::Block(BlockFault::LongBlock));
        }
        let before = std::mem::replace(&mut self.block, Block::new(self.alloc));
        let raw = job.raw(text.size);
        self.block = Block::take(raw, text.checksum, &self.sums, before.into_text())?;
        self.stage = Stage::Inside {
            most,
            sum: sum.rotate_left(1) ^ text.checksum,
        };
        self.at = text.end;
        Ok(true)
    }

    /// Goes past the next block or the end of the stream.
    fn go_on<T: Team>(&mut self, team: &T, most: usize, sum: u32) -> Result<(), Cause>
        requires ready { T.is_ready team.now }
        requires place { place_of self.old.stage ≡ Inside most sum }
        requires given { left_of self.old.block ≡ [] }
        ensures part { OnOk result (GoesOn (bits_of (window_bytes self.old.window)) (Inside most sum) self.old.at
            (place_of self.new.stage) self.new.at (left_of self.new.block)) }
        ensures block { (self.new.block ≡ self.old.block) ⊎ IsFresh self.new.block }
        ensures file { (self.new.device ≡ self.old.device) × (self.new.window ≡ self.old.window) }
        ensures stays { OnErr result ((self.new.at ≡ self.old.at) × (self.new.stage ≡ self.old.stage)
            × (left_of self.new.block ≡ [])) }
        ensures wrong { IfErr result (λ cause.
            IsWrong cause (part_at (Inside most sum) (drop self.old.at (bits_of (window_bytes self.old.window))))) }
    {
        if self.end_stream(sum)? {
            return Ok(());
        }
        if self.next >= self.dealt && self.decode(team).is_err() {
            return Err(Cause::Memory);
        }
        if !self.take_front(most, sum)? {
            self.next = self.dealt;
        }
        Ok(())
    }

    /// Takes the next part in the window.
    fn take_part<T: Team>(&mut self, team: &T) -> Result<(), Cause>
        requires ready { T.is_ready team.now }
        requires given { left_of self.old.block ≡ [] }
        ensures part { OnOk result (GoesOn (bits_of (window_bytes self.old.window))
            (place_of self.old.stage) self.old.at
            (place_of self.new.stage) self.new.at (left_of self.new.block)) }
        ensures block { (self.new.block ≡ self.old.block) ⊎ IsFresh self.new.block }
        ensures file { (self.new.device ≡ self.old.device) × (self.new.window ≡ self.old.window) }
        ensures stays { OnErr result ((self.new.at ≡ self.old.at) × (self.new.stage ≡ self.old.stage)
            × (left_of self.new.block ≡ [])) }
        ensures wrong { IfErr result (λ cause. IsWrong cause
            (part_at (place_of self.old.stage) (drop self.old.at (bits_of (window_bytes self.old.window))))) }
    {
        match self.stage {
            Stage::Between => self.begin_stream(),
            Stage::Inside { most, sum } => self.go_on(team, most, sum),
        }
    }

    /// The number of the first job that wasn't passed, or how many there are.
    fn next_job(&self) -> usize
        ensures { self.now.next ≤ result }
    {
        let mut next = self.next;
        for _ in self.next..self.dealt.max(self.next) {
            if let Some(job) = self.jobs.as_slice().get(next)
                && let Some(start) = job.start()
                && start >= self.at
            {
                return next;
            }
            next = next.saturating_add(1);
        }
        next
    }

    /// Passes what was decoded before this bit, and reads on if nothing is left.
    fn prepare(&mut self, jobs: usize) -> Result<(), Cause>
        requires { jobs ≤ 64 }
        ensures block { self.new.block ≡ self.old.block }
        ensures comes { Comes [] (coming_of (D.remaining self.old.device) self.old)
            (coming_of (D.remaining self.new.device) self.new) }
        ensures wrong { IfErr result (λ cause. cause ≡ Memory) }
        ensures sound { has_failed self.new.window.rest ≡ false → (has_failed self.old.window.rest ≡ false)
            × (D.failure_count self.new.device ≡ D.failure_count self.old.device) }
    {
        self.next = self.next_job();
        if self.next < self.dealt {
            return Ok(());
        }
        self.refill(jobs)
    }

    /// Whether the last stream ended, and nothing comes after it.
    fn is_at_end(&self) -> bool
        ensures yes { result ≡ true → (place_of self.now.stage ≡ Between) × (self.now.window.rest ≡ NoMore)
            × (drop self.now.at (bits_of (window_bytes self.now.window)) ≡ []) }
        ensures no { result ≡ false → self.now.window.rest ≡ NoMore →
            IsMore (place_of self.now.stage) (drop self.now.at (bits_of (window_bytes self.now.window))) }
    {
        match self.stage {
            Stage::Between => {}
            Stage::Inside { .. } => return false,
        }
        if !self.window.is_last() || self.window.has_failed() {
            return false;
        }
        self.at / 8 >= self.window.bytes().len()
    }

    /// Takes one step: past the head or the end of a stream, or a block. It is seldom, and what it needs is not to be
    /// cleared at each read.
    #[inline(never)]
    fn step<T: Team>(&mut self, team: &T) -> Result<(), Cause>
        requires ready { T.is_ready team.now }
        requires given { left_of self.old.block ≡ [] }
        ensures comes { Comes [] (coming_of (D.remaining self.old.device) self.old)
            (coming_of (D.remaining self.new.device) self.new) }
        ensures block { (self.new.block ≡ self.old.block) ⊎ IsFresh self.new.block }
        ensures stops { IfErr result (λ cause. Stops cause self.new.window.rest
            (coming_of (D.remaining self.new.device) self.new)) }
        ensures sound { has_failed self.new.window.rest ≡ false → (has_failed self.old.window.rest ≡ false)
            × (D.failure_count self.new.device ≡ D.failure_count self.old.device) }
    {
        self.prepare(team.jobs())?;
        if self.is_at_end() {
            return Ok(());
        }
        match self.take_part(team) {
            Ok(()) => Ok(()),
            Err(cause) => match cause {
                Cause::EarlyEnd => self.read_on(),
                _ => Err(cause),
            },
        }
    }

    /// Goes on until there are bytes to give, or none will come.
    pub(crate) fn advance<T: Team>(&mut self, team: &T) -> Result<(), Cause>
        requires { T.is_ready team.now }
        ensures comes { Comes [] (coming_of (D.remaining self.old.device) self.old)
            (coming_of (D.remaining self.new.device) self.new) }
        ensures block { Follows self.old.block self.new.block }
        ensures ends { OnOk result (left_of self.new.block ≡ [] → (self.new.window.rest ≡ NoMore)
            × EndsBy None (coming_of (D.remaining self.new.device) self.new)) }
        ensures stops { IfErr result (λ cause. Stops cause self.new.window.rest
            (coming_of (D.remaining self.new.device) self.new)) }
        ensures sound { has_failed self.new.window.rest ≡ false → (has_failed self.old.window.rest ≡ false)
            × (D.failure_count self.new.device ≡ D.failure_count self.old.device) }
    {
        for _ in 0..u64::MAX {
            if !self.block.is_given() {
                return Ok(());
            }
            if self.is_at_end() {
                return Ok(());
            }
            self.step(team)?;
        }
        // So many steps are never taken.
        Err(Cause::Memory)
    }
}
