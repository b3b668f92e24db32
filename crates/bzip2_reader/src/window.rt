// A stretch of a device's bytes.
ghost use Rattle.std.specs.Prelude.{◌≡◌, ◌≤◌, ◌<◌, ◌+◌, take, drop, length, vec_len, OnOk, false};
ghost use Rattle.mrt_frame.specs.Devices.{CountsFailure};
ghost use Rattle.std.specs.Io.KnownBytes.{Keeps, ReadConsumes};
ghost use Rattle.std.specs.Io.{ReadsAtMost};
ghost use Rattle.bzip2_reader.specs.Stretches.{has_failed, is_last, known_behind, known_whole};
ghost use Rattle.bzip2_reader.specs.declared.window.Rest.TheVariants.{More};

use mrt_frame::{Failed, Source};
use std::alloc::AllocError;

/// How many bytes are read at first.
const FIRST: usize = 65_536;

/// Whether more bytes of the device can come.
#[derive(Clone, Copy, PartialEq, Eq, Drop)]
enum Rest {
    More,
    None,
    Failed,
}

/// Reads bytes behind the first ones of this block.
fn read_behind<D: Source>(device: &mut D, block: &mut [u8], filled: usize) -> Result<usize, Failed>
    requires { filled ≤ length block.old }
    ensures front { take filled block.new ≡ take filled block.old }
    ensures bound { ReadsAtMost result (drop filled block.new) }
    ensures bytes { ReadConsumes (D.remaining device.old) (D.remaining device.new) result (drop filled block.new) }
    ensures counted { CountsFailure (D.failure_count device.old) (D.failure_count device.new) result }
{
    device.read_some(&mut block[filled..])
}

/// The next bytes of a device, from the first that is still wanted.
#[derive(Drop)]
pub(crate) struct Window {
    block: Vec<u8>,
    filled: usize,
    /// How many bytes of the device are before the window.
    before: u64,
    rest: Rest,
    ghost within: { filled ≤ vec_len block },
}

impl Window {
    /// Begins with the device's first bytes, which were read already.
    pub(crate) fn new(front: Vec<u8>) -> Window
        ensures { (result.block ≡ front) × (result.filled ≡ vec_len front) × (result.rest ≡ More) }
    {
        Window {
            filled: front.len(),
            block: front,
            before: 0,
            rest: Rest::More,
        }
    }

    pub(crate) fn bytes(&self) -> &[u8]
        ensures { result.now ≡ take self.now.filled self.now.block.items }
    {
        &self.block.as_slice()[..self.filled]
    }

    /// The device's offset of this byte of the window.
    pub(crate) fn offset_of(&self, place: usize) -> u64 {
        self.before.saturating_add(place as u64)
    }

    /// Whether no bytes come after the window's.
    pub(crate) fn is_last(&self) -> bool
        ensures { result ≡ is_last self.now.rest }
    {
        self.rest != Rest::More
    }

    /// Whether the device failed after the window's bytes.
    pub(crate) fn has_failed(&self) -> bool
        ensures { result ≡ has_failed self.now.rest }
    {
        self.rest == Rest::Failed
    }

    /// Makes the block of memory longer, but not longer than this.
    fn grow(&mut self, size: usize) -> Result<(), AllocError>
        requires { (self.old.filled < size) × (self.old.filled ≡ vec_len self.old.block) }
        ensures front { take self.old.filled self.new.block.items ≡ take self.old.filled self.old.block.items }
        ensures same { (self.new.filled ≡ self.old.filled) × (self.new.rest ≡ self.old.rest) }
        ensures room { OnOk result (self.new.filled < vec_len self.new.block) }
    {
        let more = self.block.len().saturating_mul(2).max(FIRST).min(size);
        self.block.resize(more, 0)
    }

    /// Drops the first bytes.
    fn drop_front(&mut self, used: usize)
        requires { used ≤ self.old.filled }
        ensures left { take self.new.filled self.new.block.items ≡ drop used (take self.old.filled self.old.block.items) }
        ensures filled { self.new.filled + used ≡ self.old.filled }
        ensures rest { self.new.rest ≡ self.old.rest }
    {
        self.block.copy_within(used..self.filled, 0);
        self.filled -= used;
        self.before = self.before.saturating_add(used as u64);
    }

    /// Reads once.
    fn read_more<D: Source>(&mut self, device: &mut D)
        requires room { self.old.filled < vec_len self.old.block }
        requires more { self.old.rest ≡ More }
        ensures bytes { Keeps (known_whole self.old.block.items self.old.filled self.old.rest (D.remaining device.old))
            (known_whole self.new.block.items self.new.filled self.new.rest (D.remaining device.new)) }
        ensures grows { self.old.filled ≤ self.new.filled }
        ensures sound { has_failed self.new.rest ≡ false →
            (D.failure_count device.new ≡ D.failure_count device.old) }
    {
        match read_behind(device, self.block.as_mut_slice(), self.filled) {
            Ok(0) => self.rest = Rest::None,
            Ok(count) => self.filled += count,
            Err(_) => self.rest = Rest::Failed,
        }
    }

    /// Drops the first bytes, and reads until there are this many, or the device ends or fails.
    pub(crate) fn fill<D: Source>(
        &mut self,
        device: &mut D,
        used: usize,
        size: usize,
    ) -> Result<(), AllocError>
        requires { used ≤ self.old.filled }
        ensures bytes { Keeps
            (known_behind used (known_whole self.old.block.items self.old.filled self.old.rest (D.remaining device.old)))
            (known_whole self.new.block.items self.new.filled self.new.rest (D.remaining device.new)) }
        ensures grows { self.old.filled ≤ used + self.new.filled }
        ensures sound { has_failed self.new.rest ≡ false →
            (has_failed self.old.rest ≡ false) × (D.failure_count device.new ≡ D.failure_count device.old) }
    {
        self.drop_front(used);
        for _ in 0..u64::MAX {
            if self.is_last() || self.filled >= size {
                break;
            }
            if self.filled >= self.block.len() {
                self.grow(size)?;
            }
            self.read_more(device);
        }
        Ok(())
    }
}
