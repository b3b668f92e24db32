//! A reader in blocks, whose memory exists only while it is read.

ghost use Rattle.std.specs.Prelude.{◌≡◌, ◌≤◌, length, take, OnOk};
ghost use Rattle.std.specs.Io.KnownBytes.{Consumes, Keeps};
ghost use Rattle.run_io.specs.Readers.{IsBegun, blocks_remaining};

use crate::slot::Slot;
use std::alloc::Global;
use std::io::{self, BufRead, BufReader, Read};
use std::mem;

/// How many bytes are read at once.
const BLOCK: usize = 65_536;

/// How far a reader has been read.
#[derive(Drop)]
enum Stage<D> {
    /// Nothing has been read yet.
    Waiting(Slot<D>),
    Reading(BufReader<Slot<D>>),
    /// Read to its end.
    Ended,
}

/// A reader that is read in blocks of 64 KiB. The block's memory exists only while it is read, and the reader is
/// dropped at its end.
#[derive(Drop)]
pub struct Blocks<D> {
    alloc: Global,
    stage: Stage<D>,
}

impl<D: Read> Blocks<D> {
    pub fn new(alloc: Global, device: D) -> Blocks<D>
        ensures { blocks_remaining D.remaining result ≡ D.remaining device }
    {
        Blocks {
            alloc,
            stage: Stage::Waiting(Slot {
                device: Some(device),
            }),
        }
    }

    /// Makes the block before the first read. Without memory for it nothing is lost.
    fn begin(&mut self) -> io::Result<()>
    where
        D: Drop,
        ensures kept { Keeps (blocks_remaining D.remaining self.old) (blocks_remaining D.remaining self.new) }
        ensures begun { OnOk result (IsBegun self.new) }
    {
        if let Stage::Waiting(slot) = &mut self.stage {
            let mut reader = BufReader::with_capacity(self.alloc, BLOCK, Slot { device: None })?;
            mem::swap(reader.get_mut(), slot);
            self.stage = Stage::Reading(reader);
        }
        Ok(())
    }
}

impl<D: Read> Blocks<D> {
    /// Gives bytes of the block, as many as it has left and as there is room for. Nothing is read: where there are
    /// none, `read` goes on. Whoever reads a few bytes at a time asks here first: a count has no error, whose 88 bytes
    /// would be cleared and copied at each read.
    #[inline(always)]
    pub fn take_held(&mut self, buf: &mut [u8]) -> usize
        ensures bound { result ≤ length buf.new }
        ensures bytes { Consumes (blocks_remaining D.remaining self.old) (blocks_remaining D.remaining self.new) (take result buf.new) }
    {
        let Stage::Reading(reader) = &mut self.stage else {
            return 0;
        };
        let held = reader.buffer();
        let count = held.len().min(buf.len());
        buf[..count].copy_from_slice(&held[..count]);
        reader.consume(count);
        count
    }
}

impl<D: Read + Drop> Read for Blocks<D> {
    ghost remaining = { blocks_remaining D.remaining };

    fn read(&mut self, buf: &mut [u8]) -> io::Result<usize> {
        self.begin()?;
        let Stage::Reading(reader) = &mut self.stage else {
            return Ok(0);
        };
        let count = reader.read(buf)?;
        if count == 0 && !buf.is_empty() {
            self.stage = Stage::Ended;
        }
        Ok(count)
    }
}

impl<D: Read + Drop> Blocks<D> {
    /// What is known of the bytes to come: what wasn't given yet of the block, and what is still to be read.
    pub fn gives_its_bytes(&self)
        ensures { ⟦<Blocks<D> as Read>⟧.remaining self.now ≡ blocks_remaining D.remaining self.now }
    {}
}
