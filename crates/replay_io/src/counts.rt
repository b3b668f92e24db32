//! What the replay reports for each dump, for `--summary`.

use bgp_prefix::Memory;
use std::alloc::Global;
use std::sync::atomic::{AtomicU64, AtomicUsize, Ordering};

/// What was counted of a dump.
#[derive(Drop)]
pub struct FileCounts {
    units: AtomicU64,
    refused: AtomicU64,
    damaged: AtomicU64,
}

/// What was counted for each dump, and which one is being read.
#[derive(Drop)]
pub struct Counts {
    files: Vec<FileCounts>,
    reading: AtomicUsize,
}

/// Counts one more. Only one thread counts.
fn count(number: &AtomicU64) {
    let more = number.load(Ordering::Relaxed).saturating_add(1);
    number.store(more, Ordering::Relaxed);
}

impl FileCounts {
    /// Its units that were dealt.
    pub fn units(&self) -> u64 {
        self.units.load(Ordering::Relaxed)
    }

    /// Its records that were refused.
    pub fn refused(&self) -> u64 {
        self.refused.load(Ordering::Relaxed)
    }

    /// Its units that are damaged.
    pub fn damaged(&self) -> u64 {
        self.damaged.load(Ordering::Relaxed)
    }
}

impl Counts {
    /// Makes the counts of this many dumps.
    pub fn new(alloc: Global, files: usize) -> Result<Counts, Memory> {
        let mut counts = Vec::new(alloc);
        for _ in 0..files {
            counts.push(FileCounts {
                units: AtomicU64::new(0),
                refused: AtomicU64::new(0),
                damaged: AtomicU64::new(0),
            })?;
        }
        Ok(Counts {
            files: counts,
            reading: AtomicUsize::new(0),
        })
    }

    /// What was counted for a dump, by its index from 0.
    pub fn of(&self, file: usize) -> Option<&FileCounts> {
        self.files.get(file)
    }

    /// Records that the dump at this index is read from now on.
    pub fn begin(&self, file: usize) {
        self.reading.store(file, Ordering::Relaxed);
    }

    /// Counts a unit of the dump being read: units are dealt before more is read.
    pub fn add_unit(&self) {
        if let Some(counts) = self.of(self.reading.load(Ordering::Relaxed)) {
            count(&counts.units);
        }
    }

    /// Counts a fault of the dump at this index.
    pub fn add_fault(&self, file: usize, is_refused: bool) {
        if let Some(counts) = self.of(file) {
            count(if is_refused {
                &counts.refused
            } else {
                &counts.damaged
            });
        }
    }
}
