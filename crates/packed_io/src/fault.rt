//! What is wrong with a packed file.

ghost use Rattle.std.specs.Prelude.{◌≡◌, ◌↔◌};
ghost use Rattle.packed_io.specs.Faults.{EndsTheData, effect_of, format_of_fault};

use crate::format::Format;
use crate::words::{words_of_bzip2, words_of_gzip};
use bzip2_reader::Cause;
use gzip_reader::Flaw;

/// What a fault does to reading.
#[derive(Clone, Copy, Debug, PartialEq, Eq, Drop)]
pub enum Effect {
    /// The data ends there: all that was unpacked before was given, and the last read gave `Ok(0)`.
    Ended,
    /// The data is damaged there, and reading failed.
    Failed,
    /// The device failed. Its own error was returned.
    DeviceFailed,
    /// There was no memory to go on.
    NoMemory,
}

/// What is wrong, in the form's own terms.
#[derive(Clone, Copy, Debug, PartialEq, Eq, Drop)]
pub enum PackedCause {
    Gzip(Flaw),
    Bzip2(Cause),
}

/// What is wrong with a packed file, and where.
#[derive(Clone, Copy, Debug, PartialEq, Eq, Drop)]
pub struct PackedFault {
    /// In bytes of the compressed file.
    pub offset: u64,
    pub cause: PackedCause,
}

impl PackedFault {
    pub fn format(&self) -> Format
        ensures { result ≡ format_of_fault self.now }
    {
        match self.cause {
            PackedCause::Gzip(_) => Format::Gzip,
            PackedCause::Bzip2(_) => Format::Bzip2,
        }
    }

    /// What it did to reading.
    pub fn effect(&self) -> Effect
        ensures effect { result ≡ effect_of self.now }
        ensures ended { result ≡ Effect.Ended ↔ EndsTheData (Some self.now) }
    {
        match self.cause {
            PackedCause::Gzip(Flaw::Device) => Effect::DeviceFailed,
            PackedCause::Gzip(flaw) if flaw.ends_the_data() => Effect::Ended,
            PackedCause::Gzip(_) => Effect::Failed,
            PackedCause::Bzip2(Cause::Device) => Effect::DeviceFailed,
            PackedCause::Bzip2(Cause::Memory) => Effect::NoMemory,
            PackedCause::Bzip2(_) => Effect::Ended,
        }
    }

    /// What is wrong, in words for whoever reads of it: `the data ends early`.
    pub fn words(&self) -> &'static str {
        match self.cause {
            PackedCause::Gzip(flaw) => words_of_gzip(flaw),
            PackedCause::Bzip2(cause) => words_of_bzip2(cause),
        }
    }
}
