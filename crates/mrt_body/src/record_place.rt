//! Where a record stands, and when it was written.

ghost use Rattle.std.specs.Prelude.{◌≡◌};
ghost use Rattle.mrt_body.specs.Units.{place_of, time_of};

use peer_units::Place;

/// The place of a record, and its time in seconds since 1970 UTC.
#[derive(Clone, Copy, Debug, PartialEq, Eq)]
pub(crate) struct RecordAt {
    pub(crate) file: usize,
    pub(crate) offset: u64,
    pub(crate) seconds: u32,
}

impl RecordAt {
    /// Returns the place of the record, or of the entry of this number in it.
    pub(crate) fn place(&self, entry: Option<u16>) -> Place
        ensures { result ≡ place_of self.now entry }
    {
        Place {
            file: self.file,
            offset: self.offset,
            entry,
        }
    }

    /// The record's time in microseconds since 1970 UTC.
    pub(crate) fn time(&self, microseconds: u32) -> u64
        ensures { result ≡ time_of self.now microseconds }
    {
        u64::from(self.seconds) * 1_000_000 + u64::from(microseconds)
    }
}
