//! The AS path of a packed route, segment by segment.

ghost use Rattle.std.specs.Prelude.{◌≡◌, ◌<◌, ◌≤◌, ◌*◌, [], ◌∷◌, length, slice_index, MatchOption};
ghost use Rattle.bgp_update.specs.Paths.{segment_origin, origin_as_of};
ghost use Rattle.std.specs.Prelude.{Some};
ghost use Rattle.bgp_update.specs.Packing.{spelled_path, IsSpelled};
ghost use Rattle.bgp_update.specs.Segments.{numbers_in};

use crate::path::SegmentKind;
use crate::segment::{SegmentField, segment_field_at};
use crate::width::Width;
use byteorder::{BigEndian, ByteOrder};
use std::marker::Model;

/// A path segment whose numbers are decoded one at a time.
#[derive(Drop)]
pub struct PackedSegment<'a> {
    kind: SegmentKind,
    count: u8,
    octets: &'a [u8],
}

impl<'a> Model for PackedSegment<'a> {
    ghost use Rattle.std.specs.Prelude.{◌≤◌, ◌*◌, length};
    ghost use Rattle.bgp_update.specs.Paths.{PathSegment};
    ghost use Rattle.bgp_update.specs.Segments.{numbers_in};

    ghost Value = { PathSegment };

    ghost view = { λ s. record { kind = s.kind; numbers = numbers_in 4 s.count s.octets.now } };

    ghost invariant = { λ s. s.count * 4 ≤ length s.octets.now };
}

/// The segments of a path from some segment on.
#[derive(Drop)]
pub struct PackedSegments<'a> {
    rest: &'a [u8],
}

impl<'a> Model for PackedSegments<'a> {
    ghost use Rattle.std.specs.Prelude.{List};
    ghost use Rattle.bgp_update.specs.Paths.{PathSegment};
    ghost use Rattle.bgp_update.specs.Packing.{spelled_path, IsSpelled};

    ghost Value = { List PathSegment };

    ghost view = { λ s. spelled_path s.rest.now };

    ghost invariant = { λ s. IsSpelled s.rest.now };
}

/// Returns the first segment of these bytes, and the bytes after it.
fn first_of(bytes: &[u8]) -> (PackedSegment<'_>, &[u8])
    requires spelled { IsSpelled bytes.now }
    requires some { 0 < length bytes.now }
    ensures first { spelled_path bytes.now ≡ result.0 ∷ spelled_path result.1.now }
    ensures rest { IsSpelled result.1.now }
{
    match segment_field_at(bytes, Width::Four) {
        Ok((field, rest)) => (segment_of(field), rest),
        Err(_) => unreachable!(),
    }
}

/// Returns the segment of a field that was read.
fn segment_of(field: SegmentField<'_>) -> PackedSegment<'_>
    requires { field.count * 4 ≤ length field.octets.now }
    ensures { result
        ≡ record { kind = field.entry.kind; numbers = numbers_in 4 field.entry.count field.entry.octets.now } }
{
    PackedSegment {
        kind: field.kind,
        count: field.count,
        octets: field.octets,
    }
}

impl<'a> PackedSegment<'a> {
    /// Its kind.
    pub fn kind(&self) -> SegmentKind
        ensures { result ≡ self.now.kind }
    {
        self.kind
    }

    /// How many numbers it has.
    #[tactic(auto, using(crate::proofs::PackedPaths::length_numbers_in))]
    pub fn len(&self) -> usize
        ensures { result ≡ length self.now.numbers }
    {
        self.count as usize
    }

    /// Its number at an index below `len`.
    #[tactic(auto, using(crate::proofs::PackedPaths::length_numbers_in, crate::proofs::PackedPaths::number_by_index))]
    pub fn number(&self, i: usize) -> u32
        requires { i < length self.now.numbers }
        ensures { result ≡ slice_index self.now.numbers i }
    {
        BigEndian::read_u32(&self.octets[4 * i..])
    }

    /// The last number of a sequence.
    #[tactic(auto, using(crate::proofs::PackedPaths::length_numbers_in))]
    pub(crate) fn origin(&self) -> Option<u32>
        ensures { result ≡ segment_origin (Some self.now) }
    {
        match self.kind {
            SegmentKind::AsSequence => {
                if self.count == 0 {
                    return None;
                }
                Some(self.number(self.count as usize - 1))
            }
            SegmentKind::AsSet | SegmentKind::ConfedSequence | SegmentKind::ConfedSet => None,
        }
    }
}

impl<'a> PackedSegments<'a> {
    /// Returns the segments of these bytes.
    pub(crate) fn of_bytes(rest: &'a [u8]) -> PackedSegments<'a>
        requires { IsSpelled rest.now }
        ensures { result ≡ spelled_path rest.now }
    {
        PackedSegments { rest }
    }

    /// Returns the next segment, and None after the last.
    #[tactic(auto, using(crate::proofs::PackedPaths::none_left))]
    pub fn next(&mut self) -> Option<PackedSegment<'a>>
        ensures { MatchOption result (self.old ≡ []) (λ s. self.old ≡ s ∷ self.new) }
    {
        if self.rest.is_empty() {
            return None;
        }
        let (first, rest) = first_of(self.rest);
        self.rest = rest;
        Some(first)
    }

    /// The origin AS.
    pub(crate) fn origin_as(self) -> Option<u32>
        ensures { result ≡ origin_as_of self.entry }
    {
        let mut segments = self;
        let mut origin = None;
        while let Some(segment) = segments.next() {
            origin = segment.origin();
        }
        origin
    }
}
