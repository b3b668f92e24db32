//! AS path segments as bytes.

ghost use Rattle.std.specs.Prelude.{◌≡◌, ℕ, ◌≤◌, ◌*◌, List, length, drop, Ok, IfOk};
ghost use Rattle.byteorder.specs.Endian.{big_number};
ghost use Rattle.mrt_frame.specs.Fields.{Reads};
ghost use Rattle.bgp_update.specs.Results.{Gives};
ghost use Rattle.bgp_update.specs.Segments as segments_spec;
ghost use Rattle.bgp_update.specs.Segments.{number_len, numbers_in, segment_count_in, path_in, path_bytes, IsPath};
ghost use Rattle.bgp_update.specs.Paths.{PathSegment};

use crate::attr_error::AttrError;
use crate::path::{AsPath, Segment, SegmentKind};
use crate::width::Width;
use bgp_prefix::Memory;
use byteorder::{BigEndian, ByteOrder};
use mrt_frame::{Fault, byte_at, bytes_at};
use smallvec::SmallVec;
use std::alloc::Global;

/// An AS path segment whose numbers are still bytes.
#[derive(Drop)]
pub(crate) struct SegmentField<'a> {
    pub(crate) kind: SegmentKind,
    pub(crate) count: u8,
    pub(crate) octets: &'a [u8],
}

fn segment_kind_of(number: u8) -> Option<SegmentKind>
    ensures { result ≡ segments_spec.segment_kind_of number }
{
    match number {
        1 => Some(SegmentKind::AsSet),
        2 => Some(SegmentKind::AsSequence),
        3 => Some(SegmentKind::ConfedSequence),
        4 => Some(SegmentKind::ConfedSet),
        _ => None,
    }
}

fn number_len_of(width: Width) -> usize
    ensures { result ≡ number_len width }
{
    match width {
        Width::Two => 2,
        Width::Four => 4,
    }
}

#[tactic(auto, unfolding(crate::specs::Segments::segment_field_at))]
pub(crate) fn segment_field_at(
    bytes: &[u8],
    width: Width,
) -> Result<(SegmentField<'_>, &[u8]), Fault>
    ensures { Reads (λ x. (record { kind = x.0.kind; count = x.0.count; octets = x.0.octets.now }, x.1.now)) result
        (segments_spec.segment_field_at (number_len width) bytes.now) }
{
    let (number, rest) = byte_at(bytes, Fault::BadPath)?;
    let kind = segment_kind_of(number).ok_or(Fault::BadPath)?;
    let (count, rest) = byte_at(rest, Fault::BadPath)?;
    if count == 0 {
        return Err(Fault::BadPath);
    }
    let (octets, rest) = bytes_at(rest, count as usize * number_len_of(width), Fault::BadPath)?;
    let field = SegmentField {
        kind,
        count,
        octets,
    };
    Ok((field, rest))
}

/// Reads an AS number, and returns it with the bytes after it.
#[inline]
fn number_at(bytes: &[u8], width: Width) -> (u32, &[u8])
    requires { number_len width ≤ length bytes.now }
    ensures number { result.0 ≡ big_number (number_len width) bytes.now }
    ensures rest { result.1.now ≡ drop (number_len width) bytes.now }
{
    match width {
        Width::Two => (BigEndian::read_u16(bytes) as u32, &bytes[2..]),
        Width::Four => (BigEndian::read_u32(bytes), &bytes[4..]),
    }
}

/// Reads this many AS numbers.
fn numbers_of(
    alloc: Global,
    count: u8,
    octets: &[u8],
    width: Width,
) -> Result<SmallVec<u32, 8>, Memory>
    requires { count * number_len width ≤ length octets.now }
    ensures { IfOk result (λ v. v.items ≡ numbers_in (number_len width) count octets.now) }
{
    let mut numbers = SmallVec::with_capacity(alloc, count as usize)?;
    let mut rest = octets;
    for _ in 0..count {
        let (number, after) = number_at(rest, width);
        numbers.push(number)?;
        rest = after;
    }
    Ok(numbers)
}

/// Reads an AS path segment, and returns it with the bytes after it.
#[tactic(auto, unfolding(crate::specs::Segments::segment_at))]
fn segment_at(alloc: Global, bytes: &[u8], width: Width) -> Result<(Segment, &[u8]), AttrError>
    ensures { Gives (λ x. (x.0, x.1.now)) result (segments_spec.segment_at (number_len width) bytes.now) }
{
    match segment_field_at(bytes, width) {
        Ok((field, rest)) => {
            let numbers = numbers_of(alloc, field.count, field.octets, width)?;
            Ok((Segment::of_numbers(field.kind, numbers), rest))
        }
        Err(fault) => Err(AttrError::Bad(fault)),
    }
}

/// How many segments the bytes encode.
pub fn segment_count(bytes: &[u8], width: Width) -> Result<usize, Fault>
    ensures { Reads (λ n. n) result (segment_count_in (number_len width) bytes.now) }
{
    let mut count = 0;
    let mut rest = bytes;
    while !rest.is_empty() {
        let (_, after) = segment_field_at(rest, width)?;
        count += 1;
        rest = after;
    }
    Ok(count)
}

fn whole_path(alloc: Global, bytes: &[u8], width: Width) -> Result<AsPath, AttrError>
    ensures { Gives (λ path. path) result (path_in (number_len width) bytes.now) }
{
    let mut segments = Vec::with_capacity(alloc, segment_count(bytes, width)?)?;
    let mut rest = bytes;
    while !rest.is_empty() {
        match segment_at(alloc, rest, width) {
            Ok((segment, after)) => {
                segments.push(segment)?;
                rest = after;
            }
            Err(error) => return Err(error),
        }
    }
    Ok(AsPath::of_segments(segments))
}

/// Returns the path that the bytes encode.
pub fn read_path(alloc: Global, bytes: &[u8], width: Width) -> Result<AsPath, AttrError>
    ensures found { IfOk result (λ path. IsPath (number_len width) path ×
        (bytes.now ≡ path_bytes (number_len width) path)) }
    ensures only { (path : List PathSegment) → IsPath (number_len width) path →
        bytes.now ≡ path_bytes (number_len width) path → Gives (λ p. p) result (Ok path) }
    ensures exact { Gives (λ p. p) result (path_in (number_len width) bytes.now) }
{
    whole_path(alloc, bytes, width)
}
