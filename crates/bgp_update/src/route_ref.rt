//! A packed route whose bytes are borrowed, and its fields.

ghost use Rattle.std.specs.Prelude.{◌≡◌, ◌↔◌, ◌+◌, ◌-◌, ◌≤◌, [], length, take, drop, option_map, IsTrue, MatchOption};
ghost use Rattle.std.specs.Option.{option_and_then};
ghost use Rattle.bgp_update.specs.Packing as packing;
ghost use Rattle.bgp_update.specs.Packing.{IsPacked, unpacked, hop_by, hop_bits, aggregator_by, flag_bit, part_bit};
ghost use Rattle.bgp_update.specs.Paths.{origin_as_of};
ghost use Rattle.bgp_update.specs.Segments.{path_bytes};
ghost use Rattle.bgp_update.specs.Equality.{route_eq};

use crate::kept_values::KeptValues;
use crate::next_hop::NextHop;
use crate::packed_path::PackedSegments;
use crate::route::{Aggregator, Origin};
use byteorder::{BigEndian, ByteOrder};
use std::marker::Model;

/// Reads the number at a position, if its flag is set.
fn number_by(bytes: &[u8], bit: u8, at: usize) -> Option<u32>
    requires { bit ≡ 1 → at + 4 ≤ length bytes.now }
    ensures { result ≡ packing.number_by bit (drop at bytes.now) }
{
    if bit == 1 {
        Some(BigEndian::read_u32(&bytes[at..]))
    } else {
        None
    }
}

/// How many bytes a next hop takes.
fn hop_len(code: u8) -> usize
    ensures { result ≡ packing.hop_len code }
{
    match code {
        0 => 0,
        1 => 4,
        2 => 16,
        _ => 32,
    }
}

/// Where the parts of a packed route begin. The next hop is behind the two bytes of flags.
#[derive(Clone, Copy)]
struct Starts {
    med: usize,
    local_pref: usize,
    aggregator: usize,
    path: usize,
}

/// Returns where the parts begin.
#[inline(always)]
#[tactic(auto, unfolding(crate::specs::Packing::starts_in))]
fn starts_in(bytes: &[u8]) -> Starts
    requires { 2 ≤ length bytes.now }
    ensures { result ≡ packing.starts_in bytes.now }
{
    let flags = bytes[0];
    let med = 2 + hop_len(flags / 8 % 4);
    let local_pref = med + 4 * (flags / 32 % 2) as usize;
    let aggregator = local_pref + 4 * (flags / 64 % 2) as usize;
    let path = aggregator + 8 * (flags / 128) as usize;
    Starts {
        med,
        local_pref,
        aggregator,
        path,
    }
}

/// Whether attributes are kept.
#[inline(always)]
fn keeps_any(bytes: &[u8]) -> bool
    requires { 2 ≤ length bytes.now }
    ensures { IsTrue result ↔ (part_bit 2 bytes.now ≡ 1) }
{
    bytes[1] / 2 % 2 == 1
}

/// The bytes of the attributes that are kept, from where the path ends.
fn kept_bytes(bytes: &[u8], start: usize) -> &[u8]
    requires long { 4 ≤ length bytes.now }
    requires within { start ≤ length bytes.now - 4 }
    ensures { result.now ≡ take (length bytes.now - 4 - start) (drop start bytes.now) }
{
    &bytes[start..bytes.len() - 4]
}

/// Where the path ends: in front of the attributes that are kept, if there are any.
#[inline(always)]
#[tactic(auto, unfolding(crate::specs::Packing::path_end))]
fn path_end(bytes: &[u8]) -> usize
    requires long { 2 ≤ length bytes.now }
    requires kept { part_bit 2 bytes.now ≡ 1 → 4 + packing.kept_len bytes.now ≤ length bytes.now }
    ensures { result ≡ packing.path_end bytes.now }
{
    if keeps_any(bytes) {
        let end = bytes.len() - 4;
        end - BigEndian::read_u32(&bytes[end..]) as usize
    } else {
        bytes.len()
    }
}

#[tactic(auto, unfolding(crate::specs::Packing::starts_in))]
fn next_hop_in(bytes: &[u8]) -> Option<NextHop>
    requires { (packing.starts_in bytes.now).path ≤ length bytes.now }
    ensures { result ≡ hop_by (hop_bits bytes.now) (drop 2 bytes.now) }
{
    match bytes[0] / 8 % 4 {
        0 => None,
        1 => Some(NextHop::V4(BigEndian::read_u32(&bytes[2..]))),
        2 => Some(NextHop::V6(BigEndian::read_u128(&bytes[2..]))),
        _ => Some(NextHop::V6Pair(
            BigEndian::read_u128(&bytes[2..]),
            BigEndian::read_u128(&bytes[18..]),
        )),
    }
}

#[tactic(auto, unfolding(crate::specs::Packing::starts_in))]
fn aggregator_in(bytes: &[u8]) -> Option<Aggregator>
    requires { (packing.starts_in bytes.now).path ≤ length bytes.now }
    ensures { result ≡ aggregator_by (flag_bit 128 bytes.now) (drop (packing.starts_in bytes.now).aggregator bytes.now) }
{
    if bytes[0] / 128 == 1 {
        let at = starts_in(bytes).aggregator;
        let asn = BigEndian::read_u32(&bytes[at..]);
        let addr = BigEndian::read_u32(&bytes[at + 4..]);
        Some(Aggregator { asn, addr })
    } else {
        None
    }
}

/// A route whose packed bytes are borrowed, which contracts see as the `Route`.
#[derive(Drop)]
pub struct RouteRef<'a> {
    bytes: &'a [u8],
}

impl<'a> Model for RouteRef<'a> {
    ghost use Rattle.bgp_update.specs.declared.route.Route.{Route};
    ghost use Rattle.bgp_update.specs.Packing.{unpacked, IsPacked};

    ghost Value = { Route };

    ghost view = { λ r. unpacked r.bytes.now };

    ghost invariant = { λ r. IsPacked r.bytes.now };
}

impl<'a> RouteRef<'a> {
    /// Returns the route of these bytes, which are those of a packed route.
    #[inline(always)]
    pub fn of_bytes(bytes: &'a [u8]) -> RouteRef<'a>
        requires { IsPacked bytes.now }
        ensures { result ≡ unpacked bytes.now }
    {
        RouteRef { bytes }
    }

    /// The bytes.
    #[inline(always)]
    pub fn as_bytes(&self) -> &'a [u8]
        ensures route { self.now ≡ unpacked result.now }
        ensures packed { IsPacked result.now }
    {
        self.bytes
    }

    /// The same route.
    #[inline(always)]
    pub fn same(&self) -> RouteRef<'a>
        ensures { result ≡ self.now }
    {
        RouteRef { bytes: self.bytes }
    }

    /// Whether the bytes are equal, as those of equal routes are, and only they.
    #[tactic(auto, using(crate::proofs::Packings::same_packed))]
    fn has_same_bytes(&self, other: &RouteRef<'_>) -> bool
        ensures { IsTrue result ↔ (self.now ≡ other.now) }
    {
        self.bytes == other.bytes
    }

    /// Whether the routes are equal.
    pub fn is_same(&self, other: &RouteRef<'_>) -> bool
        ensures test { result ≡ route_eq self.now other.now }
        ensures same { IsTrue result ↔ (self.now ≡ other.now) }
    {
        self.has_same_bytes(other)
    }

    /// The next hop: NEXT_HOP, or that of MP_REACH_NLRI (RFC 4271, 5.1.3; RFC 4760, 3).
    #[tactic(auto, using(crate::proofs::Packings::packed_room), unfolding(crate::specs::Packing::unpacked, crate::specs::Packing::starts_in))]
    pub fn next_hop(&self) -> Option<NextHop>
        ensures { result ≡ self.now.next_hop }
    {
        next_hop_in(self.bytes)
    }

    /// MULTI_EXIT_DISC (RFC 4271, 5.1.4).
    #[tactic(auto, using(crate::proofs::Packings::packed_room), unfolding(crate::specs::Packing::unpacked, crate::specs::Packing::starts_in))]
    pub fn med(&self) -> Option<u32>
        ensures { result ≡ self.now.med }
    {
        let bytes = self.bytes;
        number_by(bytes, bytes[0] / 32 % 2, starts_in(bytes).med)
    }

    /// LOCAL_PREF (RFC 4271, 5.1.5).
    #[tactic(auto, using(crate::proofs::Packings::packed_room), unfolding(crate::specs::Packing::unpacked, crate::specs::Packing::starts_in))]
    pub fn local_pref(&self) -> Option<u32>
        ensures { result ≡ self.now.local_pref }
    {
        let bytes = self.bytes;
        number_by(bytes, bytes[0] / 64 % 2, starts_in(bytes).local_pref)
    }

    /// AGGREGATOR (RFC 4271, 5.1.7).
    #[tactic(auto, using(crate::proofs::Packings::packed_room), unfolding(crate::specs::Packing::unpacked, crate::specs::Packing::starts_in))]
    pub fn aggregator(&self) -> Option<Aggregator>
        ensures { result ≡ self.now.aggregator }
    {
        aggregator_in(self.bytes)
    }

    /// ORIGIN (RFC 4271, 5.1.1).
    #[tactic(auto, using(crate::proofs::Packings::packed_room), unfolding(crate::specs::Packing::unpacked, crate::specs::Packing::starts_in))]
    pub fn origin(&self) -> Option<Origin>
        ensures { result ≡ self.now.origin }
    {
        match self.bytes[0] % 4 {
            0 => Some(Origin::Igp),
            1 => Some(Origin::Egp),
            2 => Some(Origin::Incomplete),
            _ => None,
        }
    }

    /// Whether ATOMIC_AGGREGATE is present (RFC 4271, 5.1.6).
    #[tactic(auto, using(crate::proofs::Packings::packed_room), unfolding(crate::specs::Packing::unpacked, crate::specs::Packing::starts_in))]
    pub fn atomic(&self) -> bool
        ensures { result ≡ self.now.atomic }
    {
        self.bytes[0] / 4 % 2 == 1
    }

    /// The segments of AS_PATH (RFC 4271, 5.1.2).
    #[tactic(auto, using(crate::proofs::Packings::packed_room, crate::proofs::Packings::packed_parts), unfolding(crate::specs::Packing::unpacked, crate::specs::Packing::starts_in))]
    pub fn path(&self) -> Option<PackedSegments<'a>>
        ensures { result ≡ self.now.path }
    {
        let bytes = self.bytes;
        if bytes[1] % 2 == 1 {
            Some(PackedSegments::of_bytes(&bytes[starts_in(bytes).path..path_end(bytes)]))
        } else {
            None
        }
    }

    /// The value of AS_PATH, with four-octet AS numbers.
    #[tactic(auto, using(crate::proofs::Packings::packed_room, crate::proofs::Packings::packed_parts), unfolding(crate::specs::Packing::unpacked, crate::specs::Packing::starts_in))]
    pub fn path_value(&self) -> Option<&'a [u8]>
        ensures { option_map (λ value. value.now) result ≡ option_map (path_bytes 4) self.now.path }
    {
        let bytes = self.bytes;
        if bytes[1] % 2 == 1 {
            Some(&bytes[starts_in(bytes).path..path_end(bytes)])
        } else {
            None
        }
    }

    /// The further attributes that it keeps, if there are any.
    #[tactic(auto, using(crate::proofs::Packings::packed_room), unfolding(crate::specs::Packing::starts_in))]
    pub fn kept(&self) -> Option<KeptValues<'a>>
        ensures { MatchOption result (self.now.kept ≡ []) (λ kept. self.now.kept ≡ kept) }
    {
        let bytes = self.bytes;
        if keeps_any(bytes) {
            Some(KeptValues::of_bytes(kept_bytes(bytes, path_end(bytes))))
        } else {
            None
        }
    }

    /// The origin AS (RFC 6811, 2).
    pub fn origin_as(&self) -> Option<u32>
        ensures { result ≡ option_and_then origin_as_of self.now.path }
    {
        self.path()?.origin_as()
    }
}
