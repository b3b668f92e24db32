//! Next hops as they are written.

ghost use Rattle.std.specs.Prelude.{◌≡◌, ◌≤◌, ◌<◌, IsTrue, Some, length};
ghost use Rattle.bgp_update.specs.Multiprotocol.{FitsHop, is_hop_len, next_hop_of};
ghost use Rattle.bgp_update.specs.Packing.{packed_hop_bytes, hop_code};

use crate::next_hop::NextHop;
use byteorder::{BigEndian, ByteOrder};
use std::marker::Model;

/// A next hop as a message or a RIB entry has it: the bytes of an IPv4 address, of an IPv6 address, or of a global and
/// a link-local IPv6 address (RFC 2545, 3; RFC 8950, 3).
#[derive(Drop)]
pub struct WrittenHop<'a> {
    bytes: &'a [u8],
}

impl<'a> Model for WrittenHop<'a> {
    ghost use Rattle.bgp_update.specs.declared.next_hop.NextHop.{NextHop};
    ghost use Rattle.bgp_update.specs.Multiprotocol.{next_hop_of};
    ghost use Rattle.bgp_update.specs.Packing.{IsWrittenHop};

    ghost Value = { NextHop };

    ghost view = { λ h. next_hop_of h.bytes.now };

    ghost invariant = { λ h. IsWrittenHop h.bytes.now };
}

impl<'a> WrittenHop<'a> {
    /// Returns the next hop of these bytes.
    #[inline(always)]
    pub fn of_bytes(bytes: &'a [u8]) -> WrittenHop<'a>
        requires { IsTrue (is_hop_len (length bytes.now)) }
        ensures { result ≡ next_hop_of bytes.now }
    {
        WrittenHop { bytes }
    }

    /// Its bytes.
    #[inline(always)]
    pub fn as_bytes(&self) -> &'a [u8]
        ensures bytes { result.now ≡ packed_hop_bytes (Some self.now) }
        ensures few { length result.now ≤ 32 }
        ensures fits { FitsHop self.now }
    {
        self.bytes
    }

    /// The number by which its kind is packed.
    #[inline(always)]
    #[tactic(auto, unfolding(crate::specs::Multiprotocol::next_hop_of))]
    pub fn code(&self) -> u8
        ensures code { result ≡ hop_code (Some self.now) }
        ensures few { result < 4 }
    {
        if self.bytes.len() == 4 {
            1
        } else if self.bytes.len() == 16 {
            2
        } else {
            3
        }
    }

    /// The next hop in numbers.
    #[tactic(auto, unfolding(crate::specs::Multiprotocol::next_hop_of))]
    pub fn next_hop(&self) -> NextHop
        ensures { result ≡ self.now }
    {
        let hop = self.bytes;
        if hop.len() == 4 {
            NextHop::V4(BigEndian::read_u32(hop))
        } else if hop.len() == 16 {
            NextHop::V6(BigEndian::read_u128(hop))
        } else {
            NextHop::V6Pair(BigEndian::read_u128(hop), BigEndian::read_u128(&hop[16..]))
        }
    }
}

/// Returns the next hop in numbers, if there is one.
pub fn next_hop_of(hop: &Option<WrittenHop<'_>>) -> Option<NextHop>
    ensures { result ≡ hop.now }
{
    match hop {
        Some(hop) => Some(hop.next_hop()),
        None => None,
    }
}
