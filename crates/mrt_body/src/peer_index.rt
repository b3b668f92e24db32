//! The PEER_INDEX_TABLE record (RFC 6396, 4.3.1).

ghost use Rattle.std.specs.Prelude.{◌≡◌};
ghost use Rattle.mrt_frame.specs.Fields.{Reads};
ghost use Rattle.bgp_update.specs.Results.{Gives};
ghost use Rattle.mrt_body.specs.Indexes as indexes;
ghost use Rattle.mrt_body.specs.Many.{many};

use bgp_update::{AttrError, Width};
use mrt_frame::{Fault, byte_at, bytes_at, u16_at, u32_at, u128_at};
use peer_units::{PeerAddr, PeerKey};
use std::alloc::Global;

/// Reads an address of sixteen or four bytes.
pub(crate) fn addr_at(bytes: &[u8], is_ipv6: bool) -> Result<(PeerAddr, &[u8]), Fault>
    ensures { Reads (λ x. (x.0, x.1.now)) result (indexes.addr_at is_ipv6 bytes.now) }
{
    if is_ipv6 {
        let (addr, rest) = u128_at(bytes, Fault::ShortRecord)?;
        Ok((PeerAddr::V6(addr), rest))
    } else {
        let (addr, rest) = u32_at(bytes, Fault::ShortRecord)?;
        Ok((PeerAddr::V4(addr), rest))
    }
}

/// Reads an AS number of two or four bytes.
pub(crate) fn asn_at(bytes: &[u8], width: Width) -> Result<(u32, &[u8]), Fault>
    ensures { Reads (λ x. (x.0, x.1.now)) result (indexes.asn_at width bytes.now) }
{
    match width {
        Width::Two => {
            let (asn, rest) = u16_at(bytes, Fault::ShortRecord)?;
            Ok((u32::from(asn), rest))
        }
        Width::Four => u32_at(bytes, Fault::ShortRecord),
    }
}

/// Whether bit 0x01 of a peer type is set: the address is an IPv6 address.
fn has_ipv6(flags: u8) -> bool
    ensures { result ≡ indexes.has_ipv6 flags }
{
    flags & 0x01 == 0x01
}

/// The size of the AS number in bytes: four if bit 0x02 of the peer type is set.
fn asn_width(flags: u8) -> Width
    ensures { result ≡ indexes.asn_width flags }
{
    if (flags >> 1) & 1 == 1 {
        Width::Four
    } else {
        Width::Two
    }
}

/// Reads a peer of the table, and returns it with the bytes after it.
#[tactic(auto, unfolding(crate::specs::Indexes::peer_at, crate::specs::Indexes::written_peer_at))]
fn peer_at(bytes: &[u8]) -> Result<(PeerKey, &[u8]), Fault>
    ensures { Reads (λ x. (x.0, x.1.now)) result (indexes.peer_at bytes.now) }
{
    let (flags, rest) = byte_at(bytes, Fault::ShortRecord)?;
    let (_, rest) = u32_at(rest, Fault::ShortRecord)?;
    let (addr, rest) = addr_at(rest, has_ipv6(flags))?;
    let (asn, rest) = asn_at(rest, asn_width(flags))?;
    Ok((PeerKey { asn, addr }, rest))
}

/// Reads this many peers, and nothing more.
fn peers_of(alloc: Global, count: u16, bytes: &[u8]) -> Result<Vec<PeerKey>, AttrError>
    ensures { Gives (λ v. v.items) result (many indexes.peer_at count bytes.now) }
{
    let mut peers = Vec::new(alloc);
    let mut rest = bytes;
    for _ in 0..count {
        match peer_at(rest) {
            Ok((peer, after)) => {
                peers.push(peer)?;
                rest = after;
            }
            Err(fault) => return Err(AttrError::Bad(fault)),
        }
    }
    if !rest.is_empty() {
        return Err(AttrError::Bad(Fault::TrailingBytes));
    }
    Ok(peers)
}

/// Returns how many peers the table in a body has, and the bytes after their count.
#[tactic(auto, unfolding(crate::specs::Indexes::peer_count_at, crate::specs::Indexes::index_head_at))]
fn peer_count_at(body: &[u8]) -> Result<(u16, &[u8]), Fault>
    ensures { Reads (λ x. (x.0, x.1.now)) result (indexes.peer_count_at body.now) }
{
    let (_, rest) = u32_at(body, Fault::ShortRecord)?;
    let (view_len, rest) = u16_at(rest, Fault::ShortRecord)?;
    let (_, rest) = bytes_at(rest, view_len as usize, Fault::ShortRecord)?;
    u16_at(rest, Fault::ShortRecord)
}

/// Returns the peers of the table that a body encodes.
pub(crate) fn peers_in(alloc: Global, body: &[u8]) -> Result<Vec<PeerKey>, AttrError>
    ensures { Gives (λ v. v.items) result (indexes.peers_in body.now) }
{
    match peer_count_at(body) {
        Ok((count, rest)) => peers_of(alloc, count, rest),
        Err(fault) => Err(AttrError::Bad(fault)),
    }
}
