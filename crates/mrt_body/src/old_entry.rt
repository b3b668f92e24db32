//! The records of TABLE_DUMP (RFC 6396, 4.2): an entry of a peer's RIB each.

ghost use Rattle.std.specs.Prelude.{◌≤◌, ◌≡◌, IfOk, length};
ghost use Rattle.mrt_frame.specs.Cuts.{body_limit};
ghost use Rattle.mrt_frame.specs.Fields.{Reads};
ghost use Rattle.mrt_body.specs.OldEntries as old;
ghost use Rattle.mrt_body.specs.Units as units_spec;
ghost use Rattle.peer_units.specs.Payloads.{payload_bytes};

use crate::body_unit::{BodyEnd, BodyUnit};
use crate::peer_index::addr_at;
use crate::record_place::RecordAt;
use bgp_prefix::{Prefix, RouteKey, Sequence};
use bgp_update::{Rules, Unicast, Width, prefix_at};
use mrt_frame::{Fault, byte_at, bytes_at, u16_at};
use peer_units::{Payload, PeerKey, Unit};

/// How many bytes the view number and the sequence number have, which aren't read.
const NUMBERS_LEN: usize = 4;

/// How many bytes the status and the originated time have, which aren't read.
const TIMES_LEN: usize = 5;

/// Whether the addresses in a record of the family are IPv6's.
fn is_ipv6_family<F: Unicast>() -> bool
    ensures { result ≡ old.is_ipv6_family F.family }
{
    F::encoding().afi == 2
}

/// How many bytes an address has.
fn address_len(is_ipv6: bool) -> usize
    ensures { result ≡ old.address_len is_ipv6 }
{
    if is_ipv6 { 16 } else { 4 }
}

/// Reads the fields up to the prefix's length, and returns the prefix with the bytes after them.
#[tactic(auto, unfolding(crate::specs::OldEntries::read_old_prefix_at, crate::specs::OldEntries::old_prefix_at))]
fn old_prefix_at<F: Unicast>(bytes: &[u8]) -> Result<(Prefix<F>, &[u8]), Fault>
    ensures { Reads (λ x. (x.0, x.1.now)) result (old.read_old_prefix_at F.family bytes.now) }
{
    let (_, rest) = bytes_at(bytes, NUMBERS_LEN, Fault::ShortRecord)?;
    let len = address_len(is_ipv6_family::<F>());
    let (octets, rest) = bytes_at(rest, len, Fault::ShortRecord)?;
    let (len, rest) = byte_at(rest, Fault::ShortRecord)?;
    match prefix_at(len, octets) {
        Ok((prefix, _)) => Ok((prefix, rest)),
        Err(fault) => Err(fault),
    }
}

/// Reads the fields up to the peer's AS number, and returns the peer with the bytes after them.
#[tactic(auto, unfolding(crate::specs::OldEntries::read_old_peer_at, crate::specs::OldEntries::old_peer_at))]
fn old_peer_at(bytes: &[u8], is_ipv6: bool) -> Result<(PeerKey, &[u8]), Fault>
    ensures { Reads (λ x. (x.0, x.1.now)) result (old.read_old_peer_at is_ipv6 bytes.now) }
{
    let (_, rest) = bytes_at(bytes, TIMES_LEN, Fault::ShortRecord)?;
    let (addr, rest) = addr_at(rest, is_ipv6)?;
    let (asn, rest) = u16_at(rest, Fault::ShortRecord)?;
    let asn = u32::from(asn);
    Ok((PeerKey { asn, addr }, rest))
}

/// Returns the attributes that these bytes are, behind their length.
#[tactic(auto, unfolding(crate::specs::OldEntries::old_attributes_in))]
fn old_attributes_in(bytes: &[u8]) -> Result<&[u8], Fault>
    ensures { Reads (λ attributes. attributes.now) result (old.old_attributes_in bytes.now) }
{
    let (len, rest) = u16_at(bytes, Fault::ShortRecord)?;
    let (attributes, rest) = bytes_at(rest, len as usize, Fault::ShortRecord)?;
    if !rest.is_empty() {
        return Err(Fault::TrailingBytes);
    }
    Ok(attributes)
}

/// Returns the unit of a record, which is an entry without a number. Its attributes are the end of the body.
#[cold]
#[tactic(auto, unfolding(crate::specs::Units::old_entry_unit))]
pub(crate) fn old_entry_unit<F: Unicast>(
    rules: Rules<F>,
    at: RecordAt,
    body: Sequence<u8>,
) -> Result<BodyUnit<F>, Fault>
    requires { length body ≤ body_limit }
    ensures reads { Reads (λ unit. unit) result (units_spec.old_entry_unit rules at body) }
    ensures small { IfOk result (λ unit. length (payload_bytes unit.payload) ≤ length body) }
{
    let _kept = rules.kept();
    let bytes = body.as_slice();
    let (prefix, after) = match old_prefix_at::<F>(bytes) {
        Ok(read) => read,
        Err(fault) => return Err(fault),
    };
    let (peer, rest) = match old_peer_at(after, is_ipv6_family::<F>()) {
        Ok(read) => read,
        Err(fault) => return Err(fault),
    };
    let attributes = match old_attributes_in(rest) {
        Ok(attributes) => attributes,
        Err(fault) => return Err(fault),
    };
    let start = bytes.len() - attributes.len();
    Ok(Unit {
        place: at.place(None),
        time: at.time(0),
        peer,
        payload: Payload::Entry {
            rules: rules.with_entry_width(Width::Two),
            key: RouteKey { prefix, id: 0 },
            attrs: BodyEnd::new(body, start),
        },
    })
}
