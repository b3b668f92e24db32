//! The BGP4MP records (RFC 6396, 4.4), with extended timestamps (RFC 6396, 3).

ghost use Rattle.std.specs.Prelude.{◌≡◌};
ghost use Rattle.mrt_frame.specs.Fields.{Reads};
ghost use Rattle.mrt_body.specs.Bgp4mp as bgp4mp;

use crate::peer_index::{addr_at, asn_at};
use bgp_update::Width;
use mrt_frame::{Fault, u16_at, u32_at};
use peer_units::PeerKey;

/// Both ends of a session.
#[derive(Clone, Copy)]
pub(crate) struct SessionEnds {
    pub(crate) peer: PeerKey,
    pub(crate) local: PeerKey,
}

/// The peer of a session, and whether it is of another AS than the local end.
#[derive(Clone, Copy)]
pub(crate) struct SessionPeer {
    pub(crate) key: PeerKey,
    pub(crate) is_external: bool,
}

/// A state change: of which session, in which microsecond of its second, and its old and new state.
#[derive(Clone, Copy)]
pub(crate) struct StateChange {
    pub(crate) microseconds: u32,
    pub(crate) ends: SessionEnds,
    pub(crate) from: u16,
    pub(crate) to: u16,
}

/// Whether the address family is IPv6.
fn family_at(bytes: &[u8]) -> Result<(bool, &[u8]), Fault>
    ensures { Reads (λ x. (x.0, x.1.now)) result (bgp4mp.family_at bytes.now) }
{
    let (family, rest) = u16_at(bytes, Fault::ShortRecord)?;
    match family {
        1 => Ok((false, rest)),
        2 => Ok((true, rest)),
        _ => Err(Fault::BadFamily),
    }
}

/// Returns the microseconds of an extended timestamp, 0 for any other, and the bytes after them.
pub(crate) fn microseconds_at(body: &[u8], is_extended: bool) -> Result<(u32, &[u8]), Fault>
    ensures { Reads (λ x. (x.0, x.1.now)) result (bgp4mp.microseconds_at is_extended body.now) }
{
    if is_extended {
        u32_at(body, Fault::ShortRecord)
    } else {
        Ok((0, body))
    }
}

/// Returns the peer of a session, and the bytes after the session's fields.
#[tactic(auto, unfolding(crate::specs::Bgp4mp::session_peer_at, crate::specs::Bgp4mp::session_at))]
pub(crate) fn session_peer_at(bytes: &[u8], width: Width) -> Result<(SessionPeer, &[u8]), Fault>
    ensures { Reads (λ x. (record { key = x.0.key; external = x.0.is_external }, x.1.now)) result
        (bgp4mp.session_peer_at width bytes.now) }
{
    let (asn, rest) = asn_at(bytes, width)?;
    let (local_asn, rest) = asn_at(rest, width)?;
    let (_, rest) = u16_at(rest, Fault::ShortRecord)?;
    let (is_ipv6, rest) = family_at(rest)?;
    let (addr, rest) = addr_at(rest, is_ipv6)?;
    let (_, rest) = addr_at(rest, is_ipv6)?;
    let peer = SessionPeer {
        key: PeerKey { asn, addr },
        is_external: asn != local_asn,
    };
    Ok((peer, rest))
}

/// Returns both ends of a session, and the bytes after its fields.
#[tactic(auto, unfolding(crate::specs::Bgp4mp::session_ends_at, crate::specs::Bgp4mp::session_at))]
fn session_ends_at(bytes: &[u8], width: Width) -> Result<(SessionEnds, &[u8]), Fault>
    ensures { Reads (λ x. (x.0, x.1.now)) result (bgp4mp.session_ends_at width bytes.now) }
{
    let (peer_as, rest) = asn_at(bytes, width)?;
    let (local_as, rest) = asn_at(rest, width)?;
    let (_, rest) = u16_at(rest, Fault::ShortRecord)?;
    let (is_ipv6, rest) = family_at(rest)?;
    let (peer_addr, rest) = addr_at(rest, is_ipv6)?;
    let (local_addr, rest) = addr_at(rest, is_ipv6)?;
    let ends = SessionEnds {
        peer: PeerKey {
            asn: peer_as,
            addr: peer_addr,
        },
        local: PeerKey {
            asn: local_as,
            addr: local_addr,
        },
    };
    Ok((ends, rest))
}

/// Returns the old and the new state that the bytes encode.
#[tactic(auto, unfolding(crate::specs::Bgp4mp::states_in))]
fn states_in(bytes: &[u8]) -> Result<(u16, u16), Fault>
    ensures { Reads (λ s. s) result (bgp4mp.states_in bytes.now) }
{
    let (old, rest) = u16_at(bytes, Fault::ShortRecord)?;
    let (new, rest) = u16_at(rest, Fault::ShortRecord)?;
    if !rest.is_empty() {
        return Err(Fault::TrailingBytes);
    }
    Ok((old, new))
}

/// Returns the state change that a body encodes.
#[tactic(auto, unfolding(crate::specs::Bgp4mp::state_change_in))]
pub(crate) fn state_change_in(
    body: &[u8],
    is_extended: bool,
    width: Width,
) -> Result<StateChange, Fault>
    ensures { Reads (λ change. change) result (bgp4mp.state_change_in is_extended width body.now) }
{
    let (microseconds, rest) = microseconds_at(body, is_extended)?;
    let (ends, rest) = session_ends_at(rest, width)?;
    let (from, to) = states_in(rest)?;
    Ok(StateChange {
        microseconds,
        ends,
        from,
        to,
    })
}
