//! The header of a BGP message (RFC 4271, 4.1).

ghost use Rattle.std.specs.Prelude.{◌≡◌, ◌≤◌, ◌==◌, ℕ, length, take};
ghost use Rattle.std.specs.List.{list_all};
ghost use Rattle.mrt_frame.specs.Fields.{Reads};
ghost use Rattle.peer_units.specs.Events as events;

use byteorder::{BigEndian, ByteOrder};
use mrt_frame::Fault;

/// How many bytes the header of a message has: marker 16, length 2, type 1.
const HEADER_LEN: usize = 19;

/// Whether a message begins with sixteen bytes FF.
fn has_marker(bytes: &[u8]) -> bool
    requires { 16 ≤ length bytes.now }
    ensures { result ≡ list_all (λ b. b == 255) (take 16 bytes.now) }
{
    bytes[..16].iter().all(|b| *b == 0xFF)
}

/// Returns the type of a message and the bytes after its header.
#[inline(always)]
#[tactic(auto, unfolding(crate::specs::Events::message_in))]
pub(crate) fn message_in(bytes: &[u8]) -> Result<(u8, &[u8]), Fault>
    ensures { Reads (λ m. (m.0, m.1.now)) result (events.message_in bytes.now) }
{
    if bytes.len() < HEADER_LEN {
        return Err(Fault::BadLength);
    }
    if !has_marker(bytes) {
        return Err(Fault::BadMarker);
    }
    if BigEndian::read_u16(&bytes[16..]) as usize != bytes.len() {
        return Err(Fault::BadLength);
    }
    Ok((bytes[18], &bytes[HEADER_LEN..]))
}
