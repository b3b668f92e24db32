//! How UPDATEs of peers are written (RFC 4271, 4.3; RFC 6396, 4.4.2 and 4.4.3).

ghost use Rattle.std.specs.Prelude.{◌≡◌, ◌+◌, ◌^◌, ◌<◌, ◌++◌, length, OnOk};
ghost use Rattle.mrt_writing.specs.Updates.{message_body, update_of};

use crate::peers::push_session;
use bgp_prefix::Memory;
use peer_units::PeerKey;

/// The marker of a message (RFC 4271, 4.1).
const MARKER: [u8; 16] = [255; 16];

/// Appends the body of a record of an UPDATE of a peer that has these attributes alone.
pub fn push_update(out: &mut Vec<u8>, peer: &PeerKey, attributes: &[u8]) -> Result<(), Memory>
    requires { 23 + length attributes.now < 256 ^ 2 }
    ensures { OnOk result (out.new.items ≡ out.old.items ++ message_body peer.now (update_of attributes.now)) }
{
    push_session(out, peer)?;
    out.extend_from_slice(&MARKER)?;
    out.extend_from_slice(&((23 + attributes.len()) as u16).to_be_bytes())?;
    out.extend_from_slice(&[2, 0, 0])?;
    out.extend_from_slice(&(attributes.len() as u16).to_be_bytes())?;
    out.extend_from_slice(attributes)?;
    Ok(())
}
