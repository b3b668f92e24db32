//! How RIB records are written (RFC 6396, 4.3.2 and 4.3.4; RFC 8050, 4).

ghost use Rattle.std.specs.Prelude.{◌≡◌, ◌^◌, ◌<◌, ◌++◌, length, OnOk};
ghost use Rattle.mrt_body.specs.RibRecords.{entry_bytes};
ghost use Rattle.mrt_writing.specs.RibRecords.{rib_head};

use crate::keys::{WideAddress, push_prefix};
use bgp_prefix::{Memory, Prefix};

/// Appends what stands before so many entries of a prefix.
pub fn push_rib_head<F: WideAddress>(
    out: &mut Vec<u8>,
    sequence: u32,
    prefix: &Prefix<F>,
    count: u16,
) -> Result<(), Memory>
    ensures { OnOk result (out.new.items ≡ out.old.items ++ rib_head sequence prefix.now count) }
{
    out.extend_from_slice(&sequence.to_be_bytes())?;
    push_prefix(out, prefix)?;
    out.extend_from_slice(&count.to_be_bytes())?;
    Ok(())
}

/// Appends an entry of the peer of this number in the index table, with these attributes. The time is in seconds since
/// 1970 UTC. The identifier is written in records with ADD-PATH alone.
pub fn push_rib_entry(
    out: &mut Vec<u8>,
    add_path: bool,
    peer: u16,
    originated: u32,
    identifier: u32,
    attributes: &[u8],
) -> Result<(), Memory>
    requires { length attributes.now < 256 ^ 2 }
    ensures { OnOk result (out.new.items ≡ out.old.items ++ entry_bytes add_path (record {
      peer = peer;
      originated = originated;
      identifier = identifier;
      attributes = attributes.now;
    })) }
{
    out.extend_from_slice(&peer.to_be_bytes())?;
    out.extend_from_slice(&originated.to_be_bytes())?;
    if add_path {
        out.extend_from_slice(&identifier.to_be_bytes())?;
    }
    out.extend_from_slice(&(attributes.len() as u16).to_be_bytes())?;
    out.extend_from_slice(attributes)?;
    Ok(())
}
