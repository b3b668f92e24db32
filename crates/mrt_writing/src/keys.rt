//! How prefixes and keys are written (RFC 4271, 4.3; RFC 7911, 3).

ghost use Rattle.std.specs.Prelude.{◌≡◌, ◌++◌, ◌∷◌, OnOk};
ghost use Rattle.bgp_update.specs.Keys.{key_bytes};
ghost use Rattle.mrt_writing.specs.Prefixes.{prefix_octets, written_key};

use bgp_prefix::{Ipv6, Memory, Prefix, RouteKey};
use bgp_update::Unicast;

/// A family whose addresses are written.
pub trait WideAddress: Unicast {
    ghost use Rattle.std.specs.Prelude.{◌≡◌};

    /// The address as a number of 128 bits, of which those past the family's width are 0.
    fn wide(self) -> u128
        ensures { result ≡ Self.bits self };
}

impl WideAddress for u32 {
    #[inline(always)]
    fn wide(self) -> u128 {
        (self as u128) << 96
    }
}

impl WideAddress for Ipv6 {
    #[inline(always)]
    fn wide(self) -> u128 {
        self.number()
    }
}

/// Appends a prefix: its length, and as many leading bytes of its address as hold so many bits (RFC 4271, 4.3).
#[tactic(auto, unfolding(crate::specs::Prefixes::prefix_octets))]
pub(crate) fn push_prefix<F: WideAddress>(
    out: &mut Vec<u8>,
    prefix: &Prefix<F>,
) -> Result<(), Memory>
    ensures { OnOk result (out.new.items ≡ out.old.items ++ (prefix.now.len ∷ prefix_octets prefix.now)) }
{
    let octets = prefix.addr().wide().to_be_bytes();
    out.push(prefix.len())?;
    out.extend_from_slice(&octets[..prefix.len().div_ceil(8) as usize])?;
    Ok(())
}

/// Appends a key: its prefix, behind its identifier where there is one (RFC 7911, 3).
pub(crate) fn push_key<F: WideAddress>(
    out: &mut Vec<u8>,
    add_path: bool,
    key: &RouteKey<Prefix<F>>,
) -> Result<(), Memory>
    ensures { OnOk result (out.new.items ≡ out.old.items ++ key_bytes (written_key add_path key.now)) }
{
    if add_path {
        out.extend_from_slice(&key.id.to_be_bytes())?;
    }
    push_prefix(out, &key.prefix)
}
