//! Keys in messages: prefixes, each preceded by a path identifier if ADD-PATH is in force.

ghost use Rattle.std.specs.Prelude.{◌≡◌, ℕ, ◌≤◌, length, Ok, Some, OnOk, IfErr};
ghost use Rattle.std.specs.Int.{div_ceil};
ghost use Rattle.mrt_frame.specs.Fields.{Reads};
ghost use Rattle.bgp_update.specs.Results.{Fails};
ghost use Rattle.bgp_update.specs.Decoded.{Appends, IsGrown};
ghost use Rattle.bgp_update.specs.Families.{form_of};
ghost use Rattle.bgp_update.specs.Keys as keys_spec;
ghost use Rattle.bgp_update.specs.Keys.{route_keys_in};

use crate::attr_error::AttrError;
use crate::octets::leading_octets_number;
use crate::unicast::Unicast;
use bgp_prefix::{Prefix, RouteKey};
use mrt_frame::{Fault, byte_at, bytes_at};

/// The bytes of a prefix of this length.
#[inline]
fn octets_at<F: Unicast>(len: u8, bytes: &[u8]) -> Result<(&[u8], &[u8]), Fault>
    ensures { Reads (λ x. (x.0.now, x.1.now)) result (keys_spec.octets_at F.family.width len bytes.now) }
{
    if len > F::WIDTH {
        return Err(Fault::BadPrefix);
    }
    bytes_at(bytes, len.div_ceil(8) as usize, Fault::BadPrefix)
}

/// Returns the prefix of this length, at most the family's width, whose first bytes these are.
#[inline]
fn prefix_of<F: Unicast>(len: u8, octets: &[u8]) -> Option<Prefix<F>>
    requires { length octets.now ≤ div_ceil F.family.width 8 }
    ensures { len ≤ F.family.width → result ≡ Some (keys_spec.prefix_of len octets.now) }
{
    Prefix::new(F::of_octets(octets), len)
}

/// Reads the prefix of this length in bits at the start of the bytes, and returns it with the bytes after it (RFC 4271,
/// 4.3). Bits past the length may be anything, and are set to 0. `BadPrefix` if the length is over the width of the
/// family's addresses, or if fewer bytes are left than hold that many bits.
#[inline]
pub fn prefix_at<F: Unicast>(len: u8, bytes: &[u8]) -> Result<(Prefix<F>, &[u8]), Fault>
    ensures { Reads (λ x. (x.0, x.1.now)) result (keys_spec.prefix_at F.family.width len bytes.now) }
{
    let (octets, rest) = octets_at::<F>(len, bytes)?;
    let prefix = prefix_of(len, octets).ok_or(Fault::BadPrefix)?;
    Ok((prefix, rest))
}

/// Reads a key, and returns it with the bytes after it.
#[tactic(auto, using(crate::proofs::KeyParts::key_parts))]
#[inline]
pub fn key_at<F: Unicast>(
    bytes: &[u8],
    add_path: bool,
) -> Result<(RouteKey<Prefix<F>>, &[u8]), Fault>
    ensures { Reads (λ x. (x.0, x.1.now)) result (keys_spec.key_at (form_of F.family add_path) bytes.now) }
{
    let identifier_len = if add_path { 4 } else { 0 };
    let (identifier, rest) = bytes_at(bytes, identifier_len, Fault::BadPrefix)?;
    let (len, rest) = byte_at(rest, Fault::BadPrefix)?;
    match prefix_at(len, rest) {
        Ok((prefix, rest)) => {
            let id = leading_octets_number(identifier);
            Ok((RouteKey { prefix, id }, rest))
        }
        Err(fault) => Err(fault),
    }
}

/// Appends the keys of a field to other ones.
pub fn append_keys<F: Unicast>(
    keys: &mut Vec<RouteKey<Prefix<F>>>,
    bytes: &[u8],
    add_path: bool,
) -> Result<(), AttrError>
    ensures appends { OnOk result
        (Appends keys.old.items keys.new.items (route_keys_in (form_of F.family add_path) bytes.now)) }
    ensures fault { IfErr result (λ e. Fails e (route_keys_in (form_of F.family add_path) bytes.now)) }
    ensures grown { IsGrown keys.old.items keys.new.items }
{
    let mut rest = bytes;
    while !rest.is_empty() {
        match key_at(rest, add_path) {
            Ok((key, after)) => {
                keys.push(key)?;
                rest = after;
            }
            Err(fault) => return Err(AttrError::Bad(fault)),
        }
    }
    Ok(())
}
