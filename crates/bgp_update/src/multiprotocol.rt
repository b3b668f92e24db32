//! MP_REACH_NLRI and MP_UNREACH_NLRI, read for one family's unicast routes only.

ghost use Rattle.std.specs.Prelude.{◌≡◌, ◌≤◌, Some, IfErr, IfOk, OnOk, length, option_map};
ghost use Rattle.mrt_frame.specs.Fields.{Reads};
ghost use Rattle.bgp_update.specs.Results.{Fails};
ghost use Rattle.bgp_update.specs.Decoded.{Appends, AppendsReached, IsGrown};
ghost use Rattle.bgp_update.specs.Multiprotocol as multiprotocol;
ghost use Rattle.bgp_update.specs.Multiprotocol.{entry_hop_in, reached_keys, unreached_keys};

use crate::attr_error::AttrError;
use crate::attribute_type::AttributeType;
use crate::key::append_keys;
use crate::unicast::Unicast;
use crate::written_hop::WrittenHop;
use bgp_prefix::{Prefix, RouteKey};
use byteorder::{BigEndian, ByteOrder};
use mrt_frame::{Fault, byte_at, bytes_at};

/// Whether a value is for the family's AFI and SAFI 1.
fn is_unicast<F: Unicast>(value: &[u8]) -> bool
    requires { 3 ≤ length value.now }
    ensures { result ≡ multiprotocol.is_unicast F.family value.now }
{
    BigEndian::read_u16(value) == F::encoding().afi && value[2] == 1
}

/// Reads a next hop after its length, and returns it with the bytes after it.
#[tactic(auto, unfolding(crate::specs::Multiprotocol::hop_at))]
fn hop_at(bytes: &[u8]) -> Result<(WrittenHop<'_>, &[u8]), Fault>
    ensures { Reads (λ x. (x.0, x.1.now)) result (multiprotocol.hop_at bytes.now) }
{
    let bad = AttributeType::MpReachNlri.fault();
    let (len, rest) = byte_at(bytes, bad)?;
    if len != 4 && len != 16 && len != 32 {
        return Err(bad);
    }
    let (hop, rest) = bytes_at(rest, len as usize, bad)?;
    Ok((WrittenHop::of_bytes(hop), rest))
}

/// Reads a next hop after its length and, after a reserved byte, the field of the keys.
#[tactic(auto, unfolding(crate::specs::Multiprotocol::reach_at))]
fn reach_at(bytes: &[u8]) -> Result<(WrittenHop<'_>, &[u8]), Fault>
    ensures { Reads (λ x. (x.0, x.1.now)) result (multiprotocol.reach_at bytes.now) }
{
    let (hop, rest) = hop_at(bytes)?;
    let (_, keys) = byte_at(rest, AttributeType::MpReachNlri.fault())?;
    Ok((hop, keys))
}

/// Returns the next hop of a RIB entry's MP_REACH_NLRI: alone after its length (RFC 6396, 4.3.4), or within the whole
/// attribute, which begins with a byte 0 and whose rest isn't read. None for another family.
#[tactic(auto, unfolding(crate::specs::Multiprotocol::entry_hop_in))]
pub fn entry_hop<F: Unicast>(value: &[u8]) -> Result<Option<WrittenHop<'_>>, Fault>
    ensures { Reads (λ hop. hop) result (entry_hop_in F.family value.now) }
{
    let bad = AttributeType::MpReachNlri.fault();
    let (first, _) = byte_at(value, bad)?;
    if first != 0 {
        let (hop, rest) = hop_at(value)?;
        if !rest.is_empty() {
            return Err(bad);
        }
        return Ok(Some(hop));
    }
    if value.len() < 3 {
        return Err(bad);
    }
    if !is_unicast::<F>(value) {
        return Ok(None);
    }
    let (hop, _) = hop_at(&value[3..])?;
    Ok(Some(hop))
}

/// Returns the next hop of a RIB entry's MP_REACH_NLRI, if it is present.
pub fn entry_hop_value<F: Unicast>(value: Option<&[u8]>) -> Option<WrittenHop<'_>>
    ensures { result ≡ multiprotocol.entry_hop F.family (option_map (λ v. v.now) value.entry) }
{
    match entry_hop::<F>(value?) {
        Ok(hop) => hop,
        Err(_) => None,
    }
}

/// Returns the next hop and the field of keys of an MP_REACH_NLRI; none for another family.
#[tactic(auto, unfolding(crate::specs::Multiprotocol::reach_in))]
pub fn reach_in<F: Unicast>(value: &[u8]) -> Result<Option<(WrittenHop<'_>, &[u8])>, Fault>
    ensures { Reads (λ o. option_map (λ r. (r.0, r.1.now)) o) result (multiprotocol.reach_in F.family value.now) }
{
    if value.len() < 3 {
        return Err(AttributeType::MpReachNlri.fault());
    }
    if !is_unicast::<F>(value) {
        return Ok(None);
    }
    let reach = reach_at(&value[3..])?;
    Ok(Some(reach))
}

/// Returns the field of keys of an MP_UNREACH_NLRI; none for another family.
#[tactic(auto, unfolding(crate::specs::Multiprotocol::unreach_in))]
pub fn unreach_in<F: Unicast>(value: &[u8]) -> Result<Option<&[u8]>, Fault>
    ensures { Reads (λ o. option_map (λ r. r.now) o) result (multiprotocol.unreach_in F.family value.now) }
{
    if value.len() < 3 {
        return Err(AttributeType::MpUnreachNlri.fault());
    }
    if !is_unicast::<F>(value) {
        return Ok(None);
    }
    Ok(Some(&value[3..]))
}

/// Appends the keys in MP_REACH_NLRI, if it is present, to other ones, and returns its next hop.
#[tactic(auto, unfolding(crate::specs::Multiprotocol::reached_keys, crate::specs::Keys::route_keys_in))]
pub fn append_reached<'a, F: Unicast>(
    keys: &mut Vec<RouteKey<Prefix<F>>>,
    value: Option<&'a [u8]>,
    add_path: bool,
) -> Result<Option<WrittenHop<'a>>, AttrError>
    ensures appends { IfOk result
        (λ hop. AppendsReached keys.old.items keys.new.items hop
        (reached_keys F.family add_path (option_map (λ v. v.now) value.entry))) }
    ensures fault { IfErr result
        (λ e. Fails e (reached_keys F.family add_path (option_map (λ v. v.now) value.entry))) }
    ensures grown { IsGrown keys.old.items keys.new.items }
{
    let Some(value) = value else {
        return Ok(None);
    };
    match reach_in::<F>(value) {
        Ok(Some((hop, field))) => {
            append_keys(keys, field, add_path)?;
            Ok(Some(hop))
        }
        Ok(None) => Ok(None),
        Err(fault) => Err(AttrError::Bad(fault)),
    }
}

/// Appends the keys in MP_UNREACH_NLRI, if it is present, to other ones.
#[tactic(auto, unfolding(crate::specs::Multiprotocol::unreached_keys, crate::specs::Keys::route_keys_in))]
pub fn append_unreached<F: Unicast>(
    keys: &mut Vec<RouteKey<Prefix<F>>>,
    value: Option<&[u8]>,
    add_path: bool,
) -> Result<(), AttrError>
    ensures appends { OnOk result
        (Appends keys.old.items keys.new.items
        (unreached_keys F.family add_path (option_map (λ v. v.now) value.entry))) }
    ensures fault { IfErr result
        (λ e. Fails e (unreached_keys F.family add_path (option_map (λ v. v.now) value.entry))) }
    ensures grown { IsGrown keys.old.items keys.new.items }
{
    let Some(value) = value else {
        return Ok(());
    };
    match unreach_in::<F>(value) {
        Ok(Some(field)) => append_keys(keys, field, add_path),
        Ok(None) => Ok(()),
        Err(fault) => Err(AttrError::Bad(fault)),
    }
}
