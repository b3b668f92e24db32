//! Path attributes as they are written (RFC 4271, 4.3), one of each type.

ghost use Rattle.std.specs.Prelude.{◌≡◌, ◌/◌, ◌%◌, [], ◌∷◌, ◌++◌, OnOk, Some, IfSome, option_map};
ghost use Rattle.byteorder.specs.Endian.{big_bytes};
ghost use Rattle.bgp_update.specs.Attributes.{attribute_bytes};
ghost use Rattle.bgp_update.specs.declared.attribute_type.AttributeType.TheVariants as types;
ghost use Rattle.bgp_update.specs.KeptAttributes.{kept_code, value_kept};
ghost use Rattle.bgp_update.specs.KeptBytes.{IsShort};
ghost use Rattle.bgp_update.specs.Multiprotocol.{hop_part};
ghost use Rattle.bgp_update.specs.Equality.{origin_number};
ghost use Rattle.bgp_update.specs.Packing.{aggregator_bytes};
ghost use Rattle.mrt_writing.specs.RouteAttributes as routes;
ghost use Rattle.mrt_writing.specs.RouteAttributes.{attribute_of, value_bytes, atomic_value, own_hop, entry_reach};

use bgp_prefix::Memory;
use bgp_update::{Aggregator, AttributeType, KeptAttribute, NextHop, Origin, RouteRef};

/// The flags of an attribute that a route keeps where it is asked for.
fn kept_flags(attribute: KeptAttribute) -> u8
    ensures flags { result ≡ routes.kept_flags attribute }
    ensures plain { result / 16 % 2 ≡ 0 }
{
    match attribute {
        KeptAttribute::Communities => 192,
        KeptAttribute::ExtendedCommunities => 192,
        KeptAttribute::LargeCommunities => 192,
        KeptAttribute::OriginatorId => 128,
        KeptAttribute::ClusterList => 128,
        KeptAttribute::OnlyToCustomer => 192,
    }
}

/// The flags of an attribute of this type, without Extended Length.
fn type_flags(attribute_type: AttributeType) -> u8
    ensures flags { result ≡ routes.type_flags attribute_type }
    ensures plain { result / 16 % 2 ≡ 0 }
{
    match attribute_type {
        AttributeType::Origin => 64,
        AttributeType::AsPath => 64,
        AttributeType::NextHop => 64,
        AttributeType::MultiExitDisc => 128,
        AttributeType::LocalPref => 64,
        AttributeType::AtomicAggregate => 64,
        AttributeType::Aggregator => 192,
        AttributeType::MpReachNlri => 128,
        AttributeType::MpUnreachNlri => 128,
        AttributeType::As4Path => 192,
        AttributeType::As4Aggregator => 192,
        AttributeType::Kept(attribute) => kept_flags(attribute),
    }
}

/// Appends an attribute of this type, with a length of two bytes where the value has over 255.
pub(crate) fn push_attribute(
    out: &mut Vec<u8>,
    attribute_type: AttributeType,
    value: &[u8],
) -> Result<(), Memory>
    requires { IsShort value.now }
    ensures { OnOk result (out.new.items ≡ out.old.items ++ attribute_bytes (attribute_of attribute_type value.now)) }
{
    let flags = type_flags(attribute_type);
    let code = attribute_type.code();
    if value.len() > 255 {
        out.extend_from_slice(&[flags + 16, code])?;
        out.extend_from_slice(&(value.len() as u16).to_be_bytes())?;
    } else {
        out.extend_from_slice(&[flags, code, value.len() as u8])?;
    }
    out.extend_from_slice(value)?;
    Ok(())
}

/// Appends ORIGIN (RFC 4271, 5.1.1), if there is one.
pub(crate) fn push_origin(out: &mut Vec<u8>, origin: Option<Origin>) -> Result<(), Memory>
    ensures { OnOk result (out.new.items ≡ out.old.items
        ++ value_bytes types.Origin (option_map (λ o. origin_number o ∷ []) origin)) }
{
    match origin {
        None => Ok(()),
        Some(Origin::Igp) => push_attribute(out, AttributeType::Origin, &[0]),
        Some(Origin::Egp) => push_attribute(out, AttributeType::Origin, &[1]),
        Some(Origin::Incomplete) => push_attribute(out, AttributeType::Origin, &[2]),
    }
}

/// Appends MULTI_EXIT_DISC (RFC 4271, 5.1.4), if there is one.
pub(crate) fn push_med(out: &mut Vec<u8>, med: Option<u32>) -> Result<(), Memory>
    ensures { OnOk result (out.new.items ≡ out.old.items
        ++ value_bytes types.MultiExitDisc (option_map (big_bytes 4) med)) }
{
    match med {
        None => Ok(()),
        Some(n) => push_attribute(out, AttributeType::MultiExitDisc, &n.to_be_bytes()),
    }
}

/// Appends LOCAL_PREF (RFC 4271, 5.1.5), if there is one.
pub(crate) fn push_local_pref(out: &mut Vec<u8>, local_pref: Option<u32>) -> Result<(), Memory>
    ensures { OnOk result (out.new.items ≡ out.old.items
        ++ value_bytes types.LocalPref (option_map (big_bytes 4) local_pref)) }
{
    match local_pref {
        None => Ok(()),
        Some(n) => push_attribute(out, AttributeType::LocalPref, &n.to_be_bytes()),
    }
}

/// Appends ATOMIC_AGGREGATE (RFC 4271, 5.1.6), if it is there.
pub(crate) fn push_atomic(out: &mut Vec<u8>, atomic: bool) -> Result<(), Memory>
    ensures { OnOk result (out.new.items ≡ out.old.items ++ value_bytes types.AtomicAggregate (atomic_value atomic)) }
{
    if atomic {
        return push_attribute(out, AttributeType::AtomicAggregate, &[]);
    }
    Ok(())
}

/// Appends NEXT_HOP (RFC 4271, 5.1.3), where that is of the family and there is one, an IPv4 address.
pub(crate) fn push_own_hop(
    out: &mut Vec<u8>,
    own_fields: bool,
    hop: Option<NextHop>,
) -> Result<(), Memory>
    ensures { OnOk result (out.new.items ≡ out.old.items ++ value_bytes types.NextHop (own_hop own_fields hop)) }
{
    if !own_fields {
        return Ok(());
    }
    match hop {
        None => Ok(()),
        Some(NextHop::V4(a)) => push_attribute(out, AttributeType::NextHop, &a.to_be_bytes()),
        Some(NextHop::V6(a)) => push_attribute(out, AttributeType::NextHop, &a.to_be_bytes()),
        Some(NextHop::V6Pair(a, link)) => {
            let mut value: [u8; 32] = [0; 32];
            value[..16].copy_from_slice(&a.to_be_bytes());
            value[16..].copy_from_slice(&link.to_be_bytes());
            push_attribute(out, AttributeType::NextHop, &value)
        }
    }
}

/// Appends AGGREGATOR (RFC 4271, 5.1.7; RFC 6793, 3), if there is one.
pub(crate) fn push_aggregator(
    out: &mut Vec<u8>,
    aggregator: Option<Aggregator>,
) -> Result<(), Memory>
    ensures { OnOk result (out.new.items ≡ out.old.items
        ++ value_bytes types.Aggregator (option_map (λ a. aggregator_bytes (Some a)) aggregator)) }
{
    match aggregator {
        None => Ok(()),
        Some(a) => {
            let mut value: [u8; 8] = [0; 8];
            value[..4].copy_from_slice(&a.asn.to_be_bytes());
            value[4..].copy_from_slice(&a.addr.to_be_bytes());
            push_attribute(out, AttributeType::Aggregator, &value)
        }
    }
}

/// Appends MP_REACH_NLRI as a RIB entry has it (RFC 6396, 4.3.4), where NEXT_HOP isn't of the family.
pub(crate) fn push_entry_reach(
    out: &mut Vec<u8>,
    own_fields: bool,
    hop: Option<NextHop>,
) -> Result<(), Memory>
    ensures { OnOk result (out.new.items ≡ out.old.items
        ++ value_bytes types.MpReachNlri (entry_reach own_fields hop)) }
{
    if own_fields {
        return Ok(());
    }
    match hop {
        None => Ok(()),
        Some(NextHop::V4(a)) => {
            let mut value: [u8; 5] = [4; 5];
            value[1..].copy_from_slice(&a.to_be_bytes());
            push_attribute(out, AttributeType::MpReachNlri, &value)
        }
        Some(NextHop::V6(a)) => {
            let mut value: [u8; 17] = [16; 17];
            value[1..].copy_from_slice(&a.to_be_bytes());
            push_attribute(out, AttributeType::MpReachNlri, &value)
        }
        Some(NextHop::V6Pair(a, link)) => {
            let mut value: [u8; 33] = [32; 33];
            value[1..17].copy_from_slice(&a.to_be_bytes());
            value[17..].copy_from_slice(&link.to_be_bytes());
            push_attribute(out, AttributeType::MpReachNlri, &value)
        }
    }
}

/// Appends a next hop behind its length (RFC 4760, 3).
pub(crate) fn push_hop_part(out: &mut Vec<u8>, hop: NextHop) -> Result<(), Memory>
    ensures { OnOk result (out.new.items ≡ out.old.items ++ hop_part hop) }
{
    match hop {
        NextHop::V4(a) => {
            out.push(4)?;
            out.extend_from_slice(&a.to_be_bytes())?;
        }
        NextHop::V6(a) => {
            out.push(16)?;
            out.extend_from_slice(&a.to_be_bytes())?;
        }
        NextHop::V6Pair(a, link) => {
            out.push(32)?;
            out.extend_from_slice(&a.to_be_bytes())?;
            out.extend_from_slice(&link.to_be_bytes())?;
        }
    }
    Ok(())
}

/// Appends AS_PATH (RFC 4271, 5.1.2), if there is one, of these bytes.
pub(crate) fn push_path(out: &mut Vec<u8>, path: Option<&[u8]>) -> Result<(), Memory>
    requires { IfSome (option_map (λ p. p.now) path) IsShort }
    ensures { OnOk result (out.new.items ≡ out.old.items
        ++ value_bytes types.AsPath (option_map (λ p. p.now) path.entry)) }
{
    match path {
        None => Ok(()),
        Some(bytes) => push_attribute(out, AttributeType::AsPath, bytes),
    }
}

/// Appends an attribute that the route keeps, if it is there.
pub(crate) fn push_kept(
    out: &mut Vec<u8>,
    route: &RouteRef<'_>,
    attribute: KeptAttribute,
) -> Result<(), Memory>
    ensures { OnOk result (out.new.items ≡ out.old.items
        ++ value_bytes (types.Kept attribute) (value_kept (kept_code attribute) route.now.kept)) }
{
    let Some(kept) = route.kept() else {
        return Ok(());
    };
    match kept.value(attribute) {
        Some(value) => push_attribute(out, AttributeType::Kept(attribute), value),
        None => Ok(()),
    }
}
