//! The path attributes of a route, in the order of their type codes: as a RIB entry has them (RFC 6396, 4.3.4), and as
//! an UPDATE has them that reaches one key (RFC 4760, 3).

ghost use Rattle.std.specs.Prelude.{◌≡◌, ◌↔◌, ◌^◌, ◌<◌, ◌≤◌, ◌++◌, take, drop, length, OnOk, IfOk, IfSome, IsTrue, option_map};
ghost use Rattle.std.specs.List.{flat_map};
ghost use Rattle.bgp_update.specs.Attributes.{attributes_bytes};
ghost use Rattle.bgp_update.specs.KeptBytes.{IsShort};
ghost use Rattle.bgp_update.specs.Segments.{path_bytes};
ghost use Rattle.mrt_writing.specs.RibRecords.{entry_field};
ghost use Rattle.bgp_update.specs.declared.attribute_type.AttributeType.TheVariants as types;
ghost use Rattle.mrt_writing.specs.RouteAttributes.{AppendsWithin, attributes_by, entry_most, own_hop, reach_by, route_values, types_in_order, value_bytes};
ghost use Rattle.mrt_writing.specs.Updates.{reach_value, update_field, update_most};

use crate::attributes::{
    push_aggregator, push_atomic, push_attribute, push_entry_reach, push_hop_part, push_kept,
    push_local_pref, push_med, push_origin, push_own_hop, push_path,
};
use crate::keys::{WideAddress, push_key};
use bgp_prefix::{Memory, Prefix, RouteKey};
use bgp_update::{AttributeType, KeptAttribute, NextHop, RouteRef, Unicast};

/// The types that are looked at, in the order of their codes.
const TYPES_IN_ORDER: [AttributeType; 17] = [
    AttributeType::Origin,
    AttributeType::AsPath,
    AttributeType::NextHop,
    AttributeType::MultiExitDisc,
    AttributeType::LocalPref,
    AttributeType::AtomicAggregate,
    AttributeType::Aggregator,
    AttributeType::Kept(KeptAttribute::Communities),
    AttributeType::Kept(KeptAttribute::OriginatorId),
    AttributeType::Kept(KeptAttribute::ClusterList),
    AttributeType::MpReachNlri,
    AttributeType::MpUnreachNlri,
    AttributeType::Kept(KeptAttribute::ExtendedCommunities),
    AttributeType::As4Path,
    AttributeType::As4Aggregator,
    AttributeType::Kept(KeptAttribute::LargeCommunities),
    AttributeType::Kept(KeptAttribute::OnlyToCustomer),
];

/// How many bytes the attributes of a RIB entry have at most (RFC 6396, 4.3.4).
const ENTRY_MOST: usize = 65535;

/// How many bytes the attributes of an UPDATE have at most that has nothing else: 23 others stand before them (RFC
/// 4271, 4.1 and 4.3), and its length has two bytes.
const UPDATE_MOST: usize = 65512;

/// Appends MP_REACH_NLRI: of this value if there is one, and else as a RIB entry has it.
fn push_reach(
    out: &mut Vec<u8>,
    own_fields: bool,
    reach: Option<&[u8]>,
    hop: Option<NextHop>,
) -> Result<(), Memory>
    requires { IfSome (option_map (λ r. r.now) reach) IsShort }
    ensures { OnOk result (out.new.items ≡ out.old.items
        ++ value_bytes types.MpReachNlri (reach_by (option_map (λ r. r.now) reach.entry) own_fields hop)) }
{
    match reach {
        Some(value) => push_attribute(out, AttributeType::MpReachNlri, value),
        None => push_entry_reach(out, own_fields, hop),
    }
}

/// Appends the attribute of a type, if the route has it.
#[tactic(auto, using(crate::proofs::RouteLaws::path_fits))]
#[inline(always)]
fn push_type(
    out: &mut Vec<u8>,
    route: &RouteRef<'_>,
    own_fields: bool,
    reach: Option<&[u8]>,
    attribute_type: AttributeType,
) -> Result<(), Memory>
    requires path { IfSome (option_map (path_bytes 4) route.now.path) IsShort }
    requires reach { IfSome (option_map (λ r. r.now) reach) IsShort }
    ensures { OnOk result (out.new.items ≡ out.old.items ++ value_bytes attribute_type
        (route_values (own_hop own_fields route.now.next_hop)
        (reach_by (option_map (λ r. r.now) reach.entry) own_fields route.now.next_hop) route.now attribute_type)) }
{
    match attribute_type {
        AttributeType::Origin => push_origin(out, route.origin()),
        AttributeType::AsPath => push_path(out, route.path_value()),
        AttributeType::NextHop => push_own_hop(out, own_fields, route.next_hop()),
        AttributeType::MultiExitDisc => push_med(out, route.med()),
        AttributeType::LocalPref => push_local_pref(out, route.local_pref()),
        AttributeType::AtomicAggregate => push_atomic(out, route.atomic()),
        AttributeType::Aggregator => push_aggregator(out, route.aggregator()),
        AttributeType::MpReachNlri => push_reach(out, own_fields, reach, route.next_hop()),
        AttributeType::MpUnreachNlri => Ok(()),
        AttributeType::As4Path => Ok(()),
        AttributeType::As4Aggregator => Ok(()),
        AttributeType::Kept(attribute) => push_kept(out, route, attribute),
    }
}

/// Appends the attributes of these types.
fn push_types(
    out: &mut Vec<u8>,
    route: &RouteRef<'_>,
    own_fields: bool,
    reach: Option<&[u8]>,
    attribute_types: &[AttributeType],
) -> Result<(), Memory>
    requires path { IfSome (option_map (path_bytes 4) route.now.path) IsShort }
    requires reach { IfSome (option_map (λ r. r.now) reach) IsShort }
    ensures { OnOk result (out.new.items ≡ out.old.items ++ flat_map (λ t. value_bytes t
        (route_values (own_hop own_fields route.now.next_hop)
        (reach_by (option_map (λ r. r.now) reach.entry) own_fields route.now.next_hop) route.now t))
        attribute_types.now) }
{
    for attribute_type in attribute_types {
        push_type(out, route, own_fields, reach, *attribute_type)?;
    }
    Ok(())
}

/// Whether a value that may not be there is as short as an attribute's.
fn is_short(value: Option<&[u8]>) -> bool
    ensures { IsTrue result ↔ IfSome (option_map (λ v. v.now) value.entry) IsShort }
{
    match value {
        None => true,
        Some(bytes) => bytes.len() < 65536,
    }
}

/// Appends the attributes of a route.
#[tactic(auto, using(crate::proofs::RouteLaws::fields_written))]
fn push_all(
    out: &mut Vec<u8>,
    route: &RouteRef<'_>,
    own_fields: bool,
    reach: Option<&[u8]>,
) -> Result<(), Memory>
    requires path { IfSome (option_map (path_bytes 4) route.now.path) IsShort }
    requires reach { IfSome (option_map (λ r. r.now) reach) IsShort }
    ensures { OnOk result (out.new.items ≡ out.old.items ++ attributes_bytes (attributes_by
        (route_values (own_hop own_fields route.now.next_hop)
        (reach_by (option_map (λ r. r.now) reach.entry) own_fields route.now.next_hop) route.now) types_in_order)) }
{
    push_types(out, route, own_fields, reach, &TYPES_IN_ORDER)
}

/// Takes off what stands behind so many bytes, if it has more than so many. Returns whether it stays.
fn keep_within(out: &mut Vec<u8>, before: usize, most: usize) -> bool
    requires { before ≤ length out.old.items }
    ensures { AppendsWithin most (drop before out.old.items) (take before out.old.items) out.new.items result }
{
    if out.len() - before > most {
        out.truncate(before);
        return false;
    }
    true
}

/// Appends the attributes of a route if they have at most so many bytes, and else nothing. Returns whether they have.
#[tactic(auto, using(crate::proofs::RouteLaws::path_fits, crate::proofs::RouteLaws::path_too_long, crate::proofs::RouteLaws::within_again))]
fn push_within(
    out: &mut Vec<u8>,
    route: &RouteRef<'_>,
    own_fields: bool,
    reach: Option<&[u8]>,
    most: usize,
) -> Result<bool, Memory>
    requires reach { IfSome (option_map (λ r. r.now) reach) IsShort }
    requires most { most < 256 ^ 2 }
    ensures { IfOk result (AppendsWithin most (attributes_bytes (attributes_by
        (route_values (own_hop own_fields route.now.next_hop)
        (reach_by (option_map (λ r. r.now) reach.entry) own_fields route.now.next_hop) route.now) types_in_order))
        out.old.items out.new.items) }
{
    if !is_short(route.path_value()) {
        return Ok(false);
    }
    let before = out.len();
    push_all(out, route, own_fields, reach)?;
    Ok(keep_within(out, before, most))
}

/// Appends the attributes that a RIB entry for the route has, if they have at most 65,535 bytes, and else nothing.
/// Returns whether they have.
#[tactic(auto, unfolding(crate::specs::RouteAttributes::entry_attributes))]
pub fn push_entry_attributes<F: Unicast>(
    out: &mut Vec<u8>,
    route: &RouteRef<'_>,
) -> Result<bool, Memory>
    ensures { IfOk result (AppendsWithin entry_most (entry_field F.family route.now) out.old.items out.new.items) }
{
    push_within(out, route, F::encoding().own_fields, None, ENTRY_MOST)
}

/// Appends the value of MP_REACH_NLRI of this next hop and this key (RFC 4760, 3).
fn push_reach_value<F: WideAddress>(
    out: &mut Vec<u8>,
    add_path: bool,
    key: &RouteKey<Prefix<F>>,
    hop: NextHop,
) -> Result<(), Memory>
    ensures { OnOk result (out.new.items ≡ out.old.items ++ reach_value F.family add_path key.now hop) }
{
    out.extend_from_slice(&F::encoding().afi.to_be_bytes())?;
    out.push(1)?;
    push_hop_part(out, hop)?;
    out.push(0)?;
    push_key(out, add_path, key)
}

/// Appends the attributes that an UPDATE has which reaches the key by the route, if they have at most 65,512 bytes, and
/// else nothing. Returns whether they have. What is in `block` is written over.
#[tactic(auto, using(crate::proofs::ReachLaws::reach_short))]
pub fn push_update_attributes<F: WideAddress>(
    out: &mut Vec<u8>,
    block: &mut Vec<u8>,
    add_path: bool,
    key: &RouteKey<Prefix<F>>,
    route: &RouteRef<'_>,
) -> Result<bool, Memory>
    ensures { IfOk result (AppendsWithin update_most (update_field F.family add_path key.now route.now)
        out.old.items out.new.items) }
{
    let Some(hop) = route.next_hop() else {
        return push_within(out, route, false, None, UPDATE_MOST);
    };
    block.clear();
    push_reach_value(block, add_path, key, hop)?;
    push_within(out, route, false, Some(block.as_slice()), UPDATE_MOST)
}
