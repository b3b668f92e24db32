//! Attributes, packed as they are read.

ghost use Rattle.std.specs.Prelude.{◌≡◌, ◌++◌, ◌<◌, ◌^◌, IfOk, IfSome, OnOk, is_some, length};
ghost use Rattle.bgp_update.specs.Decoded.{AddsRoute, IsGrown};
ghost use Rattle.bgp_update.specs.Hops.{by_hop};
ghost use Rattle.bgp_update.specs.Packing.{WritesPath, WritesRoute, kept_part};
ghost use Rattle.std.specs.List.{AllByRecursion};
ghost use Rattle.bgp_update.specs.KeptBytes.{FitsKept, kept_bytes};
ghost use Rattle.bgp_update.specs.Values.{CanPackKept, kept_entry_route, kept_route};
ghost use Rattle.bgp_update.specs.declared.width.Width.TheVariants.{Two, Four};

use crate::attribute_type::AttributeType;
use crate::decoded::RouteSpan;
use crate::kept_values::KeptValues;
use crate::multiprotocol::entry_hop_value;
use crate::packed_front::push_front;
use crate::path_writing::push_path;
use crate::route_fields::{next_hop_value, path_from};
use crate::unicast::Unicast;
use crate::update::AppendedKeys;
use crate::values::FirstValues;
use crate::width::Width;
use crate::written_hop::WrittenHop;
use bgp_prefix::Memory;
use std::alloc::Global;

/// Appends the route of values with four-octet AS numbers by a next hop: the bytes of AS_PATH are copied.
#[inline(always)]
fn push_four(
    out: &mut Vec<u8>,
    first: &FirstValues<'_>,
    kept: &KeptValues<'_>,
    hop: &Option<WrittenHop<'_>>,
) -> Result<(), Memory>
    requires { CanPackKept Four first.now }
    ensures { OnOk result (WritesPath out.old.items out.new.items (by_hop (kept_route Four first.now kept.now) hop.now)) }
{
    let path = first.value(AttributeType::AsPath);
    push_front(out, first, kept, Width::Four, hop, path.is_some())?;
    match path {
        Some(path) => {
            out.extend_from_slice(path)?;
            Ok(())
        }
        None => Ok(()),
    }
}

/// Appends the route of values with two-octet AS numbers by a next hop, whose path may have to be merged.
#[inline(never)]
fn push_two(
    alloc: Global,
    out: &mut Vec<u8>,
    first: &FirstValues<'_>,
    kept: &KeptValues<'_>,
    hop: &Option<WrittenHop<'_>>,
) -> Result<(), Memory>
    requires { CanPackKept Two first.now }
    ensures { OnOk result (WritesPath out.old.items out.new.items (by_hop (kept_route Two first.now kept.now) hop.now)) }
{
    let path = path_from(alloc, first, Width::Two)?;
    push_front(out, first, kept, Width::Two, hop, path.is_some())?;
    push_path(out, &path)?;
    Ok(())
}

/// Appends the route of these values by a next hop.
#[inline(always)]
fn push_by_hop(
    alloc: Global,
    out: &mut Vec<u8>,
    first: &FirstValues<'_>,
    width: Width,
    kept: &KeptValues<'_>,
    hop: &Option<WrittenHop<'_>>,
) -> Result<(), Memory>
    requires { CanPackKept width first.now }
    ensures { OnOk result (WritesRoute out.old.items out.new.items (by_hop (kept_route width first.now kept.now) hop.now)) }
{
    push_path_by_hop(alloc, out, first, width, kept, hop)?;
    push_kept_part(out, kept)?;
    Ok(())
}

/// The same but for the attributes that are kept.
#[inline(always)]
fn push_path_by_hop(
    alloc: Global,
    out: &mut Vec<u8>,
    first: &FirstValues<'_>,
    width: Width,
    kept: &KeptValues<'_>,
    hop: &Option<WrittenHop<'_>>,
) -> Result<(), Memory>
    requires { CanPackKept width first.now }
    ensures { OnOk result (WritesPath out.old.items out.new.items (by_hop (kept_route width first.now kept.now) hop.now)) }
{
    match width {
        Width::Four => push_four(out, first, kept, hop),
        Width::Two => push_two(alloc, out, first, kept, hop),
    }
}

/// Appends the attributes that are kept, if there are any, and how many bytes they take.
#[inline(always)]
fn push_kept_part(out: &mut Vec<u8>, kept: &KeptValues<'_>) -> Result<(), Memory>
    ensures bytes { OnOk result (out.new.items ≡ out.old.items ++ kept_part kept.now) }
    ensures fit { AllByRecursion FitsKept kept.now }
    ensures few { length (kept_bytes kept.now) < 256 ^ 4 }
{
    let bytes = kept.as_bytes();
    if kept.is_any() {
        out.extend_from_slice(bytes)?;
        out.extend_from_slice(&(bytes.len() as u32).to_be_bytes())?;
    }
    Ok(())
}

/// Packs the route of these values by a next hop, behind other bytes.
#[inline(always)]
fn pack_by_hop(
    alloc: Global,
    out: &mut Vec<u8>,
    first: &FirstValues<'_>,
    width: Width,
    kept: &KeptValues<'_>,
    hop: &Option<WrittenHop<'_>>,
) -> Result<RouteSpan, Memory>
    requires { CanPackKept width first.now }
    ensures { IfOk result (AddsRoute out.old.items out.new.items (by_hop (kept_route width first.now kept.now) hop.now)) }
{
    let start = out.len();
    push_by_hop(alloc, out, first, width, kept, hop)?;
    let span = RouteSpan::behind(start, out.as_slice())?;
    Ok(span)
}

/// The same, by NEXT_HOP.
#[inline(always)]
#[tactic(auto, using(crate::proofs::PackedReadings::by_own_hop))]
pub(crate) fn pack_values(
    alloc: Global,
    out: &mut Vec<u8>,
    first: &FirstValues<'_>,
    width: Width,
    kept: &KeptValues<'_>,
) -> Result<RouteSpan, Memory>
    requires { CanPackKept width first.now }
    ensures { IfOk result (AddsRoute out.old.items out.new.items (kept_route width first.now kept.now)) }
{
    let hop = next_hop_value(first.value(AttributeType::NextHop));
    pack_by_hop(alloc, out, first, width, kept, &hop)
}

/// The same, by the next hop of MP_REACH_NLRI, apart from the code around it: most messages of IPv4 have none.
#[inline(never)]
fn pack_apart(
    alloc: Global,
    out: &mut Vec<u8>,
    first: &FirstValues<'_>,
    width: Width,
    kept: &KeptValues<'_>,
    appended: &AppendedKeys<'_>,
) -> Result<RouteSpan, Memory>
    requires { CanPackKept width first.now }
    ensures { IfOk result
        (AddsRoute out.old.items out.new.items (by_hop (kept_route width first.now kept.now) appended.now.reached_hop)) }
{
    pack_by_hop(alloc, out, first, width, kept, &appended.reached_hop)
}

/// Packs the route of these values by the next hop of MP_REACH_NLRI, if there is one.
#[inline(always)]
pub(crate) fn pack_reached(
    alloc: Global,
    out: &mut Vec<u8>,
    first: &FirstValues<'_>,
    width: Width,
    kept: &KeptValues<'_>,
    appended: &AppendedKeys<'_>,
) -> Result<Option<RouteSpan>, Memory>
    requires { CanPackKept width first.now }
    ensures route { IfOk result (λ span. IfSome span
        (AddsRoute out.old.items out.new.items (by_hop (kept_route width first.now kept.now) appended.now.reached_hop))) }
    ensures both { IfOk result (λ span. is_some span ≡ is_some appended.now.reached_hop) }
    ensures grown { OnOk result (IsGrown out.old.items out.new.items) }
{
    if appended.reached_hop.is_none() {
        return Ok(None);
    }
    let span = pack_apart(alloc, out, first, width, kept, appended)?;
    Ok(Some(span))
}

/// Packs the route of a RIB entry of these values: where NEXT_HOP isn't of the family, by the next hop of
/// MP_REACH_NLRI.
#[inline(always)]
#[tactic(auto, unfolding(crate::specs::Attributes::entry_route))]
pub(crate) fn pack_entry<F: Unicast>(
    alloc: Global,
    out: &mut Vec<u8>,
    first: &FirstValues<'_>,
    width: Width,
    kept: &KeptValues<'_>,
) -> Result<RouteSpan, Memory>
    requires { CanPackKept width first.now }
    ensures { IfOk result
        (AddsRoute out.old.items out.new.items (kept_entry_route F.family width first.now kept.now)) }
{
    if F::encoding().own_fields {
        return pack_values(alloc, out, first, width, kept);
    }
    let hop = entry_hop_value::<F>(first.value(AttributeType::MpReachNlri));
    pack_by_hop(alloc, out, first, width, kept, &hop)
}
