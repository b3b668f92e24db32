//! The bytes of a packed route in front of its path: two bytes of flags, and those fields that are there, in a fixed
//! order.

ghost use Rattle.std.specs.Prelude.{◌≡◌, ◌+◌, ◌≤◌, ◌<◌, ◌^◌, [], ◌++◌, IfSome, OnOk, length};
ghost use Rattle.bgp_update.specs.Hops.{by_hop};
ghost use Rattle.bgp_update.specs.Multiprotocol.{FitsHop};
ghost use Rattle.bgp_update.specs.Packing as packing;
ghost use Rattle.bgp_update.specs.Packing.{FitsAggregator, HaveWidths, front_bytes, packed_hop_bytes, number_bytes, aggregator_bytes};
ghost use Rattle.bgp_update.specs.Values.{kept_route};

use crate::attribute_type::AttributeType;
use crate::front_bytes::FrontBytes;
use crate::kept_values::KeptValues;
use crate::route::{Aggregator, Origin};
use crate::route_fields::{aggregator_from, number_value, origin_value};
use crate::values::FirstValues;
use crate::width::Width;
use crate::written_hop::WrittenHop;
use bgp_prefix::Memory;

/// The number by which an origin is packed.
#[inline(always)]
fn origin_code(origin: Option<Origin>) -> u8
    ensures code { result ≡ packing.origin_code origin }
    ensures few { result < 4 }
{
    match origin {
        None => 3,
        Some(Origin::Igp) => 0,
        Some(Origin::Egp) => 1,
        Some(Origin::Incomplete) => 2,
    }
}

/// The number by which the kind of a next hop is packed.
#[inline(always)]
fn hop_code(hop: &Option<WrittenHop<'_>>) -> u8
    ensures code { result ≡ packing.hop_code hop.now }
    ensures few { result < 4 }
{
    match hop {
        Some(hop) => hop.code(),
        None => 0,
    }
}

/// 1 if it is set.
#[inline(always)]
fn flag(is_set: bool) -> u8
    ensures bit { result ≡ packing.flag is_set }
    ensures few { result < 2 }
{
    is_set as u8
}

/// Appends a next hop, if there is one.
#[inline(always)]
fn push_hop(out: &mut FrontBytes, hop: &Option<WrittenHop<'_>>)
    requires { length out.old + 32 ≤ 50 }
    ensures bytes { out.new ≡ out.old ++ packed_hop_bytes hop.now }
    ensures few { length out.new ≤ length out.old + 32 }
    ensures fits { IfSome hop.now FitsHop }
{
    match hop {
        None => {}
        Some(hop) => out.push(hop.as_bytes()),
    }
}

/// Appends a number, if it is there.
#[inline(always)]
fn push_number(out: &mut FrontBytes, number: Option<u32>)
    requires { length out.old + 4 ≤ 50 }
    ensures bytes { out.new ≡ out.old ++ number_bytes number }
    ensures few { length out.new ≤ length out.old + 4 }
    ensures fits { IfSome number (λ n. n < 256 ^ 4) }
{
    match number {
        None => {}
        Some(n) => out.push(&n.to_be_bytes()),
    }
}

/// Appends an aggregator, if it is there.
#[inline(always)]
fn push_aggregator(out: &mut FrontBytes, aggregator: Option<Aggregator>)
    requires { length out.old + 8 ≤ 50 }
    ensures bytes { out.new ≡ out.old ++ aggregator_bytes aggregator }
    ensures fits { IfSome aggregator FitsAggregator }
{
    match aggregator {
        None => {}
        Some(a) => {
            out.push(&a.asn.to_be_bytes());
            out.push(&a.addr.to_be_bytes());
        }
    }
}

/// Writes what stands in front of the path of the route of these values by a next hop, where nothing is written yet.
#[inline(always)]
#[tactic(auto, unfolding(crate::specs::Packing::front_bytes, crate::specs::Attributes::route_from))]
fn write_front(
    out: &mut FrontBytes,
    first: &FirstValues<'_>,
    kept: &KeptValues<'_>,
    width: Width,
    hop: &Option<WrittenHop<'_>>,
    has_path: bool,
)
    requires { out.old ≡ [] }
    ensures bytes { out.new ≡ front_bytes (by_hop (kept_route width first.now kept.now) hop.now) has_path }
    ensures widths { HaveWidths (by_hop (kept_route width first.now kept.now) hop.now) }
{
    let origin = origin_value(first.value(AttributeType::Origin));
    let med = number_value(first.value(AttributeType::MultiExitDisc));
    let local_pref = number_value(first.value(AttributeType::LocalPref));
    let atomic = first.value(AttributeType::AtomicAggregate).is_some();
    let aggregator = aggregator_from(first, width);
    let fields = origin_code(origin)
        + 4 * flag(atomic)
        + 8 * hop_code(hop)
        + 32 * flag(med.is_some())
        + 64 * flag(local_pref.is_some())
        + 128 * flag(aggregator.is_some());
    out.push(&[fields, flag(has_path) + 2 * flag(kept.is_any())]);
    push_hop(out, hop);
    push_number(out, med);
    push_number(out, local_pref);
    push_aggregator(out, aggregator);
}

/// Appends what stands in front of the path of the route of these values by a next hop.
#[inline(always)]
pub(crate) fn push_front(
    out: &mut Vec<u8>,
    first: &FirstValues<'_>,
    kept: &KeptValues<'_>,
    width: Width,
    hop: &Option<WrittenHop<'_>>,
    has_path: bool,
) -> Result<(), Memory>
    ensures bytes { OnOk result (out.new.items
        ≡ out.old.items ++ front_bytes (by_hop (kept_route width first.now kept.now) hop.now) has_path) }
    ensures widths { OnOk result (HaveWidths (by_hop (kept_route width first.now kept.now) hop.now)) }
{
    let mut front = FrontBytes::new();
    write_front(&mut front, first, kept, width, hop, has_path);
    front.append_to(out)
}
