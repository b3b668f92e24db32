//! The attributes of RIB entries and UPDATE messages, decoded into blocks of memory.

ghost use Rattle.std.specs.Prelude.{◌+◌, ◌^◌, ◌<◌, IfOk};
ghost use Rattle.bgp_update.specs.Results.{Gives, UnlessMemory};
ghost use Rattle.bgp_update.specs.Families.{route_rules_of};
ghost use Rattle.bgp_update.specs.Attributes.{route_in};
ghost use Rattle.bgp_update.specs.Decoded.{AreUpdateSpans, IsGrown, IsRouteAt, IsUpdateAt, route_at, update_at};
ghost use Rattle.bgp_update.specs.Updates.{update_in};
ghost use Rattle.bgp_update.specs.Values.{plain_rules};

use crate::asked_values::{AskedValues, keep_asked};
use crate::attr_error::AttrError;
use crate::attribute_context::AttributeContext;
use crate::decoded::{RouteSpan, Span, UpdateSpans};
use crate::kept_attribute::AttributeSet;
use crate::kept_values::{KeptValues, kept_in};
use crate::packing::{pack_entry, pack_reached, pack_values};
use crate::unicast::Unicast;
use crate::update::{AppendedKeys, read_asked_keys, read_keys};
use crate::values::{FirstValues, keep_values};
use crate::width::Width;
use bgp_prefix::{Memory, Prefix, RouteKey};
use std::alloc::Global;

/// Decodes the route that the attributes of a RIB entry encode (RFC 6396, 4.3.4), and appends its packed bytes to other
/// ones. MP_UNREACH_NLRI is skipped, and so is MP_REACH_NLRI where NEXT_HOP is of the family; elsewhere the first one
/// gives the next hop. `Bad` has the first fault from left to right.
#[tactic(auto, unfolding(crate::specs::Attributes::route_in))]
pub fn decode_entry<F: Unicast>(
    alloc: Global,
    bytes: &mut Vec<u8>,
    attrs: &[u8],
    width: Width,
) -> Result<RouteSpan, AttrError>
    ensures exact { Gives (route_at bytes.new.items) result (route_in (plain_rules F.family) width attrs.now) }
    ensures there { IfOk result (IsRouteAt bytes.new.items) }
    ensures grown { UnlessMemory result (IsGrown bytes.old.items bytes.new.items) }
{
    let mut first = FirstValues::new();
    keep_values::<F>(&mut first, attrs, AttributeContext::RibEntry, width)?;
    let span = pack_entry::<F>(alloc, bytes, &first, width, &KeptValues::none())?;
    Ok(span)
}

/// The same of a route that keeps the attributes that are asked for, which are written over what is in `block` first.
#[tactic(auto, unfolding(crate::specs::Attributes::route_in))]
pub fn decode_asked_entry<F: Unicast>(
    alloc: Global,
    bytes: &mut Vec<u8>,
    block: &mut Vec<u8>,
    attrs: &[u8],
    asked: AttributeSet,
    width: Width,
) -> Result<RouteSpan, AttrError>
    ensures exact { Gives (route_at bytes.new.items) result (route_in (route_rules_of F.family asked) width attrs.now) }
    ensures there { IfOk result (IsRouteAt bytes.new.items) }
    ensures grown { UnlessMemory result (IsGrown bytes.old.items bytes.new.items) }
{
    let mut first = FirstValues::new();
    let mut kept = AskedValues::new(asked);
    keep_asked::<F>(
        &mut first,
        &mut kept,
        attrs,
        AttributeContext::RibEntry,
        width,
    )?;
    let values = kept_in(block, &kept)?;
    let span = pack_entry::<F>(alloc, bytes, &first, width, &values)?;
    Ok(span)
}

/// Returns the spans of the keys that were appended to so many, and of their routes.
pub(crate) fn spans_of(
    start: usize,
    appended: &AppendedKeys<'_>,
    route: RouteSpan,
    reached_route: Option<RouteSpan>,
) -> Result<UpdateSpans, Memory>
    requires { start + appended.now.withdrawn + appended.now.reached + appended.now.announced < 2 ^ 64 }
    ensures { IfOk result (AreUpdateSpans start appended.now route reached_route) }
{
    let withdrawn = start + appended.withdrawn;
    let reached = withdrawn + appended.reached;
    let announced = reached + appended.announced;
    Ok(UpdateSpans {
        withdrawn: Span::between(start, withdrawn)?,
        announced: Span::between(reached, announced)?,
        reached: Span::between(withdrawn, reached)?,
        route,
        reached_route,
    })
}

/// Decodes the UPDATE that the bytes after a message header encode (RFC 4271, 4.3), with a path identifier before each
/// prefix if `add_path` is set (RFC 7911, 3), and appends its keys and the packed bytes of its routes to other ones.
/// `Bad` has the first fault from left to right, and the message is then no UPDATE at all: none of it may be used.
/// Paths with four-octet AS numbers are packed as they are written, without a copy of each number.
pub fn decode_update<F: Unicast>(
    alloc: Global,
    keys: &mut Vec<RouteKey<Prefix<F>>>,
    bytes: &mut Vec<u8>,
    body: &[u8],
    width: Width,
    add_path: bool,
) -> Result<UpdateSpans, AttrError>
    ensures exact { Gives (update_at keys.new.items bytes.new.items) result
        (update_in (plain_rules F.family) width add_path body.now) }
    ensures there { IfOk result (IsUpdateAt keys.new.items bytes.new.items) }
    ensures keys { UnlessMemory result (IsGrown keys.old.items keys.new.items) }
    ensures bytes { UnlessMemory result (IsGrown bytes.old.items bytes.new.items) }
{
    let start = keys.len();
    let mut first = FirstValues::new();
    let appended = read_keys(keys, body, width, add_path, &mut first)?;
    let route = pack_values(alloc, bytes, &first, width, &KeptValues::none())?;
    let reached_route = pack_reached(alloc, bytes, &first, width, &KeptValues::none(), &appended)?;
    let spans = spans_of(start, &appended, route, reached_route)?;
    Ok(spans)
}

/// The same of an UPDATE whose route keeps the attributes that are asked for, which are written over what is in `block`
/// first.
pub fn decode_asked_update<F: Unicast>(
    alloc: Global,
    keys: &mut Vec<RouteKey<Prefix<F>>>,
    bytes: &mut Vec<u8>,
    block: &mut Vec<u8>,
    body: &[u8],
    asked: AttributeSet,
    width: Width,
    add_path: bool,
) -> Result<UpdateSpans, AttrError>
    ensures exact { Gives (update_at keys.new.items bytes.new.items) result
        (update_in (route_rules_of F.family asked) width add_path body.now) }
    ensures there { IfOk result (IsUpdateAt keys.new.items bytes.new.items) }
    ensures keys { UnlessMemory result (IsGrown keys.old.items keys.new.items) }
    ensures bytes { UnlessMemory result (IsGrown bytes.old.items bytes.new.items) }
{
    let start = keys.len();
    let mut first = FirstValues::new();
    let mut kept = AskedValues::new(asked);
    let appended = read_asked_keys(keys, body, width, add_path, &mut first, &mut kept)?;
    let values = kept_in(block, &kept)?;
    let route = pack_values(alloc, bytes, &first, width, &values)?;
    let reached_route = pack_reached(alloc, bytes, &first, width, &values, &appended)?;
    let spans = spans_of(start, &appended, route, reached_route)?;
    Ok(spans)
}
