//! UPDATE messages and the attributes of RIB entries.

ghost use Rattle.std.specs.Prelude.{◌≡◌, ◌≤◌, ◌+◌, ◌++◌, [], Ok, None, IfOk, IfErr, IfSome, OnOk, length};
ghost use Rattle.mrt_frame.specs.Fields.{Reads};
ghost use Rattle.bgp_prefix.specs.Prefixes.{IpPrefix};
ghost use Rattle.bgp_update.specs.Results.{Fails, Gives};
ghost use Rattle.bgp_update.specs.Attributes.{ReadsAsRoute, route_in};
ghost use Rattle.bgp_update.specs.Decoded.{Appends, AppendsBehind, AreKeysOf, IsGrown, behind_in, split_update};
ghost use Rattle.bgp_update.specs.Updates as updates;
ghost use Rattle.bgp_update.specs.Updates.{ReadsAsUpdate, own_keys_in, update_in};
ghost use Rattle.bgp_update.specs.Packing.{IsWritable};
ghost use Rattle.bgp_update.specs.Values.{AreShort, CanPackKept, HasRoom, IsWhole, asked_value, kept_entry_route, kept_route, kept_value, plain_rules, values_asked};
ghost use Rattle.bgp_update.specs.Families.{route_rules_of};
ghost use Rattle.bgp_update.specs.declared.attribute_type.AttributeType.{AttributeType};
ghost use Rattle.bgp_update.specs.declared.kept_attribute.KeptAttribute.{KeptAttribute};

use crate::asked_values::{AskedValues, keep_asked};
use crate::attr_error::AttrError;
use crate::attribute_context::AttributeContext;
use crate::attribute_type::AttributeType;
use crate::kept_attribute::AttributeSet;
use crate::kept_values::{KeptBlock, kept_block};
use crate::key::append_keys;
use crate::multiprotocol::{append_reached, append_unreached, entry_hop_value};
use crate::route::{Route, Update};
use crate::route_fields::route_from;
use crate::unicast::Unicast;
use crate::values::{FirstValues, keep_values};
use crate::width::Width;
use crate::written_hop::{WrittenHop, next_hop_of};
use bgp_prefix::{Memory, Prefix, RouteKey, Sequence};
use mrt_frame::{Fault, bytes_at, u16_at};
use std::alloc::Global;

/// The fields of an UPDATE.
#[derive(Drop)]
pub(crate) struct UpdateFields<'a> {
    pub(crate) withdrawn: &'a [u8],
    pub(crate) attributes: &'a [u8],
    pub(crate) announced: &'a [u8],
}

/// Reads the fields of an UPDATE.
#[tactic(auto, unfolding(crate::specs::Updates::fields_in))]
pub(crate) fn fields_in(body: &[u8]) -> Result<UpdateFields<'_>, Fault>
    ensures { Reads
        (λ f. record { withdrawn = f.withdrawn.now; attributes = f.attributes.now; announced = f.announced.now })
        result (updates.fields_in body.now) }
{
    if body.len() < 4 {
        return Err(Fault::BadLength);
    }
    let (len, rest) = u16_at(body, Fault::BadUpdate)?;
    let (withdrawn, rest) = bytes_at(rest, len as usize, Fault::BadUpdate)?;
    let (len, rest) = u16_at(rest, Fault::BadUpdate)?;
    let (attributes, announced) = bytes_at(rest, len as usize, Fault::BadUpdate)?;
    Ok(UpdateFields {
        withdrawn,
        attributes,
        announced,
    })
}

/// Appends the keys of one of an UPDATE's own fields to other ones; none where they aren't of the family.
#[inline(always)]
pub(crate) fn append_own_keys<F: Unicast>(
    keys: &mut Vec<RouteKey<Prefix<F>>>,
    field: &[u8],
    add_path: bool,
) -> Result<(), AttrError>
    ensures appends { OnOk result (Appends keys.old.items keys.new.items (own_keys_in F.family add_path field.now)) }
    ensures fault { IfErr result (λ e. Fails e (own_keys_in F.family add_path field.now)) }
    ensures grown { IsGrown keys.old.items keys.new.items }
{
    if F::encoding().own_fields {
        append_keys(keys, field, add_path)
    } else {
        Ok(())
    }
}

/// How many keys an UPDATE has of each kind, in the order in which they were appended, and the next hop of
/// MP_REACH_NLRI.
#[derive(Drop)]
pub(crate) struct AppendedKeys<'a> {
    /// Those of the field of withdrawn routes, and then those of MP_UNREACH_NLRI.
    pub(crate) withdrawn: usize,
    /// Those of MP_REACH_NLRI.
    pub(crate) reached: usize,
    /// Those of the NLRI field.
    pub(crate) announced: usize,
    pub(crate) reached_hop: Option<WrittenHop<'a>>,
}

/// Appends the keys of an UPDATE that are read behind its attributes, which were kept so: those of MP_UNREACH_NLRI and
/// MP_REACH_NLRI, and those of the NLRI field. There were so many before those of the message.
#[inline(always)]
#[tactic(auto, unfolding(crate::specs::Decoded::behind_in))]
pub(crate) fn append_behind<'a, F: Unicast>(
    keys: &mut Vec<RouteKey<Prefix<F>>>,
    announced: &[u8],
    kept: Result<(), Fault>,
    first: &FirstValues<'a>,
    start: usize,
    add_path: bool,
) -> Result<AppendedKeys<'a>, AttrError>
    requires { start ≤ length keys.old.items }
    ensures appends { IfOk result (λ appended. AppendsBehind start keys.old.items keys.new.items appended
        (behind_in F.family add_path (kept_value first.now) kept announced.now)) }
    ensures fault { IfErr result
        (λ e. Fails e (behind_in F.family add_path (kept_value first.now) kept announced.now)) }
    ensures grown { IsGrown keys.old.items keys.new.items }
{
    append_unreached(keys, first.value(AttributeType::MpUnreachNlri), add_path)?;
    let withdrawn = keys.len();
    let reached_hop = append_reached(keys, first.value(AttributeType::MpReachNlri), add_path)?;
    let reached = keys.len();
    // These keys stand before the attribute that has a fault.
    kept?;
    append_own_keys(keys, announced, add_path)?;
    Ok(AppendedKeys {
        withdrawn: withdrawn - start,
        reached: reached - withdrawn,
        announced: keys.len() - reached,
        reached_hop,
    })
}

/// Appends the keys of an UPDATE to other ones, and keeps the values of its attributes where none are kept yet.
#[tactic(auto, unfolding(crate::specs::Updates::update_in))]
pub(crate) fn read_keys<'a, F: Unicast>(
    keys: &mut Vec<RouteKey<Prefix<F>>>,
    body: &'a [u8],
    width: Width,
    add_path: bool,
    first: &mut FirstValues<'a>,
) -> Result<AppendedKeys<'a>, AttrError>
    requires whole { IsWhole first.old }
    requires none { (t : AttributeType) → kept_value first.old t ≡ None }
    ensures said { IfOk result
        (λ appended. AreKeysOf keys.old.items keys.new.items appended (kept_route width first.new [])
        (update_in (plain_rules F.family) width add_path body.now)) }
    ensures fault { IfErr result (λ e. Fails e (update_in (plain_rules F.family) width add_path body.now)) }
    ensures grown { IsGrown keys.old.items keys.new.items }
    ensures packable { OnOk result (CanPackKept width first.new) }
{
    let fields = fields_in(body)?;
    let start = keys.len();
    append_own_keys(keys, fields.withdrawn, add_path)?;
    let context = AttributeContext::Message { add_path };
    let kept = keep_values::<F>(first, fields.attributes, context, width);
    append_behind(keys, fields.announced, kept, first, start, add_path)
}

/// The same, and beside them the values of attributes that are asked for.
#[tactic(auto, unfolding(crate::specs::Updates::update_in))]
pub(crate) fn read_asked_keys<'a, F: Unicast>(
    keys: &mut Vec<RouteKey<Prefix<F>>>,
    body: &'a [u8],
    width: Width,
    add_path: bool,
    first: &mut FirstValues<'a>,
    asked: &mut AskedValues<'a>,
) -> Result<AppendedKeys<'a>, AttrError>
    requires room { HasRoom asked.old }
    requires whole { IsWhole first.old }
    requires none { (t : AttributeType) → kept_value first.old t ≡ None }
    requires none_asked { (a : KeptAttribute) → asked_value asked.old a ≡ None }
    ensures said { IfOk result (λ appended.
        AreKeysOf keys.old.items keys.new.items appended (kept_route width first.new (values_asked asked.new))
        (update_in (route_rules_of F.family asked.old.asked) width add_path body.now)) }
    ensures fault { IfErr result
        (λ e. Fails e (update_in (route_rules_of F.family asked.old.asked) width add_path body.now)) }
    ensures grown { IsGrown keys.old.items keys.new.items }
    ensures packable { OnOk result (CanPackKept width first.new) }
    ensures room { HasRoom asked.new }
    ensures short { OnOk result (AreShort asked.new) }
{
    let fields = fields_in(body)?;
    let start = keys.len();
    append_own_keys(keys, fields.withdrawn, add_path)?;
    let context = AttributeContext::Message { add_path };
    let kept = keep_asked::<F>(first, asked, fields.attributes, context, width);
    append_behind(keys, fields.announced, kept, first, start, add_path)
}

/// Appends copies of keys.
pub(crate) fn copy_keys<F: Unicast>(
    out: &mut Vec<RouteKey<Prefix<F>>>,
    keys: &[RouteKey<Prefix<F>>],
) -> Result<(), Memory>
    ensures { OnOk result (out.new.items ≡ out.old.items ++ keys.now) }
{
    out.extend_from_slice(keys)?;
    Ok(())
}

/// Returns the update of keys that were read, and of its route.
pub(crate) fn update_of<F: Unicast>(
    alloc: Global,
    keys: &[RouteKey<Prefix<F>>],
    appended: &AppendedKeys<'_>,
    route: Route,
) -> Result<Update<Prefix<F>>, Memory>
    requires { appended.now.withdrawn + appended.now.reached + appended.now.announced ≤ length keys.now }
    ensures { IfOk result (λ update. update ≡ split_update keys.now appended.now route) }
{
    let end = appended.withdrawn + appended.reached;
    let mut withdrawn = Vec::new(alloc);
    copy_keys(&mut withdrawn, &keys[..appended.withdrawn])?;
    let mut reached = Vec::new(alloc);
    copy_keys(&mut reached, &keys[appended.withdrawn..end])?;
    let mut announced = Vec::new(alloc);
    copy_keys(&mut announced, &keys[end..end + appended.announced])?;
    Ok(Update {
        withdrawn: Sequence::from_vec(withdrawn),
        announced: Sequence::from_vec(announced),
        reached: Sequence::from_vec(reached),
        route,
        reached_hop: next_hop_of(&appended.reached_hop),
    })
}

fn whole_update<F: Unicast>(
    alloc: Global,
    body: &[u8],
    asked: AttributeSet,
    width: Width,
    add_path: bool,
) -> Result<Update<Prefix<F>>, AttrError>
    ensures { Gives (λ update. update) result (update_in (route_rules_of F.family asked) width add_path body.now) }
{
    let mut keys = Vec::new(alloc);
    let mut first = FirstValues::new();
    let mut kept = AskedValues::new(asked);
    let appended = read_asked_keys(&mut keys, body, width, add_path, &mut first, &mut kept)?;
    let block = kept_block(alloc, &kept)?;
    let route = route_from(alloc, &first, width, block)?;
    let update = update_of(alloc, keys.as_slice(), &appended, route)?;
    Ok(update)
}

/// Returns the route of a RIB entry that the values describe: of a family that NEXT_HOP isn't of, by the next hop of
/// MP_REACH_NLRI.
pub(crate) fn entry_route<F: Unicast>(
    alloc: Global,
    first: &FirstValues<'_>,
    width: Width,
    kept: KeptBlock,
) -> Result<Route, Memory>
    ensures { IfOk result (λ route. route ≡ kept_entry_route F.family width first.now kept) }
{
    let plain = route_from(alloc, first, width, kept)?;
    if F::encoding().own_fields {
        return Ok(plain);
    }
    let hop = entry_hop_value::<F>(first.value(AttributeType::MpReachNlri));
    Ok(plain.with_next_hop(next_hop_of(&hop)))
}

#[tactic(auto, unfolding(crate::specs::Attributes::route_in))]
fn whole_route<F: Unicast>(
    alloc: Global,
    bytes: &[u8],
    asked: AttributeSet,
    width: Width,
) -> Result<Route, AttrError>
    ensures { Gives (λ route. route) result (route_in (route_rules_of F.family asked) width bytes.now) }
{
    let mut first = FirstValues::new();
    let mut kept = AskedValues::new(asked);
    keep_asked::<F>(
        &mut first,
        &mut kept,
        bytes,
        AttributeContext::RibEntry,
        width,
    )?;
    let block = kept_block(alloc, &kept)?;
    let route = entry_route::<F>(alloc, &first, width, block)?;
    Ok(route)
}

/// Reads the route that the attributes of a RIB entry encode (RFC 6396, 4.3.4). MP_UNREACH_NLRI is skipped, and so is
/// MP_REACH_NLRI where NEXT_HOP is of the family; elsewhere the first one gives the next hop. `Bad` has the first fault
/// from left to right.
pub fn read_attrs<F: Unicast>(
    alloc: Global,
    bytes: &[u8],
    asked: AttributeSet,
    width: Width,
) -> Result<Route, AttrError>
    // The bytes encode the route that is returned.
    ensures found { IfOk result (ReadsAsRoute (route_rules_of F.family asked) width bytes.now) }
    // The route that the bytes encode is returned, unless memory runs out.
    ensures only { (route : Route) → ReadsAsRoute (route_rules_of F.family asked) width bytes.now route → Gives (λ r. r) result (Ok route) }
    // Which fault it is.
    ensures exact { Gives (λ r. r) result (route_in (route_rules_of F.family asked) width bytes.now) }
    // It can be packed.
    ensures writable { IfOk result (λ route. IsWritable route.path) }
{
    whole_route::<F>(alloc, bytes, asked, width)
}

/// Reads the UPDATE that the bytes after a message header encode (RFC 4271, 4.3), with a path identifier
/// before each prefix if `add_path` is set (RFC 7911, 3). `Bad` has the first fault from left to
/// right, and the message is then no UPDATE at all: none of it may be used.
pub fn read_update<F: Unicast>(
    alloc: Global,
    body: &[u8],
    asked: AttributeSet,
    width: Width,
    add_path: bool,
) -> Result<Update<Prefix<F>>, AttrError>
    ensures found { IfOk result (ReadsAsUpdate (route_rules_of F.family asked) width add_path body.now) }
    ensures only { (update : Update IpPrefix) → ReadsAsUpdate (route_rules_of F.family asked) width add_path body.now update →
        Gives (λ u. u) result (Ok update) }
    ensures exact { Gives (λ u. u) result (update_in (route_rules_of F.family asked) width add_path body.now) }
    ensures writable { IfOk result (λ update. IsWritable update.route.path) }
{
    whole_update(alloc, body, asked, width, add_path)
}
