//! Damage that is handled: malformed attributes that count as absent (attribute discard), and messages whose keys are
//! all withdrawn instead (treat-as-withdraw; RFC 7606, 2 to 5 and 7).

ghost use Rattle.std.specs.Prelude.{◌≡◌, ◌++◌, List, Ok, true, is_err, length, IfErr, IfOk, OnOk};
ghost use Rattle.bgp_prefix.specs.Keys.{RouteKey as RouteKeyValue};
ghost use Rattle.bgp_update.specs.Decoded.{IsGrown, IsRouteAt, IsUpdateAt, IsWithin, span_of, update_at};
ghost use Rattle.bgp_update.specs.Families.{route_rules, route_rules_of};
ghost use Rattle.bgp_update.specs.Handling as handling;
ghost use Rattle.bgp_update.specs.Handling.{announcing, handled_entry, handled_update, recovered_route, recovered_update, taken_update};
ghost use Rattle.bgp_update.specs.Packing.{IsWritable};
ghost use Rattle.bgp_update.specs.Results.{FailsIfAny, GivesIfAny, UnlessMemory};
ghost use Rattle.bgp_update.specs.SoundValues.{AreHandledKeys, HasPlaces};
ghost use Rattle.bgp_update.specs.Values.{AreShort, CanPackKept, kept_entry_route, kept_route, values_asked};

use crate::attr_error::AttrError;
use crate::attribute_context::AttributeContext;
use crate::decoded::{Span, UpdateSpans};
use crate::decoding::spans_of;
use crate::error_rule::ErrorRule;
use crate::kept_attribute::AttributeSet;
use crate::kept_values::{kept_block, kept_in};
use crate::packing::{pack_entry, pack_reached, pack_values};
use crate::route::{Route, Update};
use crate::route_fields::route_from;
use crate::rules::Rules;
use crate::sound_values::{SoundValues, keep_sound};
use crate::unicast::Unicast;
use crate::update::{
    AppendedKeys, append_behind, append_own_keys, copy_keys, entry_route, fields_in, update_of,
};
use crate::width::Width;
use bgp_prefix::{Memory, Prefix, RouteKey, Sequence};
use mrt_frame::Fault;
use std::alloc::Global;

/// Appends copies of the keys of a span.
fn append_copies<F: Unicast>(keys: &mut Vec<RouteKey<Prefix<F>>>, span: Span) -> Result<(), Memory>
    requires { IsWithin (length keys.old.items) span }
    ensures { OnOk result (keys.new.items ≡ keys.old.items ++ span_of keys.old.items span) }
{
    let start = span.start as usize;
    keys.extend_from_within(start..start + span.len as usize)?;
    Ok(())
}

/// Returns the update that withdraws all keys that this one withdraws, announces or reaches: copies of them, in this
/// order.
#[inline(never)]
fn withdrawing<F: Unicast>(
    keys: &mut Vec<RouteKey<Prefix<F>>>,
    bytes: &[u8],
    spans: &UpdateSpans,
) -> Result<UpdateSpans, Memory>
    requires { IsUpdateAt keys.old.items bytes.now spans.now }
    ensures exact { IfOk result (λ now. update_at keys.new.items bytes.now now
        ≡ handling.withdrawing (update_at keys.old.items bytes.now spans.now)) }
    ensures there { IfOk result (IsUpdateAt keys.new.items bytes.now) }
    ensures grown { OnOk result (IsGrown keys.old.items keys.new.items) }
{
    let start = keys.len();
    append_copies(keys, spans.withdrawn)?;
    append_copies(keys, spans.announced)?;
    append_copies(keys, spans.reached)?;
    let end = keys.len();
    Ok(UpdateSpans {
        withdrawn: Span::between(start, end)?,
        announced: Span::between(end, end)?,
        reached: Span::between(end, end)?,
        route: spans.route,
        reached_route: spans.reached_route,
    })
}

/// Whether the announcements of an update lack ORIGIN or AS_PATH, or those of its own field NEXT_HOP.
fn lacks_mandatory(spans: &UpdateSpans, bytes: &[u8]) -> bool
    requires { IsRouteAt bytes.now spans.now.route }
    ensures { (keys : List RouteKeyValue) → IsUpdateAt keys bytes.now spans.now →
        result ≡ handling.lacks_mandatory (update_at keys bytes.now spans.now) }
{
    let route = spans.route.route(bytes).route;
    let announces = !spans.announced.is_empty();
    let reaches = !spans.reached.is_empty();
    ((announces | reaches) & (route.origin().is_none() | route.path().is_none()))
        | (announces & route.next_hop().is_none())
}

/// Returns the update, or the one that withdraws all its keys.
fn withdrawing_if<F: Unicast>(
    keys: &mut Vec<RouteKey<Prefix<F>>>,
    bytes: &[u8],
    withdraws: bool,
    spans: UpdateSpans,
) -> Result<UpdateSpans, Memory>
    requires { IsUpdateAt keys.old.items bytes.now spans }
    ensures exact { IfOk result (λ now. update_at keys.new.items bytes.now now
        ≡ handling.withdrawing_if withdraws (update_at keys.old.items bytes.now spans)) }
    ensures there { IfOk result (IsUpdateAt keys.new.items bytes.now) }
    ensures grown { OnOk result (IsGrown keys.old.items keys.new.items) }
{
    if withdraws {
        return withdrawing(keys, bytes, &spans);
    }
    Ok(spans)
}

/// Returns what an undamaged update is taken as: where damage is handled and its announcements lack what they must
/// have, all its keys are withdrawn instead.
pub fn taken_update<F: Unicast>(
    keys: &mut Vec<RouteKey<Prefix<F>>>,
    bytes: &[u8],
    errors: ErrorRule,
    spans: UpdateSpans,
) -> Result<UpdateSpans, Memory>
    requires { IsUpdateAt keys.old.items bytes.now spans }
    ensures exact { IfOk result (λ now. update_at keys.new.items bytes.now now
        ≡ taken_update errors (update_at keys.old.items bytes.now spans)) }
    ensures there { IfOk result (IsUpdateAt keys.new.items bytes.now) }
    ensures grown { OnOk result (IsGrown keys.old.items keys.new.items) }
{
    let withdraws = errors.is_handling() && lacks_mandatory(&spans, bytes);
    withdrawing_if(keys, bytes, withdraws, spans)
}

/// A damaged UPDATE whose keys can be read: how many were appended, and what is kept of its attributes.
#[derive(Drop)]
struct HandledUpdate<'a> {
    appended: AppendedKeys<'a>,
    values: SoundValues<'a>,
}

/// Appends the keys of a damaged UPDATE to other ones, and keeps the values of its attributes.
fn append_recovered<'a, F: Unicast>(
    keys: &mut Vec<RouteKey<Prefix<F>>>,
    body: &'a [u8],
    asked: AttributeSet,
    errors: ErrorRule,
    width: Width,
    add_path: bool,
) -> Result<HandledUpdate<'a>, AttrError>
    ensures said { IfOk result (λ u. AreHandledKeys keys.old.items keys.new.items u.appended
        (kept_route width u.values.first (values_asked u.values.asked)) u.values.grave
        (recovered_update errors (route_rules_of F.family asked) width add_path body.now)) }
    ensures fault { IfErr result (λ e.
        FailsIfAny e (recovered_update errors (route_rules_of F.family asked) width add_path body.now)) }
    ensures grown { IsGrown keys.old.items keys.new.items }
    ensures packable { IfOk result (λ u. CanPackKept width u.values.first) }
    ensures places { IfOk result (λ u. HasPlaces u.values) }
    ensures short { IfOk result (λ u. AreShort u.values.asked) }
{
    let fields = fields_in(body)?;
    let start = keys.len();
    append_own_keys(keys, fields.withdrawn, add_path)?;
    let context = AttributeContext::Message { add_path };
    let values = keep_sound::<F>(asked, errors, context, width, fields.attributes)?;
    let appended = append_behind(
        keys,
        fields.announced,
        Ok(()),
        &values.first,
        start,
        add_path,
    )?;
    Ok(HandledUpdate { appended, values })
}

/// The same, if the rules handle damage.
fn append_handled<'a, F: Unicast>(
    keys: &mut Vec<RouteKey<Prefix<F>>>,
    body: &'a [u8],
    rules: Rules<F>,
    width: Width,
    add_path: bool,
) -> Result<HandledUpdate<'a>, AttrError>
    ensures said { IfOk result (λ u. AreHandledKeys keys.old.items keys.new.items u.appended
        (kept_route width u.values.first (values_asked u.values.asked)) u.values.grave
        (handled_update rules.errors (route_rules rules) width add_path body.now)) }
    ensures fault { IfErr result (λ e.
        FailsIfAny e (handled_update rules.errors (route_rules rules) width add_path body.now)) }
    ensures grown { IsGrown keys.old.items keys.new.items }
    ensures packable { IfOk result (λ u. CanPackKept width u.values.first) }
    ensures places { IfOk result (λ u. HasPlaces u.values) }
    ensures short { IfOk result (λ u. AreShort u.values.asked) }
{
    let errors = rules.errors();
    if !errors.is_handling() {
        return Err(AttrError::Bad(Fault::ShortAttribute));
    }
    append_recovered(keys, body, rules.kept(), errors, width, add_path)
}

/// Decodes what is done about a damaged UPDATE, and appends its keys and the packed bytes of its routes to other ones;
/// values that are kept are written over what is in `block` first. `Bad` if nothing is done about it: damage is
/// skipped, or its fields or keys can't be read.
pub fn decode_handled_update<F: Unicast>(
    alloc: Global,
    keys: &mut Vec<RouteKey<Prefix<F>>>,
    bytes: &mut Vec<u8>,
    block: &mut Vec<u8>,
    body: &[u8],
    rules: Rules<F>,
    width: Width,
    add_path: bool,
) -> Result<UpdateSpans, AttrError>
    ensures exact { GivesIfAny (update_at keys.new.items bytes.new.items) result
        (handled_update rules.errors (route_rules rules) width add_path body.now) }
    ensures there { IfOk result (IsUpdateAt keys.new.items bytes.new.items) }
    ensures keys { UnlessMemory result (IsGrown keys.old.items keys.new.items) }
    ensures bytes { UnlessMemory result (IsGrown bytes.old.items bytes.new.items) }
{
    let start = keys.len();
    let damaged = append_handled(keys, body, rules, width, add_path)?;
    let kept = kept_in(block, &damaged.values.asked)?;
    let route = pack_values(alloc, bytes, &damaged.values.first, width, &kept)?;
    let reached_route = pack_reached(
        alloc,
        bytes,
        &damaged.values.first,
        width,
        &kept,
        &damaged.appended,
    )?;
    let spans = spans_of(start, &damaged.appended, route, reached_route)?;
    let withdraws = damaged.values.grave | lacks_mandatory(&spans, bytes.as_slice());
    let handled = withdrawing_if(keys, bytes.as_slice(), withdraws, spans)?;
    Ok(handled)
}

/// Keeps the values of the damaged attributes of a RIB entry, if not more is wrong than what is discarded.
fn keep_recovered<'a, F: Unicast>(
    attrs: &'a [u8],
    asked: AttributeSet,
    errors: ErrorRule,
    width: Width,
) -> Result<SoundValues<'a>, Fault>
    ensures exact { IfOk result (λ s. recovered_route errors (route_rules_of F.family asked) width attrs.now
        ≡ Ok (kept_entry_route F.family width s.first (values_asked s.asked))) }
    ensures fault { IfErr result (λ fault.
        is_err (recovered_route errors (route_rules_of F.family asked) width attrs.now) ≡ true) }
    ensures packable { IfOk result (λ s. CanPackKept width s.first) }
    ensures places { IfOk result HasPlaces }
    ensures short { IfOk result (λ s. AreShort s.asked) }
{
    let values = keep_sound::<F>(asked, errors, AttributeContext::RibEntry, width, attrs)?;
    if values.grave {
        return Err(Fault::ShortAttribute);
    }
    Ok(values)
}

/// The same, if the rules handle damage: the entry announces its key with the route of these values.
fn keep_handled<'a, F: Unicast>(
    attrs: &'a [u8],
    rules: Rules<F>,
    width: Width,
) -> Result<SoundValues<'a>, Fault>
    ensures exact { IfOk result (λ s. (key : RouteKeyValue) →
        handled_entry rules.errors (route_rules rules) width key attrs.now
        ≡ Ok (announcing key (kept_entry_route F.family width s.first (values_asked s.asked)))) }
    ensures fault { IfErr result (λ fault. (key : RouteKeyValue) →
        is_err (handled_entry rules.errors (route_rules rules) width key attrs.now) ≡ true) }
    ensures packable { IfOk result (λ s. CanPackKept width s.first) }
    ensures places { IfOk result HasPlaces }
    ensures short { IfOk result (λ s. AreShort s.asked) }
{
    let errors = rules.errors();
    if !errors.is_handling() {
        return Err(Fault::ShortAttribute);
    }
    keep_recovered::<F>(attrs, rules.kept(), errors, width)
}

/// Decodes what is done about the damaged attributes of a RIB entry: an update that announces its key. `Bad` if nothing
/// is done about it.
pub fn decode_handled_entry<F: Unicast>(
    alloc: Global,
    keys: &mut Vec<RouteKey<Prefix<F>>>,
    bytes: &mut Vec<u8>,
    block: &mut Vec<u8>,
    key: RouteKey<Prefix<F>>,
    attrs: &[u8],
    rules: Rules<F>,
    width: Width,
) -> Result<UpdateSpans, AttrError>
    ensures exact { GivesIfAny (update_at keys.new.items bytes.new.items) result
        (handled_entry rules.errors (route_rules rules) width key attrs.now) }
    ensures there { IfOk result (IsUpdateAt keys.new.items bytes.new.items) }
    ensures keys { UnlessMemory result (IsGrown keys.old.items keys.new.items) }
    ensures bytes { UnlessMemory result (IsGrown bytes.old.items bytes.new.items) }
{
    let values = keep_handled(attrs, rules, width)?;
    let kept = kept_in(block, &values.asked)?;
    let route = pack_entry::<F>(alloc, bytes, &values.first, width, &kept)?;
    let start = keys.len();
    keys.push(key)?;
    let end = keys.len();
    Ok(UpdateSpans {
        withdrawn: Span::between(start, start)?,
        announced: Span::between(start, end)?,
        reached: Span::between(end, end)?,
        route,
        reached_route: None,
    })
}

impl<F: Unicast> Update<Prefix<F>> {
    /// Whether its announcements lack ORIGIN or AS_PATH, or those of its own field NEXT_HOP.
    fn lacks_mandatory(&self) -> bool
        ensures { result ≡ handling.lacks_mandatory self.now }
    {
        let announces = !self.announced.as_slice().is_empty();
        let reaches = !self.reached.as_slice().is_empty();
        ((announces || reaches) && (self.route.origin.is_none() || self.route.path.is_none()))
            || (announces && self.route.next_hop.is_none())
    }

    /// Returns the update, or the one that withdraws all its keys.
    fn withdrawing_if(self, alloc: Global, withdraws: bool) -> Result<Update<Prefix<F>>, Memory>
        ensures { IfOk result (λ u. u ≡ handling.withdrawing_if withdraws self) }
    {
        if !withdraws {
            return Ok(self);
        }
        let mut keys = Vec::new(alloc);
        copy_keys(&mut keys, self.withdrawn.as_slice())?;
        copy_keys(&mut keys, self.announced.as_slice())?;
        copy_keys(&mut keys, self.reached.as_slice())?;
        Ok(Update {
            withdrawn: Sequence::from_vec(keys),
            announced: Sequence::from_vec(Vec::new(alloc)),
            reached: Sequence::from_vec(Vec::new(alloc)),
            route: self.route,
            reached_hop: self.reached_hop,
        })
    }

    /// Returns what an undamaged update is taken as: where damage is handled and its announcements lack what they must
    /// have, all its keys are withdrawn instead.
    pub fn taken_by(self, alloc: Global, errors: ErrorRule) -> Result<Update<Prefix<F>>, Memory>
        ensures { IfOk result (λ u. u ≡ taken_update errors self) }
    {
        let withdraws = errors.is_handling() && self.lacks_mandatory();
        self.withdrawing_if(alloc, withdraws)
    }
}

/// Reads what is done about a damaged UPDATE, as `decode_handled_update` does.
pub fn read_handled_update<F: Unicast>(
    alloc: Global,
    body: &[u8],
    rules: Rules<F>,
    width: Width,
    add_path: bool,
) -> Result<Update<Prefix<F>>, AttrError>
    ensures exact { GivesIfAny (λ u. u) result
        (handled_update rules.errors (route_rules rules) width add_path body.now) }
    ensures writable { IfOk result (λ update. IsWritable update.route.path) }
{
    let mut keys = Vec::new(alloc);
    let damaged = append_handled(&mut keys, body, rules, width, add_path)?;
    let block = kept_block(alloc, &damaged.values.asked)?;
    let route = route_from(alloc, &damaged.values.first, width, block)?;
    let update = update_of(alloc, keys.as_slice(), &damaged.appended, route)?;
    let withdraws = damaged.values.grave | update.lacks_mandatory();
    let handled = update.withdrawing_if(alloc, withdraws)?;
    Ok(handled)
}

/// Returns the update that announces a key.
fn announcing<F: Unicast>(
    alloc: Global,
    key: RouteKey<Prefix<F>>,
    route: Route,
) -> Result<Update<Prefix<F>>, Memory>
    ensures { IfOk result (λ u. u ≡ handling.announcing key route) }
{
    let mut announced = Vec::new(alloc);
    announced.push(key)?;
    Ok(Update {
        withdrawn: Sequence::from_vec(Vec::new(alloc)),
        announced: Sequence::from_vec(announced),
        reached: Sequence::from_vec(Vec::new(alloc)),
        route,
        reached_hop: None,
    })
}

/// Reads what is done about the damaged attributes of a RIB entry, as `decode_handled_entry` does.
pub fn read_handled_entry<F: Unicast>(
    alloc: Global,
    key: RouteKey<Prefix<F>>,
    attrs: &[u8],
    rules: Rules<F>,
    width: Width,
) -> Result<Update<Prefix<F>>, AttrError>
    ensures exact { GivesIfAny (λ u. u) result (handled_entry rules.errors (route_rules rules) width key attrs.now) }
    ensures writable { IfOk result (λ update. IsWritable update.route.path) }
{
    let values = keep_handled(attrs, rules, width)?;
    let block = kept_block(alloc, &values.asked)?;
    let route = entry_route::<F>(alloc, &values.first, width, block)?;
    let update = announcing(alloc, key, route)?;
    Ok(update)
}
