//! What payloads mean (RFC 4271, 4.1 to 4.3).

ghost use Rattle.std.specs.Prelude.{◌≡◌, IfOk, Ok};
ghost use Rattle.bgp_prefix.specs.Prefixes.{IpPrefix};
ghost use Rattle.bgp_update.specs.Families.{route_rules};
ghost use Rattle.bgp_update.specs.Handling.{handled_update};
ghost use Rattle.bgp_update.specs.Results.{Gives};
ghost use Rattle.bgp_update.specs.Updates.{update_in};
ghost use Rattle.peer_units.specs.Events.{
  IsEntryEvent,
  IsEvent,
  IsMessageEvent,
  IsWritableEvent,
  entry_event_in,
  event_in,
  message_event_in,
  update_event,
};

use crate::meaning::Event;
use crate::message::message_in;
use crate::unit::{Payload, PayloadOf};
use crate::unit_ref::PayloadRef;
use bgp_prefix::{Prefix, RouteKey};
use bgp_update::{
    AttrError, Rules, Unicast, Width, read_attrs, read_handled_entry, read_handled_update,
    read_update,
};
use std::alloc::Global;

/// The type of an UPDATE message.
pub(crate) const UPDATE: u8 = 2;

/// Returns the event of an UPDATE.
fn update_event<F: Unicast>(
    alloc: Global,
    rules: Rules<F>,
    body: &[u8],
    width: Width,
    add_path: bool,
) -> Result<Event<Prefix<F>>, AttrError>
    ensures exact { Gives (λ e. e) result (update_event rules.errors
        (update_in (route_rules rules) width add_path body.now)
        (handled_update rules.errors (route_rules rules) width add_path body.now)) }
    ensures writable { IfOk result IsWritableEvent }
{
    let fault = match read_update::<F>(alloc, body, rules.kept(), width, add_path) {
        Ok(update) => match update.taken_by(alloc, rules.errors()) {
            Ok(taken) => return Ok(Event::Change(taken)),
            Err(_) => return Err(AttrError::Memory),
        },
        Err(AttrError::Bad(fault)) => fault,
        Err(AttrError::Memory) => return Err(AttrError::Memory),
    };
    match read_handled_update(alloc, body, rules, width, add_path) {
        Ok(update) => Ok(Event::Handled(fault, update)),
        Err(AttrError::Bad(_)) => Err(AttrError::Bad(fault)),
        Err(AttrError::Memory) => Err(AttrError::Memory),
    }
}

/// Reads a message.
#[tactic(auto, unfolding(crate::specs::Events::message_event_in))]
fn read_message<F: Unicast>(
    alloc: Global,
    rules: Rules<F>,
    bytes: &[u8],
    width: Width,
    add_path: bool,
) -> Result<Event<Prefix<F>>, AttrError>
    ensures exact { Gives (λ e. e) result
        (message_event_in rules.errors (route_rules rules) width add_path bytes.now) }
    ensures writable { IfOk result IsWritableEvent }
{
    let (kind, body) = match message_in(bytes) {
        Ok(message) => message,
        Err(fault) => return Err(AttrError::Bad(fault)),
    };
    if kind != UPDATE {
        return Ok(Event::Other);
    }
    update_event(alloc, rules, body, width, add_path)
}

/// Returns the event of a message.
fn message_event<F: Unicast>(
    alloc: Global,
    rules: Rules<F>,
    bytes: &[u8],
    width: Width,
    add_path: bool,
) -> Result<Event<Prefix<F>>, AttrError>
    ensures found { IfOk result (IsMessageEvent rules.errors (route_rules rules) width add_path bytes.now) }
    ensures only { (e : Event IpPrefix) → IsMessageEvent rules.errors (route_rules rules) width add_path bytes.now e →
        Gives (λ e. e) result (Ok e) }
    ensures exact { Gives (λ e. e) result
        (message_event_in rules.errors (route_rules rules) width add_path bytes.now) }
    ensures writable { IfOk result IsWritableEvent }
{
    read_message(alloc, rules, bytes, width, add_path)
}

/// Reads a RIB entry.
fn read_entry<F: Unicast>(
    alloc: Global,
    rules: Rules<F>,
    key: RouteKey<Prefix<F>>,
    attrs: &[u8],
) -> Result<Event<Prefix<F>>, AttrError>
    ensures exact { Gives (λ e. e) result
        (entry_event_in rules.errors (route_rules rules) rules.entry_width key attrs.now) }
    ensures writable { IfOk result IsWritableEvent }
{
    let width = rules.entry_width();
    let fault = match read_attrs::<F>(alloc, attrs, rules.kept(), width) {
        Ok(route) => return Ok(Event::Rib(key, route)),
        Err(AttrError::Bad(fault)) => fault,
        Err(AttrError::Memory) => return Err(AttrError::Memory),
    };
    match read_handled_entry(alloc, key, attrs, rules, width) {
        Ok(update) => Ok(Event::Handled(fault, update)),
        Err(AttrError::Bad(_)) => Err(AttrError::Bad(fault)),
        Err(AttrError::Memory) => Err(AttrError::Memory),
    }
}

/// Returns the event of a RIB entry.
fn entry_event<F: Unicast>(
    alloc: Global,
    rules: Rules<F>,
    key: RouteKey<Prefix<F>>,
    attrs: &[u8],
) -> Result<Event<Prefix<F>>, AttrError>
    ensures found { IfOk result (IsEntryEvent rules.errors (route_rules rules) rules.entry_width key attrs.now) }
    ensures only { (e : Event IpPrefix) → IsEntryEvent rules.errors (route_rules rules) rules.entry_width key attrs.now e →
        Gives (λ e. e) result (Ok e) }
    ensures exact { Gives (λ e. e) result
        (entry_event_in rules.errors (route_rules rules) rules.entry_width key attrs.now) }
    ensures writable { IfOk result IsWritableEvent }
{
    read_entry(alloc, rules, key, attrs)
}

/// Returns the one event of a payload, or its first fault in the order of checks. A fault means that the unit is
/// damaged and changes no route, since the rule on damage does nothing about it.
pub fn event<F: Unicast>(
    alloc: Global,
    payload: &PayloadOf<F>,
) -> Result<Event<Prefix<F>>, AttrError>
    // The event that is returned is the payload's meaning.
    ensures found { IfOk result (IsEvent payload.now) }
    // A meaning of the payload is returned, unless memory runs out.
    ensures only { (e : Event IpPrefix) → IsEvent payload.now e → Gives (λ e. e) result (Ok e) }
    // Which fault it is.
    ensures exact { Gives (λ e. e) result (event_in payload.now) }
    // Its route can be packed.
    ensures writable { IfOk result IsWritableEvent }
{
    whole_event(alloc, &payload.as_ref())
}

#[tactic(auto, unfolding(crate::specs::Events::event_in))]
fn whole_event<F: Unicast>(
    alloc: Global,
    payload: &PayloadRef<'_, F>,
) -> Result<Event<Prefix<F>>, AttrError>
    ensures found { IfOk result (IsEvent payload.now) }
    ensures only { (e : Event IpPrefix) → IsEvent payload.now e → Gives (λ e. e) result (Ok e) }
    ensures exact { Gives (λ e. e) result (event_in payload.now) }
    ensures writable { IfOk result IsWritableEvent }
{
    match payload {
        Payload::State { from, to, rule } => Ok(Event::State(*from, *to, *rule)),
        Payload::Message {
            bytes,
            width,
            add_path,
            rules,
        } => message_event(alloc, *rules, bytes.as_slice(), *width, *add_path),
        Payload::Entry { key, attrs, rules } => entry_event(alloc, *rules, *key, attrs.as_slice()),
        Payload::Clear => Ok(Event::Clear),
    }
}
