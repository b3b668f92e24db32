//! What payloads mean, decoded one after another into blocks of memory that are used again.

ghost use Rattle.std.specs.Prelude.{◌≡◌, [], ◌∷◌, ◌++◌, List, IfOk, OnErr, OnOk};
ghost use Rattle.bgp_prefix.specs.Keys.{RouteKey as Key};
ghost use Rattle.bgp_update.specs.Decoded.{IsGrown};
ghost use Rattle.peer_units.specs.DecodedEvents.{IsEventAt, IsOneMore, event_at};
ghost use Rattle.bgp_update.specs.Families.{route_rules};
ghost use Rattle.bgp_update.specs.Values.{plain_rules};
ghost use Rattle.bgp_update.specs.declared.width.Width.TheVariants.{Four};
ghost use Rattle.bgp_update.specs.Handling.{handled_entry, handled_update};
ghost use Rattle.bgp_update.specs.declared.error_rule.ErrorRule.TheVariants.{Skip};
ghost use Rattle.peer_units.specs.Events.{damaged_event, entry_event_in, event_in, message_event_in};

use crate::event_ref::EventRef;
use crate::interpret::UPDATE;
use crate::message::message_in;
use crate::state_rule::StateRule;
use crate::unit::Payload;
use crate::unit_ref::PayloadRef;
use bgp_prefix::{Memory, Prefix, RouteKey};
use bgp_update::{
    AttrError, RouteSpan, Rules, Unicast, UpdateSpans, Width, decode_asked_entry,
    decode_asked_update, decode_entry, decode_handled_entry, decode_handled_update, decode_update,
    taken_update,
};
use mrt_frame::Fault;
use std::alloc::Global;
use std::marker::Model;

/// What a payload means, whose keys and routes are among others.
#[derive(Clone, Copy)]
pub(crate) enum DecodedEvent<P = Prefix> {
    Other,
    Clear,
    Damaged(Fault),
    State { rule: StateRule, from: u16, to: u16 },
    Rib { key: RouteKey<P>, route: RouteSpan },
    Change(UpdateSpans),
    Handled { fault: Fault, spans: UpdateSpans },
}

/// Decodes a message of which no attribute is asked for. Its keys and the packed bytes of its routes are appended to
/// other ones.
#[tactic(auto, unfolding(crate::specs::Events::message_event_in))]
fn decode_message<F: Unicast>(
    alloc: Global,
    keys: &mut Vec<RouteKey<Prefix<F>>>,
    bytes: &mut Vec<u8>,
    message: &[u8],
    width: Width,
    add_path: bool,
) -> Result<DecodedEvent<Prefix<F>>, Memory>
    ensures means { IfOk result (λ event. event_at keys.new.items bytes.new.items event
        ≡ message_event_in Skip (plain_rules F.family) width add_path message.now) }
    ensures there { IfOk result (IsEventAt keys.new.items bytes.new.items) }
    ensures keys { OnOk result (IsGrown keys.old.items keys.new.items) }
    ensures bytes { OnOk result (IsGrown bytes.old.items bytes.new.items) }
{
    let (kind, body) = match message_in(message) {
        Ok(parts) => parts,
        Err(fault) => return Ok(DecodedEvent::Damaged(fault)),
    };
    if kind != UPDATE {
        return Ok(DecodedEvent::Other);
    }
    match decode_update(alloc, keys, bytes, body, width, add_path) {
        Ok(spans) => Ok(DecodedEvent::Change(spans)),
        Err(AttrError::Bad(fault)) => Ok(DecodedEvent::Damaged(fault)),
        Err(AttrError::Memory) => Err(Memory),
    }
}

/// Decodes what is done about a damaged UPDATE of which this is the first fault, as `decode_message` does.
fn decode_damaged_update<F: Unicast>(
    alloc: Global,
    keys: &mut Vec<RouteKey<Prefix<F>>>,
    bytes: &mut Vec<u8>,
    kept: &mut Vec<u8>,
    rules: Rules<F>,
    body: &[u8],
    width: Width,
    add_path: bool,
    fault: Fault,
) -> Result<DecodedEvent<Prefix<F>>, Memory>
    ensures means { IfOk result (λ event. event_at keys.new.items bytes.new.items event
        ≡ damaged_event fault (handled_update rules.errors (route_rules rules) width add_path body.now)) }
    ensures there { IfOk result (IsEventAt keys.new.items bytes.new.items) }
    ensures keys { OnOk result (IsGrown keys.old.items keys.new.items) }
    ensures bytes { OnOk result (IsGrown bytes.old.items bytes.new.items) }
{
    match decode_handled_update(alloc, keys, bytes, kept, body, rules, width, add_path) {
        Ok(spans) => Ok(DecodedEvent::Handled { fault, spans }),
        Err(AttrError::Bad(_)) => Ok(DecodedEvent::Damaged(fault)),
        Err(AttrError::Memory) => Err(Memory),
    }
}

/// The same as `decode_message`, of a message of which attributes are asked for, or whose damage is handled.
#[tactic(auto, unfolding(crate::specs::Events::message_event_in))]
fn decode_asked_message<F: Unicast>(
    alloc: Global,
    keys: &mut Vec<RouteKey<Prefix<F>>>,
    bytes: &mut Vec<u8>,
    kept: &mut Vec<u8>,
    rules: Rules<F>,
    message: &[u8],
    width: Width,
    add_path: bool,
) -> Result<DecodedEvent<Prefix<F>>, Memory>
    ensures means { IfOk result (λ event. event_at keys.new.items bytes.new.items event
        ≡ message_event_in rules.errors (route_rules rules) width add_path message.now) }
    ensures there { IfOk result (IsEventAt keys.new.items bytes.new.items) }
    ensures keys { OnOk result (IsGrown keys.old.items keys.new.items) }
    ensures bytes { OnOk result (IsGrown bytes.old.items bytes.new.items) }
{
    let (kind, body) = match message_in(message) {
        Ok(parts) => parts,
        Err(fault) => return Ok(DecodedEvent::Damaged(fault)),
    };
    if kind != UPDATE {
        return Ok(DecodedEvent::Other);
    }
    match decode_asked_update(
        alloc,
        keys,
        bytes,
        kept,
        body,
        rules.kept(),
        width,
        add_path,
    ) {
        Ok(spans) => match taken_update(keys, bytes.as_slice(), rules.errors(), spans) {
            Ok(taken) => Ok(DecodedEvent::Change(taken)),
            Err(memory) => Err(memory),
        },
        Err(AttrError::Bad(fault)) => decode_damaged_update(
            alloc, keys, bytes, kept, rules, body, width, add_path, fault,
        ),
        Err(AttrError::Memory) => Err(Memory),
    }
}

/// Keeps one more event, or none at all without memory for it.
#[inline(always)]
fn keep<P: Drop>(events: &mut Vec<DecodedEvent<P>>, event: DecodedEvent<P>) -> Result<(), Memory>
    ensures kept { OnOk result (events.new.items ≡ events.old.items ++ event ∷ []) }
    ensures none { OnErr result (events.new.items ≡ []) }
{
    let Ok(()) = events.reserve(1) else {
        events.clear();
        return Err(Memory);
    };
    events.push_reserved(event);
    Ok(())
}

/// Decodes the attributes of a RIB entry (RFC 6396, 4.3.4) of which none is asked for, and keeps what it means behind
/// other events.
#[inline(always)]
fn keep_entry<F: Unicast>(
    alloc: Global,
    events: &mut Vec<DecodedEvent<Prefix<F>>>,
    bytes: &mut Vec<u8>,
    key: RouteKey<Prefix<F>>,
    attrs: &[u8],
) -> Result<(), Memory>
    ensures kept { OnOk result ((keys : List Key) → IsOneMore keys bytes.old.items events.old.items
        keys bytes.new.items events.new.items (entry_event_in Skip (plain_rules F.family) Four key attrs.now)) }
    ensures none { OnErr result (events.new.items ≡ []) }
{
    match decode_entry::<F>(alloc, bytes, attrs, Width::Four) {
        Ok(route) => keep(events, DecodedEvent::Rib { key, route }),
        Err(AttrError::Bad(fault)) => keep(events, DecodedEvent::Damaged(fault)),
        Err(AttrError::Memory) => {
            events.clear();
            Err(Memory)
        }
    }
}

/// Decodes what is done about the damaged attributes of a RIB entry of which this is the first fault.
fn decode_damaged_entry<F: Unicast>(
    alloc: Global,
    keys: &mut Vec<RouteKey<Prefix<F>>>,
    bytes: &mut Vec<u8>,
    kept: &mut Vec<u8>,
    rules: Rules<F>,
    key: RouteKey<Prefix<F>>,
    attrs: &[u8],
    fault: Fault,
) -> Result<DecodedEvent<Prefix<F>>, Memory>
    ensures means { IfOk result (λ event. event_at keys.new.items bytes.new.items event
        ≡ damaged_event fault (handled_entry rules.errors (route_rules rules) rules.entry_width key attrs.now)) }
    ensures there { IfOk result (IsEventAt keys.new.items bytes.new.items) }
    ensures keys { OnOk result (IsGrown keys.old.items keys.new.items) }
    ensures bytes { OnOk result (IsGrown bytes.old.items bytes.new.items) }
{
    let width = rules.entry_width();
    match decode_handled_entry(alloc, keys, bytes, kept, key, attrs, rules, width) {
        Ok(spans) => Ok(DecodedEvent::Handled { fault, spans }),
        Err(AttrError::Bad(_)) => Ok(DecodedEvent::Damaged(fault)),
        Err(AttrError::Memory) => Err(Memory),
    }
}

/// The same as `keep_entry`, of an entry of which attributes are asked for, or whose damage is handled.
fn keep_asked_entry<F: Unicast>(
    alloc: Global,
    events: &mut Vec<DecodedEvent<Prefix<F>>>,
    keys: &mut Vec<RouteKey<Prefix<F>>>,
    bytes: &mut Vec<u8>,
    kept: &mut Vec<u8>,
    rules: Rules<F>,
    key: RouteKey<Prefix<F>>,
    attrs: &[u8],
) -> Result<(), Memory>
    ensures kept { OnOk result (IsOneMore keys.old.items bytes.old.items events.old.items
        keys.new.items bytes.new.items events.new.items
        (entry_event_in rules.errors (route_rules rules) rules.entry_width key attrs.now)) }
    ensures none { OnErr result (events.new.items ≡ []) }
{
    match decode_asked_entry::<F>(alloc, bytes, kept, attrs, rules.kept(), rules.entry_width()) {
        Ok(route) => keep(events, DecodedEvent::Rib { key, route }),
        Err(AttrError::Bad(fault)) => {
            match decode_damaged_entry(alloc, keys, bytes, kept, rules, key, attrs, fault) {
                Ok(event) => keep(events, event),
                Err(memory) => {
                    events.clear();
                    Err(memory)
                }
            }
        }
        Err(AttrError::Memory) => {
            events.clear();
            Err(Memory)
        }
    }
}

/// The same as `keep_decoded`, where attributes may be asked for and damage handled. It is told to be seldom called, so
/// that the code where neither is asked for is laid out and inlined as if nobody asked.
#[cold]
#[tactic(auto, unfolding(crate::specs::Events::event_in))]
fn keep_asked<F: Unicast>(
    alloc: Global,
    events: &mut Vec<DecodedEvent<Prefix<F>>>,
    keys: &mut Vec<RouteKey<Prefix<F>>>,
    bytes: &mut Vec<u8>,
    kept: &mut Vec<u8>,
    payload: &PayloadRef<'_, F>,
) -> Result<(), Memory>
    ensures kept { OnOk result (IsOneMore keys.old.items bytes.old.items events.old.items
        keys.new.items bytes.new.items events.new.items (event_in payload.now)) }
    ensures none { OnErr result (events.new.items ≡ []) }
{
    match payload {
        Payload::State { from, to, rule } => {
            let (rule, from, to) = (*rule, *from, *to);
            keep(events, DecodedEvent::State { rule, from, to })
        }
        Payload::Message {
            bytes: message,
            width,
            add_path,
            rules,
        } => {
            let message = message.as_slice();
            match decode_asked_message(
                alloc, keys, bytes, kept, *rules, message, *width, *add_path,
            ) {
                Ok(event) => keep(events, event),
                Err(memory) => {
                    events.clear();
                    Err(memory)
                }
            }
        }
        Payload::Entry { rules, key, attrs } => {
            let attrs = attrs.as_slice();
            keep_asked_entry(alloc, events, keys, bytes, kept, *rules, *key, attrs)
        }
        Payload::Clear => keep(events, DecodedEvent::Clear),
    }
}

/// Decodes a payload, and keeps what it means behind other events. Each kind is kept by itself, since in common with
/// the others all fields of all kinds would be moved.
#[inline(always)]
#[tactic(auto, unfolding(crate::specs::Events::event_in))]
fn keep_decoded<F: Unicast>(
    alloc: Global,
    events: &mut Vec<DecodedEvent<Prefix<F>>>,
    keys: &mut Vec<RouteKey<Prefix<F>>>,
    bytes: &mut Vec<u8>,
    kept: &mut Vec<u8>,
    payload: &PayloadRef<'_, F>,
) -> Result<(), Memory>
    ensures kept { OnOk result (IsOneMore keys.old.items bytes.old.items events.old.items
        keys.new.items bytes.new.items events.new.items (event_in payload.now)) }
    ensures none { OnErr result (events.new.items ≡ []) }
{
    match payload {
        Payload::State { from, to, rule } => {
            let (rule, from, to) = (*rule, *from, *to);
            keep(events, DecodedEvent::State { rule, from, to })
        }
        Payload::Message {
            bytes: message,
            width,
            add_path,
            rules,
        } => {
            if !rules.is_plain() {
                return keep_asked(alloc, events, keys, bytes, kept, payload);
            }
            let message = message.as_slice();
            match decode_message(alloc, keys, bytes, message, *width, *add_path) {
                Ok(event) => keep(events, event),
                Err(memory) => {
                    events.clear();
                    Err(memory)
                }
            }
        }
        Payload::Entry { rules, key, attrs } => {
            if !rules.is_plain() {
                return keep_asked(alloc, events, keys, bytes, kept, payload);
            }
            keep_entry(alloc, events, bytes, *key, attrs.as_slice())
        }
        Payload::Clear => keep(events, DecodedEvent::Clear),
    }
}

/// What payloads mean, in order, each decoded once: contracts see the list of their events and faults. The keys and the
/// packed bytes of the routes are in one block of memory each.
#[derive(Drop)]
pub struct DecodedEvents<F: Unicast = u32> {
    events: Vec<DecodedEvent<Prefix<F>>>,
    keys: Vec<RouteKey<Prefix<F>>>,
    bytes: Vec<u8>,
    /// What the route that was packed last keeps, if attributes are asked for.
    kept: Vec<u8>,
}

impl<F: Unicast> Model for DecodedEvents<F> {
    ghost use Rattle.std.specs.Prelude.{List, Result};
    ghost use Rattle.mrt_frame.specs.declared.fault.Fault.{Fault};
    ghost use Rattle.peer_units.specs.Plain.{Event};
    ghost use Rattle.peer_units.specs.DecodedEvents.{AreEventsAt, events_at};

    ghost Value = { List (Result Event Fault) };

    ghost view = { λ d. events_at d.keys.items d.bytes.items d.events.items };

    ghost invariant = { λ d. AreEventsAt d.keys.items d.bytes.items d.events.items };
}

impl<F: Unicast> DecodedEvents<F> {
    ghost use Rattle.std.specs.Prelude.{◌≡◌, ◌<◌, [], ◌∷◌, ◌++◌, OnOk, length, slice_index_or};
    ghost use Rattle.peer_units.specs.DecodedEvents.{event_of};
    ghost use Rattle.peer_units.specs.Events.{event_in};

    /// Returns no events. Allocates nothing.
    pub fn new(alloc: Global) -> DecodedEvents<F>
        ensures { result ≡ [] }
    {
        DecodedEvents {
            events: Vec::new(alloc),
            keys: Vec::new(alloc),
            bytes: Vec::new(alloc),
            kept: Vec::new(alloc),
        }
    }

    /// How many there are.
    pub fn len(&self) -> usize
        ensures { result ≡ length self.now }
    {
        self.events.len()
    }

    /// Removes all. Their memory stays for other ones.
    pub fn clear(&mut self)
        ensures { self.new ≡ [] }
    {
        self.events.clear();
        self.keys.clear();
        self.bytes.clear();
    }

    /// Adds what a payload means, or its first fault, as `event` has it. After an `Err` others may be gone.
    // Inlined, since for a call the payload would be kept in memory.
    #[inline(always)]
    pub fn push(&mut self, alloc: Global, payload: &PayloadRef<'_, F>) -> Result<(), Memory>
        ensures { OnOk result (self.new ≡ self.old ++ event_in payload.now ∷ []) }
    {
        keep_decoded(
            alloc,
            &mut self.events,
            &mut self.keys,
            &mut self.bytes,
            &mut self.kept,
            payload,
        )
    }

    /// What the payload at an index means.
    #[inline(always)]
    pub fn at(&self, at: usize) -> EventRef<'_, Prefix<F>>
        requires { at < length self.now }
        ensures { (d : _) → slice_index_or self.now at d ≡ event_of result }
    {
        match self.events[at] {
            DecodedEvent::Other => EventRef::Other,
            DecodedEvent::Clear => EventRef::Clear,
            DecodedEvent::Damaged(fault) => EventRef::Damaged(fault),
            DecodedEvent::State { rule, from, to } => EventRef::State(from, to, rule),
            DecodedEvent::Rib { key, route } => {
                EventRef::Rib(key, route.route(self.bytes.as_slice()))
            }
            DecodedEvent::Change(spans) => {
                EventRef::Change(spans.update(self.keys.as_slice(), self.bytes.as_slice()))
            }
            DecodedEvent::Handled { fault, spans } => EventRef::Handled(
                fault,
                spans.update(self.keys.as_slice(), self.bytes.as_slice()),
            ),
        }
    }

    /// The route that a session which takes the event at an index will look for first, if there is one: for prefetching
    /// alone.
    #[inline(always)]
    pub fn first_route(&self, at: usize) -> Option<RouteSpan> {
        match self.events.get(at) {
            Some(DecodedEvent::Rib { key: _, route }) => Some(*route),
            Some(DecodedEvent::Change(spans)) => spans.first_route(),
            Some(DecodedEvent::Handled { fault: _, spans }) => spans.first_route(),
            _ => None,
        }
    }
}
