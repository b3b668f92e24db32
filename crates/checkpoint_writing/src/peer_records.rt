//! The index table, and what is written of each peer beside its entries: a state change, and UPDATEs.

ghost use Rattle.std.specs.Prelude.{◌≡◌, ◌^◌, ◌<◌, length, map, IfOk, OnOk};
ghost use Rattle.std.specs.List.{flat_map};
ghost use Rattle.mrt_writing.specs.Records.{record_bytes};
ghost use Rattle.mrt_writing.specs.Dumps.{index_record};
ghost use Rattle.peer_tables.specs.Seats.{seat_of};
ghost use Rattle.table_dumps.specs.Dumped.{is_as};
ghost use Rattle.checkpoint_writing.specs.Dumping.{Grows};
ghost use Rattle.checkpoint_writing.specs.Leaving.{state_bytes, update_bytes_of, updates_bytes};

use crate::listing::{Attributes, is_entry};
use crate::waiting::put_record;
use adj_rib::{RouteId, Session};
use bgp_prefix::{Memory, Prefix, PrefixMap, RouteKey};
use bgp_update::RouteRef;
use mrt_frame::{ReplayError, Sink};
use mrt_writing::{
    RecordKind, WideAddress, push_index, push_state_change, push_update, push_update_attributes,
};
use peer_tables::Seated;
use peer_units::{PeerKey, StateRule};
use std::alloc::Global;

/// The peers of these seats.
fn keys_of<M: PrefixMap<RouteId>>(
    alloc: Global,
    seats: &[Seated<M>],
) -> Result<Vec<PeerKey>, Memory>
    ensures { IfOk result (λ keys. keys.items ≡ map (λ s. s.key) seats.now) }
{
    let key = |seat: &Seated<M>| seat.key;
    Ok(seats.iter().map(key).collect(alloc)?)
}

/// Adds the index table.
pub(crate) fn put_index<F: WideAddress, M: PrefixMap<RouteId, Addr = F>, W: Sink>(
    alloc: Global,
    out: &mut W,
    waiting: &mut Vec<u8>,
    seconds: u32,
    seats: &[Seated<M>],
) -> Result<(), ReplayError>
    requires { length seats.now < 256 ^ 2 }
    ensures { OnOk result (Grows (W.contents out.old) waiting.old.items (W.contents out.new) waiting.new.items
        (record_bytes (index_record F.family seconds (map (λ s. s.key) seats.now)))) }
{
    let keys = keys_of(alloc, seats)?;
    let mut body = Vec::new(alloc);
    push_index(&mut body, keys.as_slice())?;
    put_record::<F, W>(
        out,
        waiting,
        seconds,
        RecordKind::PeerIndexTable,
        &[],
        body.as_slice(),
    )
}

/// Whether a peer counts as up: its session, where state changes are taken by `Established`.
fn is_as<F: WideAddress, M: PrefixMap<RouteId, Addr = F>>(
    rule: StateRule,
    session: &Session<M>,
) -> bool
    ensures { result ≡ is_as rule session.now.up session.now.established }
{
    match rule {
        StateRule::Recorded => session.is_up(),
        StateRule::Established => session.is_established(),
    }
}

/// Adds a peer's state change.
fn put_state<F: WideAddress, M: PrefixMap<RouteId, Addr = F>, W: Sink>(
    out: &mut W,
    waiting: &mut Vec<u8>,
    body: &mut Vec<u8>,
    seconds: u32,
    rule: StateRule,
    seat: &Seated<M>,
) -> Result<(), ReplayError>
    ensures { OnOk result (Grows (W.contents out.old) waiting.old.items (W.contents out.new) waiting.new.items
        (state_bytes rule F.family seconds (seat_of seat.now))) }
{
    body.clear();
    push_state_change(body, &seat.key, is_as(rule, &seat.session))?;
    put_record::<F, W>(
        out,
        waiting,
        seconds,
        RecordKind::StateChange,
        &[],
        body.as_slice(),
    )?;
    Ok(())
}

/// Adds the state changes of these peers.
pub(crate) fn put_states<F: WideAddress, M: PrefixMap<RouteId, Addr = F>, W: Sink>(
    alloc: Global,
    out: &mut W,
    waiting: &mut Vec<u8>,
    seconds: u32,
    rule: StateRule,
    seats: &[Seated<M>],
) -> Result<(), ReplayError>
    ensures { OnOk result (Grows (W.contents out.old) waiting.old.items (W.contents out.new) waiting.new.items
        (flat_map (λ s. state_bytes rule F.family seconds (seat_of s)) seats.now)) }
{
    let mut body = Vec::new(alloc);
    for seat in seats {
        put_state(out, waiting, &mut body, seconds, rule, seat)?;
    }
    Ok(())
}

/// Adds the UPDATE of a route that isn't an entry, unless it is too long.
fn put_update<F: WideAddress, W: Sink>(
    out: &mut W,
    waiting: &mut Vec<u8>,
    attributes: &mut Attributes,
    body: &mut Vec<u8>,
    seconds: u32,
    peer: &PeerKey,
    entry: &(RouteKey<Prefix<F>>, RouteRef<'_>),
) -> Result<(), ReplayError>
    ensures { OnOk result (Grows (W.contents out.old) waiting.old.items (W.contents out.new) waiting.new.items
        (update_bytes_of F.family seconds peer.now entry.now)) }
{
    let (key, route) = entry;
    if is_entry::<F>(route) {
        return Ok(());
    }
    let add_path = key.id != 0;
    attributes.field.clear();
    if !push_update_attributes(
        &mut attributes.field,
        &mut attributes.block,
        add_path,
        key,
        route,
    )? {
        return Ok(());
    }
    body.clear();
    push_update(body, peer, attributes.field.as_slice())?;
    put_record::<F, W>(
        out,
        waiting,
        seconds,
        RecordKind::Message { add_path },
        &[],
        body.as_slice(),
    )?;
    Ok(())
}

/// Adds the UPDATEs of these routes of a peer.
fn put_route_updates<F: WideAddress, W: Sink>(
    out: &mut W,
    waiting: &mut Vec<u8>,
    attributes: &mut Attributes,
    body: &mut Vec<u8>,
    seconds: u32,
    peer: &PeerKey,
    listed: &[(RouteKey<Prefix<F>>, RouteRef<'_>)],
) -> Result<(), ReplayError>
    ensures { OnOk result (Grows (W.contents out.old) waiting.old.items (W.contents out.new) waiting.new.items
        (flat_map (update_bytes_of F.family seconds peer.now) listed.now)) }
{
    for entry in listed {
        put_update(out, waiting, attributes, body, seconds, peer, entry)?;
    }
    Ok(())
}

/// Adds the UPDATEs of a peer.
fn put_seat_updates<F: WideAddress, M: PrefixMap<RouteId, Addr = F>, W: Sink>(
    alloc: Global,
    out: &mut W,
    waiting: &mut Vec<u8>,
    attributes: &mut Attributes,
    body: &mut Vec<u8>,
    seconds: u32,
    seat: &Seated<M>,
) -> Result<(), ReplayError>
    ensures { OnOk result (Grows (W.contents out.old) waiting.old.items (W.contents out.new) waiting.new.items
        (updates_bytes F.family seconds (seat_of seat.now))) }
{
    let listed = seat.session.table().entries(alloc)?;
    put_route_updates(
        out,
        waiting,
        attributes,
        body,
        seconds,
        &seat.key,
        listed.as_slice(),
    )?;
    Ok(())
}

/// Adds the UPDATEs of these peers.
pub(crate) fn put_updates<F: WideAddress, M: PrefixMap<RouteId, Addr = F>, W: Sink>(
    alloc: Global,
    out: &mut W,
    waiting: &mut Vec<u8>,
    attributes: &mut Attributes,
    seconds: u32,
    seats: &[Seated<M>],
) -> Result<(), ReplayError>
    ensures { OnOk result (Grows (W.contents out.old) waiting.old.items (W.contents out.new) waiting.new.items
        (flat_map (λ s. updates_bytes F.family seconds (seat_of s)) seats.now)) }
{
    let mut body = Vec::new(alloc);
    for seat in seats {
        put_seat_updates(alloc, out, waiting, attributes, &mut body, seconds, seat)?;
    }
    Ok(())
}
