//! The sessions of one lane, by the peers' numbers.

ghost use Rattle.std.specs.Prelude.{◌≡◌, ◌<◌, ℕ, Some, false, length, map, slice_get, slice_index_or, IfOk, IfSome, OnOk, IsTrue, MatchOption, true, ◌==◌};
ghost use Rattle.std.specs.List.{list_any};
ghost use Rattle.peer_units.specs.DecodedEvents.{Means, event_of};
ghost use Rattle.peer_units.specs.Plain.{Unit as ReplayUnit};
ghost use Rattle.peer_tables.specs.Seats.{seat_of};
ghost use Rattle.unit_rings.specs.DecodedUnitLists.{IsDecodedAt};
ghost use Rattle.unit_rings.specs.Plain.{PeerUnit};
ghost use Rattle.lane_deal.specs.Seating.{AreIndexed, SeatFor, TakenAt};

use crate::sessions::Sessions;
use adj_rib::{RouteId, Session};
use bgp_prefix::{Memory, Prefix, PrefixMap};
use bgp_update::Unicast;
use peer_tables::Seated;
use peer_units::{EventRef, PeerKey};
use std::alloc::Global;
use std::mem;
use unit_rings::{DecodedUnits, UnitHead};

/// For how many units of a list routes are prefetched: as many as a list usually has.
const MOST_NEAR: usize = 32;

/// The sessions of one lane, in the order in which their peers first appeared.
#[derive(Drop)]
pub struct Seats<M: PrefixMap<RouteId>> {
    pub seats: Vec<Seated<M>>,
    /// The position of each session, by its peer's number.
    positions: Vec<Option<usize>>,
    /// Whether every session is found by its position: not those that were handed back.
    is_indexed: bool,
    /// The last value that prefetching read. It has no meaning.
    prefetched: usize,
    ghost indexed: { IsTrue is_indexed → AreIndexed positions.items (map (λ seat. seat.number) seats.items) },
}

/// Returns the position of this number's session, found by a linear scan.
#[inline(never)]
fn scan<M: PrefixMap<RouteId>>(seats: &[Seated<M>], number: usize) -> Option<usize>
    ensures { MatchOption result
        (list_any (λ s. s.number == number) (map seat_of seats.now) ≡ false) (λ at. (at < length seats.now) ×
        ((d : _) → (slice_index_or (map seat_of seats.now) at d).number ≡ number)) }
{
    for (at, seat) in seats.iter().enumerate() {
        if seat.number == number {
            return Some(at);
        }
    }
    None
}

/// Whether this number's session is at that position.
#[inline(always)]
fn stands_at<M: PrefixMap<RouteId>>(seats: &[Seated<M>], at: usize, number: usize) -> bool
    ensures here { result ≡ true → (at < length seats.now) ×
        ((d : _) → (slice_index_or (map seat_of seats.now) at d).number ≡ number) }
    ensures elsewhere { slice_get (map (λ seat. seat.number) seats.now) at ≡ Some number → result ≡ true }
{
    at < seats.len() && seats[at].number == number
}

/// Records the position that this number's session will have.
fn remember(positions: &mut Vec<Option<usize>>, number: usize, at: usize) -> Result<(), Memory>
    ensures others { (other x : ℕ) → (other ≡ number → ⊥) → slice_get positions.old.items other ≡ Some (Some x) →
        slice_get positions.new.items other ≡ Some (Some x) }
    ensures own { OnOk result (slice_get positions.new.items number ≡ Some (Some at)) }
{
    while positions.len() < number {
        positions.push(None)?;
    }
    if number < positions.len() {
        positions[number] = Some(at);
        return Ok(());
    }
    positions.push(Some(at))?;
    Ok(())
}

impl<M: PrefixMap<RouteId>> Seats<M> {
    /// Returns the position recorded for this number.
    #[inline(always)]
    fn position_of(&self, number: usize) -> Option<usize>
        ensures { (at : ℕ) → slice_get self.now.positions.items number ≡ Some (Some at) → result ≡ Some at }
    {
        match self.positions.get(number) {
            Some(Some(at)) => Some(*at),
            _ => None,
        }
    }

    /// Returns the recorded position of this number's session, if the session is there.
    #[inline(always)]
    fn remembered(&self, number: usize) -> Option<usize>
        ensures here { IfSome result (λ at. (at < length self.now.seats.items) ×
            ((d : _) → (slice_index_or (map seat_of self.now.seats.items) at d).number ≡ number)) }
        ensures all { (at : ℕ) → slice_get self.now.positions.items number ≡ Some (Some at) →
            slice_get (map (λ seat. seat.number) self.now.seats.items) at ≡ Some number → result ≡ Some at }
    {
        let at = self.position_of(number)?;
        if stands_at(&self.seats, at, number) {
            Some(at)
        } else {
            None
        }
    }

    /// Returns the position of this number's session.
    #[inline(always)]
    fn find(&self, number: usize) -> Option<usize>
        ensures { MatchOption result
            (list_any (λ s. s.number == number)
            (map seat_of self.now.seats.items) ≡ false) (λ at. (at < length self.now.seats.items) ×
            ((d : _) → (slice_index_or (map seat_of self.now.seats.items) at d).number ≡ number)) }
    {
        if let Some(at) = self.remembered(number) {
            return Some(at);
        }
        if self.is_indexed {
            return None;
        }
        scan(&self.seats, number)
    }

    /// Exchanges the sessions for these.
    pub fn exchange(&mut self, given: Vec<Seated<M>>) -> Vec<Seated<M>>
        ensures given { self.new.seats ≡ given }
        ensures held { result ≡ self.old.seats }
    {
        self.is_indexed = false;
        mem::replace(&mut self.seats, given)
    }

    /// Returns the position of the session that probably takes a unit of the peer with this number.
    #[inline(always)]
    fn position_near(&self, number: usize) -> usize {
        match self.positions.get(number) {
            Some(Some(at)) => *at,
            _ => 0,
        }
    }

    /// Returns the session at this position, if there is one.
    fn seat_at(&self, at: usize) -> Option<&Seated<M>> {
        self.seats.get(at)
    }
}

impl<F: Unicast, M: PrefixMap<RouteId, Addr = F> + Drop> Seats<M> {
    /// Makes a session for this number, after the others. It is seldom needed, and its locals are no part of the
    /// worker's loop.
    #[inline(never)]
    fn add(&mut self, alloc: Global, number: usize, key: PeerKey) -> Result<usize, Memory>
        requires { list_any (λ s. s.number == number) (map seat_of self.old.seats.items) ≡ false }
        ensures within { IfOk result (λ at. at < length self.new.seats.items) }
        ensures seat { IfOk result
            (SeatFor (map seat_of self.old.seats.items) (map seat_of self.new.seats.items) number key) }
    {
        let at = self.seats.len();
        remember(&mut self.positions, number, at)?;
        self.seats.reserve(1)?;
        self.seats.push_reserved(Seated {
            number,
            key,
            session: Session::new(alloc),
        });
        Ok(at)
    }

    /// Returns the position of this number's session, which is made if there is none.
    #[inline(always)]
    fn position_for(&mut self, alloc: Global, number: usize, key: &PeerKey) -> Result<usize, Memory>
        ensures within { IfOk result (λ at. at < length self.new.seats.items) }
        ensures seat { IfOk result
            (SeatFor (map seat_of self.old.seats.items) (map seat_of self.new.seats.items) number key.now) }
    {
        if let Some(at) = self.find(number) {
            return Ok(at);
        }
        self.add(alloc, number, *key)
    }

    /// Passes the unit to the session at that position.
    #[inline(always)]
    fn take_at(
        &mut self,
        alloc: Global,
        at: usize,
        head: &UnitHead,
        event: EventRef<'_, Prefix<F>>,
    ) -> Result<(), Memory>
        requires { at < length self.old.seats.items }
        ensures { (unit : ReplayUnit) → Means unit head.now.place head.now.time (event_of event.entry) →
            OnOk result (TakenAt (map seat_of self.old.seats.items) (map seat_of self.new.seats.items) at unit) }
    {
        self.seats[at]
            .session
            .take_event(alloc, head.place, head.time, event)
    }

    /// Passes the unit at an index to the session at that position, apart from the code of entries, whose fields would
    /// be kept beside those of all other kinds.
    #[inline(never)]
    fn take_apart(
        &mut self,
        alloc: Global,
        position: usize,
        batch: &DecodedUnits<F>,
        at: usize,
    ) -> Result<(), Memory>
        requires position { position < length self.old.seats.items }
        requires at { at < length batch.now.heads }
        ensures { (item : PeerUnit) → IsDecodedAt batch.now at item → OnOk result
            (TakenAt (map seat_of self.old.seats.items) (map seat_of self.new.seats.items) position item.unit) }
    {
        self.take_at(alloc, position, batch.head(at), batch.event(at))
    }

    /// Prefetches the slots where the routes of the first units would be, and then these routes. The returned number
    /// has no meaning.
    fn touch(&self, batch: &DecodedUnits<F>) -> usize {
        let count = batch.len().min(MOST_NEAR);
        let mut near = [0usize; MOST_NEAR];
        let mut touched = 0usize;
        for at in 0..count {
            let position = self.position_near(batch.head(at).number);
            near[at] = position;
            if let Some(route) = batch.first_route(at) {
                if let Some(seat) = self.seat_at(position) {
                    touched ^= seat.session.prefetch_slot(route);
                }
            }
        }
        for at in 0..count {
            if let Some(route) = batch.first_route(at) {
                if let Some(seat) = self.seat_at(near[at]) {
                    touched ^= seat.session.prefetch_route(route);
                }
            }
        }
        touched
    }
}

impl<F: Unicast, M: PrefixMap<RouteId, Addr = F> + Drop> Sessions for Seats<M> {
    ghost use Rattle.std.specs.Prelude.{map};
    ghost use Rattle.peer_tables.specs.Seats.{seat_of};
    ghost use Rattle.lane_deal.specs.Seating.{HoldsUnits};

    type Addr = F;

    ghost stands_for = { λ s items. HoldsUnits (map seat_of s.seats.items) items };

    fn fresh(alloc: Global) -> Seats<M> {
        Seats {
            seats: Vec::new(alloc),
            positions: Vec::new(alloc),
            is_indexed: true,
            prefetched: 0,
        }
    }

    fn prefetch(&mut self, batch: &DecodedUnits<F>) {
        self.prefetched = self.touch(batch);
    }

    #[inline(always)]
    fn take(&mut self, alloc: Global, batch: &DecodedUnits<F>, at: usize) -> Result<(), Memory> {
        let head = batch.head(at);
        let position = self.position_for(alloc, head.number, &head.peer)?;
        // Entries have code of their own: in common with the other kinds their keys would be moved in pieces, for which
        // the processor waits when it reads them as a whole.
        match batch.event(at) {
            EventRef::Rib(key, route) => {
                self.take_at(alloc, position, head, EventRef::Rib(key, route))
            }
            _ => self.take_apart(alloc, position, batch, at),
        }
    }
}
