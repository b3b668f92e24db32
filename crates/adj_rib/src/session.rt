//! The session of one peer.

ghost use Rattle.std.specs.Prelude.{◌≡◌, [], ◌∷◌, ◌++◌, List, OnOk, is_err, IsErr, IsTrue};
ghost use Rattle.std.specs.FinMap as finite;
ghost use Rattle.adj_rib.specs.Sessions.{IsSessionOf, chosen_session};
ghost use Rattle.peer_units.specs.DecodedEvents.{event_of, Means};
ghost use Rattle.peer_units.specs.Plain.{Unit as ReplayUnit};

use crate::arrivals::Arrivals;
use crate::churn::Churn;
use crate::note::{EveryKey, NoNotes};
use crate::rib_in::RibIn;
use crate::route_table::RouteTable;
use crate::routes::RouteId;
use bgp_prefix::{Memory, Prefix, PrefixMap};
use bgp_update::{RouteSpan, Unicast};
use peer_units::{Chosen, Damage, DecodedEvents, EventRef, Place, UnitOf, clears_are_told};
use std::alloc::Global;
use std::marker::Model;

/// A peer's session with the collector, as far as its units have been taken.
#[derive(Drop)]
pub struct Session<M: PrefixMap<RouteId>> {
    rib: RibIn<M>,
    arrivals: Arrivals,
    spent: bool,
}

impl<M: PrefixMap<RouteId>> Model for Session<M> {
    ghost use Rattle.std.specs.FinMap as finite;
    ghost use Rattle.adj_rib.specs.Sessions.{SessionState};

    ghost Value = { SessionState };

    ghost view = { λ s. record {
      up = s.rib.up;
      established = s.rib.established;
      table = finite.entries s.rib.counted.table;
      churn = s.rib.counted.churn;
      arrivals = s.arrivals;
      faults = s.rib.faults.items;
      spent = s.spent;
    } };
}

impl<F: Unicast, M: PrefixMap<RouteId, Addr = F> + Drop> Session<M> {
    /// Returns the session of a peer without units, which is up and has no routes. Allocates nothing.
    pub fn new(alloc: Global) -> Session<M>
        ensures { IsSessionOf result [] }
    {
        Session {
            rib: RibIn::new(alloc),
            arrivals: Arrivals::new(),
            spent: false,
        }
    }

    /// Takes the next unit: its event changes the table (RFC 4271, 4.3 and 8). A damaged one is listed, and what is done
    /// about it, if anything is, changes the table (RFC 7606). After an `Err` the session is spent: each further `take`
    /// returns `Err`, and the results of the other calls, except `is_spent`, no longer mean anything.
    pub fn take(&mut self, alloc: Global, unit: &UnitOf<F>) -> Result<(), Memory>
        ensures stands { (before : List ReplayUnit) → IsSessionOf self.old before →
            OnOk result (IsSessionOf self.new (before ++ unit.now ∷ [])) }
        ensures spent { self.new.spent ≡ is_err result }
        ensures stays_spent { IsTrue self.old.spent → IsErr result }
    {
        let unit = unit.as_ref();
        let mut events = DecodedEvents::new(alloc);
        let Ok(()) = events.push(alloc, &unit.payload) else {
            self.spent = true;
            return Err(Memory);
        };
        self.take_event(alloc, unit.place, unit.time, events.at(0))
    }

    /// Takes the next unit, which stands at this place, has this time and means this, as `take` does.
    #[inline(always)]
    pub fn take_event(
        &mut self,
        alloc: Global,
        place: Place,
        time: u64,
        event: EventRef<'_, Prefix<F>>,
    ) -> Result<(), Memory>
        ensures stands { (before : List ReplayUnit) (unit : ReplayUnit) → IsSessionOf self.old before →
            Means unit place time (event_of event.entry) →
            OnOk result (IsSessionOf self.new (before ++ unit ∷ [])) }
        ensures spent { self.new.spent ≡ is_err result }
        ensures stays_spent { IsTrue self.old.spent → IsErr result }
    {
        if self.spent {
            return Err(Memory);
        }
        clears_are_told();
        self.arrivals.note(event.is_recorded(), place);
        match self
            .rib
            .take(alloc, &EveryKey {}, &mut NoNotes {}, place, time, event)
        {
            Ok(()) => Ok(()),
            Err(memory) => {
                self.spent = true;
                Err(memory)
            }
        }
    }

    /// Removes the routes of prefixes that aren't chosen, and those that aren't chosen themselves. The session is for
    /// reading then: it no longer stands for its units. After an `Err` the table is as it was.
    pub fn retain(&mut self, alloc: Global, chosen: &Chosen<F>) -> Result<(), Memory>
        ensures { OnOk result (self.new ≡ chosen_session chosen.now self.old) }
    {
        self.rib.counted.table.retain(alloc, chosen)
    }

    /// Touches the slot of the peer's routes that `take_event` will probe for this route, so that its cache miss
    /// overlaps with others: a caller does this for several units first, and then `prefetch_route` for all of them. The
    /// result only keeps the read alive.
    pub fn prefetch_slot(&self, route: RouteSpan) -> usize {
        self.rib.prefetch_slot(route)
    }

    /// Touches the route that `take_event` will find. The result only keeps the read alive.
    pub fn prefetch_route(&self, route: RouteSpan) -> usize {
        self.rib.prefetch_route(route)
    }
}

impl<F: Unicast, M: PrefixMap<RouteId, Addr = F>> Session<M> {
    /// Whether the peer is up after the last state change, by its rule, or there was none: then its units are taken.
    pub fn is_up(&self) -> bool
        ensures { result ≡ self.now.up }
    {
        self.rib.up
    }

    /// Whether the session is established after the last state change that tells, by its rule, or none does. Where
    /// state changes are taken as they are recorded, it is so exactly if the peer is up.
    pub fn is_established(&self) -> bool
        ensures { result ≡ self.now.established }
    {
        self.rib.established
    }

    /// The routes that the peer announced and neither withdrew nor lost with its session.
    pub fn table(&self) -> &RouteTable<M>
        ensures { finite.entries result.now ≡ self.now.table }
    {
        &self.rib.counted.table
    }

    /// What the units did to the table.
    pub fn churn(&self) -> Churn
        ensures { result ≡ self.now.churn }
    {
        self.rib.counted.churn
    }

    /// How many recorded units were taken, and where the first one stands.
    pub fn arrivals(&self) -> Arrivals
        ensures { result ≡ self.now.arrivals }
    {
        self.arrivals
    }

    /// The damaged units, in the order in which they were taken.
    pub fn faults(&self) -> &[Damage]
        ensures { result.now ≡ self.now.faults }
    {
        self.rib.faults.as_slice()
    }

    /// Whether a `take` returned `Err`.
    pub fn is_spent(&self) -> bool
        ensures { result ≡ self.now.spent }
    {
        self.spent
    }
}
