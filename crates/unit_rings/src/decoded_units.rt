//! Units that were decoded and wait to be taken.

use crate::unit_head::UnitHead;
use bgp_prefix::{Memory, Prefix};
use bgp_update::{RouteSpan, Unicast};
use peer_units::{DecodedEvents, EventRef, UnitRef};
use std::alloc::Global;
use std::marker::Model;

/// Units of any peers, in order, each with what it means in place of its payload.
#[derive(Drop)]
pub struct DecodedUnits<F: Unicast> {
    heads: Vec<UnitHead>,
    events: DecodedEvents<F>,
}

impl<F: Unicast> Model for DecodedUnits<F> {
    ghost use Rattle.std.specs.Prelude.{◌≡◌, length};
    ghost use Rattle.unit_rings.specs.DecodedUnitLists.{BatchState};

    ghost Value = { BatchState };

    ghost view = { λ b. record { heads = b.heads.items; events = b.events } };

    ghost invariant = { λ b. length b.heads.items ≡ length b.events };
}

impl<F: Unicast> DecodedUnits<F> {
    ghost use Rattle.std.specs.Prelude.{◌≡◌, ◌<◌, [], ◌∷◌, ◌++◌, OnOk, length, slice_index_or};
    ghost use Rattle.peer_units.specs.DecodedEvents.{event_of};
    ghost use Rattle.peer_units.specs.Events.{event_in};
    ghost use Rattle.unit_rings.specs.DecodedUnitLists.{no_batch};

    /// Returns no units. Allocates nothing.
    pub fn new(alloc: Global) -> DecodedUnits<F>
        ensures { result ≡ no_batch }
    {
        DecodedUnits {
            heads: Vec::new(alloc),
            events: DecodedEvents::new(alloc),
        }
    }

    /// How many units there are.
    #[inline(always)]
    pub fn len(&self) -> usize
        ensures { result ≡ length self.now.heads }
    {
        self.heads.len()
    }

    /// Takes out all units. Their memory stays for other ones.
    pub fn clear(&mut self)
        ensures { self.new ≡ no_batch }
    {
        self.heads.clear();
        self.events.clear();
    }

    /// Decodes a unit of the peer with this number, behind the others. After an `Err` these may be gone.
    #[inline(always)]
    pub fn push(
        &mut self,
        alloc: Global,
        number: usize,
        unit: &UnitRef<'_, F>,
    ) -> Result<(), Memory>
        ensures heads { OnOk result (self.new.heads ≡ self.old.heads ++ record {
          number = number;
          peer = unit.now.peer;
          place = unit.now.place;
          time = unit.now.time;
        } ∷ []) }
        ensures events { OnOk result (self.new.events ≡ self.old.events ++ event_in unit.now.payload ∷ []) }
    {
        self.heads.reserve(1)?;
        let Ok(()) = self.events.push(alloc, &unit.payload) else {
            self.heads.clear();
            self.events.clear();
            return Err(Memory);
        };
        self.heads.push_reserved(UnitHead {
            number,
            peer: unit.peer,
            place: unit.place,
            time: unit.time,
        });
        Ok(())
    }

    /// The unit at an index, without what it means.
    #[inline(always)]
    pub fn head(&self, at: usize) -> &UnitHead
        requires { at < length self.now.heads }
        ensures { (d : _) → slice_index_or self.now.heads at d ≡ result.now }
    {
        &self.heads[at]
    }

    /// What the unit at an index means.
    #[inline(always)]
    pub fn event(&self, at: usize) -> EventRef<'_, Prefix<F>>
        requires { at < length self.now.heads }
        ensures { (d : _) → slice_index_or self.now.events at d ≡ event_of result }
    {
        self.events.at(at)
    }

    /// The route that a session which takes the unit at an index will look for first, if there is one: for prefetching
    /// alone.
    #[inline(always)]
    pub fn first_route(&self, at: usize) -> Option<RouteSpan> {
        self.events.first_route(at)
    }
}
