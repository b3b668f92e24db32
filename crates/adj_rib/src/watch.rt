//! A peer of which some prefixes are watched: their routes, and what happens to them.

ghost use Rattle.std.specs.Prelude.{◌≡◌, [], ◌∷◌, ◌++◌, List, OnOk, Option, ℕ};
ghost use Rattle.std.specs.List.{fold};
ghost use Rattle.std.specs.FinMap as finite;
ghost use Rattle.peer_units.specs.DecodedEvents.{event_of};
ghost use Rattle.peer_units.specs.Events.{event_in};
ghost use Rattle.peer_units.specs.Choices.{Choices as AnyChoices};
ghost use Rattle.peer_units.specs.Plain.{Unit as ReplayUnit};
ghost use Rattle.adj_rib.specs.Histories.{WatchesFor, chosen_notes, unit_notes};

use crate::churn::Churn;
use crate::note::{ChosenNotes, Notes};
use crate::rib_in::RibIn;
use crate::route_table::RouteTable;
use crate::routes::RouteId;
use bgp_prefix::{Memory, Prefix, PrefixMap};
use bgp_update::Unicast;
use peer_units::{Chosen, Damage, EventRef, UnitRef};
use std::alloc::Global;
use std::marker::Model;

/// A peer of which chosen prefixes are watched: whether it is up, its routes of these prefixes, its damaged units, and
/// what its units did to chosen routes of them, counted from a second on. It stands for the units that it took, with
/// the choices and the second that it was passed each time.
#[derive(Drop)]
pub struct Watch<M: PrefixMap<RouteId>> {
    rib: RibIn<M>,
    /// The counts of announcements and withdrawals, as far as they are about chosen routes. The others mean nothing.
    outcomes: Churn,
}

impl<M: PrefixMap<RouteId>> Model for Watch<M> {
    ghost use Rattle.std.specs.FinMap as finite;
    ghost use Rattle.adj_rib.specs.Histories.{WatchState, with_outcomes};

    ghost Value = { WatchState };

    ghost view = { λ w. record {
      up = w.rib.up;
      table = finite.entries w.rib.counted.table;
      churn = with_outcomes w.rib.counted.churn w.outcomes;
      faults = w.rib.faults.items;
    } };
}

impl<F: Unicast, M: PrefixMap<RouteId, Addr = F> + Drop> Watch<M> {
    /// Returns the watch on a peer without units, which is up and has no routes. Allocates nothing.
    pub fn new(alloc: Global) -> Watch<M>
        ensures { (since : Option ℕ) (choices : AnyChoices) → WatchesFor since choices [] result }
    {
        Watch {
            rib: RibIn::new(alloc),
            outcomes: Churn::new(),
        }
    }

    /// Takes the next unit, which means this, and notes what it does to chosen routes of chosen prefixes. A damaged
    /// unit is listed, whatever is done about it. The unit is counted unless it is before the second `since`, since
    /// 1970 UTC. After an `Err` the watch no longer stands for units, and some of the notes may have been made.
    pub fn take<N: Notes<F>>(
        &mut self,
        alloc: Global,
        chosen: &Chosen<F>,
        since: Option<u64>,
        unit: &UnitRef<'_, F>,
        event: EventRef<'_, Prefix<F>>,
        notes: &mut N,
    ) -> Result<(), Memory>
        requires { event_of event ≡ event_in unit.now.payload }
        ensures stands { (before : List ReplayUnit) → WatchesFor since chosen.now before self.old →
            OnOk result (WatchesFor since chosen.now (before ++ unit.now ∷ []) self.new) }
        ensures notes { (before : List ReplayUnit) → WatchesFor since chosen.now before self.old →
            OnOk result (N.kept notes.new
            ≡ fold N.keep (N.kept notes.old) (chosen_notes chosen.now (unit_notes before unit.now))) }
    {
        let counted = self.rib.counted.churn;
        let mut chosen_notes = ChosenNotes {
            routes: chosen.routes(),
            churn: self.outcomes,
            notes,
        };
        self.rib.take(
            alloc,
            chosen.prefixes(),
            &mut chosen_notes,
            unit.place,
            unit.time,
            event,
        )?;
        let outcomes = chosen_notes.churn;
        self.rib.count_within(since, unit.time, counted);
        self.outcomes = Churn::within(since, unit.time, self.outcomes, outcomes);
        Ok(())
    }
}

impl<F: Unicast, M: PrefixMap<RouteId, Addr = F>> Watch<M> {
    /// Whether the peer is up after the last state change, by its rule, or there was none.
    pub fn is_up(&self) -> bool
        ensures { result ≡ self.now.up }
    {
        self.rib.up
    }

    /// Whether the session is established, as far as state changes tell.
    pub fn is_established(&self) -> bool {
        self.rib.established
    }

    /// The routes of chosen prefixes that the peer announced and neither withdrew nor lost with its session.
    pub fn table(&self) -> &RouteTable<M>
        ensures { finite.entries result.now ≡ self.now.table }
    {
        &self.rib.counted.table
    }

    /// What the units did, counted.
    pub fn churn(&self) -> Churn
        ensures { result ≡ self.now.churn }
    {
        self.rib.counted.churn.with_outcomes(self.outcomes)
    }

    /// The same, whatever routes are chosen.
    pub fn whole_churn(&self) -> Churn {
        self.rib.counted.churn
    }

    /// The damaged units, in the order in which they were taken.
    pub fn faults(&self) -> &[Damage]
        ensures { result.now ≡ self.now.faults }
    {
        self.rib.faults.as_slice()
    }
}
