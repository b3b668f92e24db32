//! A peer's Adj-RIB-In (RFC 4271, 3.2), and how each unit changes it.

ghost use Rattle.std.specs.Prelude.{◌≡◌};

use crate::churn::{Churn, is_before};
use crate::counted_table::CountedTable;
use crate::note::{Chooses, Notes};
use crate::outcome::Outcome;
use crate::route_table::RouteTable;
use crate::routes::RouteId;
use bgp_prefix::{Memory, Prefix, PrefixMap, RouteKey};
use bgp_update::{HashedRoute, RouteSpan, Unicast, UpdateRef};
use peer_units::{Damage, EventRef, Place, StateRule, clears_are_told};
use std::alloc::Global;

/// A peer's Adj-RIB-In, along with what is counted and listed for the peer.
#[derive(Drop)]
pub(crate) struct RibIn<M: PrefixMap<RouteId>> {
    pub(crate) up: bool,
    /// Whether the session is established, as far as state changes tell.
    pub(crate) established: bool,
    pub(crate) counted: CountedTable<M>,
    pub(crate) faults: Vec<Damage>,
}

impl<F: Unicast, M: PrefixMap<RouteId, Addr = F> + Drop> RibIn<M> {
    ghost use Rattle.std.specs.Prelude.{◌≡◌, Bool, true, Ok, OnOk, if◌then◌else◌};
    ghost use Rattle.peer_units.specs.DecodedEvents.{event_of, Means};
    ghost use Rattle.peer_units.specs.Plain.{Unit as ReplayUnit};
    ghost use Rattle.peer_units.specs.declared.meaning.Event.TheVariants as events;
    ghost use Rattle.bgp_prefix.specs.Keys.{RouteKey as Key};
    ghost use Rattle.adj_rib.specs.Applied.{START, counted_if, refused};
    ghost use Rattle.adj_rib.specs.Histories.{is_before};
    ghost use Rattle.adj_rib.specs.Noting.{Follows, read_noting, taken_noting};
    ghost use Rattle.adj_rib.specs.Keeping.{rib_state_in};
    ghost use Rattle.bgp_update.specs.Decoded.{plain_update};

    /// Returns that of a peer without units, which is up.
    pub(crate) fn new(alloc: Global) -> RibIn<M>
        ensures { rib_state_in result ≡ START }
    {
        RibIn {
            up: true,
            established: true,
            counted: CountedTable {
                table: RouteTable::new(alloc),
                churn: Churn::new(),
            },
            faults: Vec::new(alloc),
        }
    }

    /// Takes the steps of a state change, whatever keys are chosen: it ends the routes of all.
    #[tactic(auto, unfolding(crate::specs::Noting::followed_noting, crate::specs::Applied::noted))]
    fn change_state<N: Notes<F>>(
        &mut self,
        alloc: Global,
        notes: &mut N,
        old: u16,
        new: u16,
        rule: StateRule,
    ) -> Result<(), Memory>
        ensures { (selects : Key → Bool) → OnOk result (Follows N.keep selects (Ok (events.State old new rule))
            (rib_state_in self.old, N.kept notes.old) (rib_state_in self.new, N.kept notes.new)) }
    {
        if rule.breaks(old, new) {
            self.counted.table.lose_all(alloc, notes)?;
            self.counted.churn.count(Outcome::Reset);
        }
        self.up = rule.stays_up(new);
        if let Some(established) = rule.established_by(old, new) {
            self.established = established;
        }
        Ok(())
    }

    /// Takes the step of a clear, whatever keys are chosen.
    #[tactic(auto, unfolding(crate::specs::Noting::followed_noting, crate::specs::Applied::noted, crate::specs::Applied::counted))]
    fn clear<N: Notes<F>>(&mut self, alloc: Global, notes: &mut N) -> Result<(), Memory>
        ensures { (selects : Key → Bool) → OnOk result (Follows N.keep selects (Ok events.Clear)
            (rib_state_in self.old, N.kept notes.old) (rib_state_in self.new, N.kept notes.new)) }
    {
        self.counted.table.lose_all(alloc, notes)
    }

    /// Counts an UPDATE or a RIB entry of a peer that isn't up.
    fn count_idle(&mut self)
        ensures { rib_state_in self.new ≡ record (rib_state_in self.old) {
          churn = record self.old.counted.churn { idle = counted_if true self.old.counted.churn.idle };
        } }
    {
        self.counted.churn.idle = self.counted.churn.idle.saturating_add(1);
    }

    /// Takes the steps of an UPDATE on chosen keys.
    #[inline(always)]
    #[tactic(auto, unfolding(crate::specs::Noting::followed_noting, crate::specs::Applied::noted))]
    fn take_update<C: Chooses<F>, N: Notes<F>>(
        &mut self,
        alloc: Global,
        chosen: &C,
        notes: &mut N,
        update: &UpdateRef<'_, Prefix<F>>,
    ) -> Result<(), Memory>
        ensures { OnOk result (Follows N.keep (C.is_chosen chosen.now) (Ok (events.Change (plain_update update.now)))
            (rib_state_in self.old, N.kept notes.old) (rib_state_in self.new, N.kept notes.new)) }
    {
        if !self.up {
            self.count_idle();
            return Ok(());
        }
        self.counted.apply_update(alloc, chosen, notes, update)
    }

    /// Lists a damaged unit.
    #[tactic(auto, unfolding(crate::specs::Applied::refused, crate::specs::Applied::noted))]
    fn list_damage(&mut self, damage: Damage) -> Result<(), Memory>
        ensures { OnOk result (rib_state_in self.new ≡ refused (rib_state_in self.old) damage) }
    {
        self.counted.churn.refused = self.counted.churn.refused.saturating_add(1);
        self.faults.push(damage)?;
        Ok(())
    }

    /// Takes the step of a RIB entry, if its key is chosen.
    #[inline(always)]
    #[tactic(auto, unfolding(crate::specs::Noting::followed_noting, crate::specs::Applied::noted))]
    fn announce_entry<C: Chooses<F>, N: Notes<F>>(
        &mut self,
        alloc: Global,
        chosen: &C,
        notes: &mut N,
        key: RouteKey<Prefix<F>>,
        hashed: &HashedRoute<'_>,
    ) -> Result<(), Memory>
        ensures { OnOk result (Follows N.keep (C.is_chosen chosen.now) (Ok (events.Rib key hashed.now.route))
            (rib_state_in self.old, N.kept notes.old) (rib_state_in self.new, N.kept notes.new)) }
    {
        if !self.up {
            self.count_idle();
            return Ok(());
        }
        if chosen.chooses(&key) {
            let (table, churn) = (&mut self.counted.table, &mut self.counted.churn);
            return table.announce(alloc, churn, notes, key, hashed);
        }
        Ok(())
    }

    /// Lists a damaged unit about which something is done, and takes the steps of that on chosen keys.
    #[cold]
    #[inline(never)]
    #[tactic(auto, unfolding(crate::specs::Noting::followed_noting, crate::specs::Applied::noted, crate::specs::Applied::refused))]
    fn take_handled<C: Chooses<F>, N: Notes<F>>(
        &mut self,
        alloc: Global,
        chosen: &C,
        notes: &mut N,
        damage: Damage,
        update: &UpdateRef<'_, Prefix<F>>,
    ) -> Result<(), Memory>
        ensures { OnOk result ((rib_state_in self.new, N.kept notes.new)
            ≡ read_noting N.keep (C.is_chosen chosen.now) (rib_state_in self.old, N.kept notes.old) damage.place
            (Ok (events.Handled damage.fault (plain_update update.now)))) }
    {
        self.list_damage(damage)?;
        if self.up {
            self.counted.apply_update(alloc, chosen, notes, update)?;
        }
        Ok(())
    }

    /// Follows what the unit at a place means.
    #[inline(always)]
    #[tactic(auto, unfolding(crate::specs::Noting::followed_noting, crate::specs::Applied::noted, crate::specs::Applied::refused))]
    fn follow<C: Chooses<F>, N: Notes<F>>(
        &mut self,
        alloc: Global,
        chosen: &C,
        notes: &mut N,
        place: Place,
        event: EventRef<'_, Prefix<F>>,
    ) -> Result<(), Memory>
        ensures { OnOk result ((rib_state_in self.new, N.kept notes.new)
            ≡ read_noting N.keep (C.is_chosen chosen.now) (rib_state_in self.old, N.kept notes.old) place
            (event_of event.entry)) }
    {
        match event {
            EventRef::Rib(key, route) => self.announce_entry(alloc, chosen, notes, key, &route),
            EventRef::Change(update) => self.take_update(alloc, chosen, notes, &update),
            EventRef::State(old, new, rule) => self.change_state(alloc, notes, old, new, rule),
            EventRef::Other => Ok(()),
            EventRef::Clear => self.clear(alloc, notes),
            EventRef::Handled(fault, update) => {
                self.take_handled(alloc, chosen, notes, Damage { place, fault }, &update)
            }
            EventRef::Damaged(fault) => self.list_damage(Damage { place, fault }),
        }
    }

    /// Puts the counts back that were there before a unit of this time, if it is before this second.
    pub(crate) fn count_within(&mut self, since: Option<u64>, time: u64, before: Churn)
        ensures { rib_state_in self.new ≡ record (rib_state_in self.old) {
          churn = if is_before since time then before else self.old.counted.churn;
        } }
    {
        if is_before(since, time) {
            let some = self.counted.churn.renewals() != before.renewals();
            self.counted.table.note_renewals(some);
            self.counted.churn = before;
        }
    }

    /// Prefetches the slot where `take` will look for a route.
    pub(crate) fn prefetch_slot(&self, route: RouteSpan) -> usize {
        self.counted.table.prefetch_slot(route)
    }

    /// Prefetches the route that `take` will find.
    pub(crate) fn prefetch_route(&self, route: RouteSpan) -> usize {
        self.counted.table.prefetch_route(route)
    }

    /// Takes the next unit, which stands at this place, has this time and means this, and notes what it does to chosen
    /// keys. The routes of others aren't kept.
    #[inline(always)]
    pub(crate) fn take<C: Chooses<F>, N: Notes<F>>(
        &mut self,
        alloc: Global,
        chosen: &C,
        notes: &mut N,
        place: Place,
        time: u64,
        event: EventRef<'_, Prefix<F>>,
    ) -> Result<(), Memory>
        ensures { (unit : ReplayUnit) → Means unit place time (event_of event.entry) →
            OnOk result ((rib_state_in self.new, N.kept notes.new)
            ≡ taken_noting N.keep (C.is_chosen chosen.now) (rib_state_in self.old, N.kept notes.old) unit) }
    {
        clears_are_told();
        self.counted.table.give_back(alloc, &self.counted.churn)?;
        self.counted.churn.note_unit(event.is_recorded(), time);
        self.follow(alloc, chosen, notes, place, event)
    }
}
