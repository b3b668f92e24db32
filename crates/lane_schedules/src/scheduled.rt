//! The lanes after a list of events has been applied.

ghost use Rattle.std.specs.Prelude.{map, nat_eq};
ghost use Rattle.std.specs.List.{IsDistinct};
ghost use Rattle.std.proofs.lemmas.Map.Keys.{IsDistinct-prop};
ghost use Rattle.lane_schedules.specs.OneLanes.{seats_of_lanes};

use crate::schedule::OneLane;
use adj_rib::RouteId;
use bgp_prefix::{Memory, PrefixMap};
use bgp_update::Unicast;
use lane_deal::collect_lanes;
use peer_tables::Tables;
use std::alloc::Global;
use std::collections::VecDeque;
use unit_rings::PeerUnitOf;

/// Lanes on one thread. No peer's number appears twice among their sessions.
#[derive(Drop)]
pub struct Lanes<M: PrefixMap<RouteId>>
where
    M::Addr: Unicast,
{
    pub(crate) undealt: VecDeque<PeerUnitOf<M::Addr>>,
    pub(crate) lanes: Vec<OneLane<M>>,
    ghost apart: { IsDistinct nat_eq
        (map (λ seat. seat.number) (seats_of_lanes lanes.items)) } by { IsDistinct-prop nat_eq _ },
}

impl<M: PrefixMap<RouteId>> Lanes<M>
where
    M::Addr: Unicast,
{
    ghost use Rattle.std.specs.Prelude.{◌≡◌, ℕ, ◌-◌, ◌^◌, List, length, min};
    ghost use Rattle.peer_units.specs.Plain.{Unit as ReplayUnit};
    ghost use Rattle.lane_schedules.specs.Schedules.{LanesState};
    ghost use Rattle.lane_schedules.specs.ShownLanes.{Shows};

    /// The number of units not yet dealt.
    pub fn undealt(&self) -> usize
        ensures { (all : List ReplayUnit) (s : LanesState) → Shows all self.now s → result ≡ length s.undealt }
    {
        self.undealt.len()
    }

    /// The number of units that wait for a lane's worker.
    pub fn waiting(&self, lane: usize) -> usize
        ensures { (all : List ReplayUnit) (s : LanesState) → Shows all self.now s → result ≡ length (s.ring lane) }
    {
        match self.lanes.get(lane) {
            Some(lane) => lane.ring.len(),
            None => 0,
        }
    }

    /// The number of units that a lane took.
    pub fn took(&self, lane: usize) -> usize
        ensures { (all : List ReplayUnit) (s : LanesState) → Shows all self.now s →
            result ≡ min (length (s.taken lane)) (2 ^ 64 - 1) }
    {
        match self.lanes.get(lane) {
            Some(lane) => lane.took,
            None => 0,
        }
    }
}

impl<F: Unicast, M: PrefixMap<RouteId, Addr = F> + Drop> Lanes<M> {
    ghost use Rattle.std.specs.Prelude.{◌≡◌, ℕ, List, [], length, IfOk, IfErr};
    ghost use Rattle.peer_units.specs.Plain.{Unit as ReplayUnit};
    ghost use Rattle.peer_tables.specs.Tables.{tables_of};
    ghost use Rattle.lane_schedules.specs.Schedules.{LanesState};
    ghost use Rattle.lane_schedules.specs.ShownLanes.{Shows, ShowsSame};
    ghost use Rattle.lane_schedules.specs.TakenTables.{tables_taken};

    /// Returns the tables of what the lanes took. If an allocation fails, the lanes come back as they were.
    pub fn into_tables(self, alloc: Global) -> Result<Tables<M>, (Lanes<M>, Memory)>
        ensures tables { (all : List ReplayUnit) (s : LanesState) → Shows all self s →
            IfOk result (λ tables. tables ≡ tables_taken all s (length self.lanes.items)) }
        ensures whole { (all : List ReplayUnit) (s : LanesState) → Shows all self s → s.undealt ≡ [] →
            ((lane : ℕ) → s.ring lane ≡ []) →
            IfOk result (λ tables. tables ≡ tables_of all []) }
        ensures back { IfErr result (λ back. ShowsSame back.0 self) }
        ensures shows { (all : List ReplayUnit) (s : LanesState) → Shows all self s →
            IfErr result (λ back. Shows all back.0 s) }
    {
        let Lanes { undealt, lanes } = self;
        match collect_lanes(alloc, lanes, Vec::new(alloc)) {
            Ok(tables) => Ok(tables),
            Err((lanes, _)) => Err((Lanes { undealt, lanes }, Memory)),
        }
    }
}
