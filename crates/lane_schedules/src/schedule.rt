//! The lanes on one thread, by a list of events.

ghost use Rattle.std.specs.Prelude.{◌≡◌, ℕ, ◌<◌, ◌++◌, ◌∷◌, [], List, length, take, drop, IfOk, OnOk};
ghost use Rattle.peer_units.specs.Plain.{Unit as ReplayUnit};
ghost use Rattle.peer_tables.specs.Peers.{peers_of};
ghost use Rattle.lane_deal.specs.Lanes.{lane_of_unit};
ghost use Rattle.lane_deal.specs.Numbers.{with_numbers};
ghost use Rattle.lane_schedules.specs.Schedules.{LanesState, dealt, took, after_turn, after_turns, start};
ghost use Rattle.lane_schedules.specs.ShownLanes.{LaneShows, LanesShow, Shows};

use crate::scheduled::Lanes;
use crate::turn::Turn;
use adj_rib::RouteId;
use bgp_prefix::{Memory, PrefixMap, Sequence};
use bgp_update::Unicast;
use lane_deal::{Dealing, HoldsSeats, Seats, Sessions, exchange_seats};
use peer_tables::{Peers, Seated};
use peer_units::UnitOf;
use std::alloc::Global;
use std::collections::VecDeque;
use unit_rings::{DecodedUnits, PeerUnit, PeerUnitOf};

/// A lane whose ring has no bound.
#[derive(Drop)]
pub struct OneLane<M: PrefixMap<RouteId>>
where
    M::Addr: Unicast,
{
    pub ring: VecDeque<PeerUnitOf<M::Addr>>,
    pub seats: Seats<M>,
    pub took: usize,
}

/// A lane's sessions are those of its peers.
impl<F: Unicast, M: PrefixMap<RouteId, Addr = F> + Drop> HoldsSeats<M> for OneLane<M> {
    ghost use Rattle.std.specs.Prelude.{refl};
    ghost use Rattle.lane_schedules.specs.OneLanes.{OneLaneState, one_lane_state};

    ghost State = { OneLaneState M F };

    ghost state = { one_lane_state };

    ghost held = { λ s. s.seats };

    ghost with_held = { λ s list. record s { seats = list } };

    fn exchange(&mut self, alloc: Global, list: &mut Sequence<Seated<M>>) {
        exchange_seats(alloc, &mut self.seats, list);
    }

    ghost is_back = { λ s list. refl };
}

/// The units, each with its peer's number.
fn number_all<F: Unicast>(
    alloc: Global,
    units: Vec<UnitOf<F>>,
) -> Result<VecDeque<PeerUnitOf<F>>, Memory>
    ensures { IfOk result (λ all. all.items ≡ with_numbers (peers_of units.items) units.items) }
{
    let mut peers = Peers::new(alloc)?;
    let mut all = VecDeque::new(alloc);
    for unit in units {
        let number = peers.number_of(&unit.peer, None)?;
        all.push_back(PeerUnit { number, unit })?;
    }
    Ok(all)
}

/// Makes lanes to which nothing has been dealt.
fn empty_lanes<F: Unicast, M: PrefixMap<RouteId, Addr = F> + Drop>(
    alloc: Global,
    count: usize,
) -> Result<Vec<OneLane<M>>, Memory>
    ensures { IfOk result (λ lanes. (length lanes.items ≡ count) ×
        ((all units : List ReplayUnit) → LanesShow all (with_numbers (peers_of all) units) lanes.items (start units))) }
{
    let mut lanes = Vec::new(alloc);
    for made in 0..count {
        lanes.push(OneLane {
            ring: VecDeque::new(alloc),
            seats: Seats::fresh(alloc),
            took: 0,
        })?;
    }
    Ok(lanes)
}

/// Moves the first undealt unit to the end of its lane's ring.
fn deal<F: Unicast, M: PrefixMap<RouteId, Addr = F> + Drop, D: Dealing>(
    undealt: &mut VecDeque<PeerUnitOf<F>>,
    lanes: &mut [OneLane<M>],
    dealing: &D,
) -> Result<(), Memory>
    requires { 0 < length lanes.old }
    ensures { OnOk result ((all : List ReplayUnit) (s : LanesState) → LanesShow all undealt.old.items lanes.old s →
        LanesShow all undealt.new.items lanes.new
        (dealt (lane_of_unit (λ number. D.lane_of dealing.now number (length lanes.old)) all) s s.undealt)) }
{
    let Some(item) = undealt.pop_front() else {
        return Ok(());
    };
    let lane = dealing.lane(item.number, lanes.len());
    lanes[lane].ring.push_back(item)?;
    Ok(())
}

/// Passes the first unit in a ring to its session.
fn take_one<F: Unicast, M: PrefixMap<RouteId, Addr = F> + Drop>(
    alloc: Global,
    lane: &mut OneLane<M>,
) -> Result<(), Memory>
    ensures { OnOk result ((all waiting taken : List ReplayUnit) → LaneShows all lane.old waiting taken →
        LaneShows all lane.new (drop 1 waiting) (taken ++ take 1 waiting)) }
{
    let Some(item) = lane.ring.pop_front() else {
        return Ok(());
    };
    let mut batch = DecodedUnits::new(alloc);
    batch.push(alloc, item.number, &item.unit.as_ref())?;
    lane.seats.take(alloc, &batch, 0)?;
    lane.took = lane.took.saturating_add(1);
    Ok(())
}

/// Passes the first unit in a lane's ring to its session.
fn take_from<F: Unicast, M: PrefixMap<RouteId, Addr = F> + Drop>(
    alloc: Global,
    lanes: &mut [OneLane<M>],
    lane: usize,
) -> Result<(), Memory>
    ensures { OnOk result ((all : List ReplayUnit) (undealt : List _) (s : LanesState) →
        LanesShow all undealt lanes.old s → LanesShow all undealt lanes.new (took lane s (s.ring lane))) }
{
    if lane >= lanes.len() {
        return Ok(());
    }
    take_one(alloc, &mut lanes[lane])
}

/// Applies one event.
fn apply<F: Unicast, M: PrefixMap<RouteId, Addr = F> + Drop, D: Dealing>(
    alloc: Global,
    undealt: &mut VecDeque<PeerUnitOf<F>>,
    lanes: &mut [OneLane<M>],
    turn: Turn,
    dealing: &D,
) -> Result<(), Memory>
    requires { 0 < length lanes.old }
    ensures { OnOk result ((all : List ReplayUnit) (s : LanesState) → LanesShow all undealt.old.items lanes.old s →
        LanesShow all undealt.new.items lanes.new
        (after_turn (lane_of_unit (λ number. D.lane_of dealing.now number (length lanes.old)) all) s turn)) }
{
    match turn {
        Turn::Deal => deal(undealt, lanes, dealing),
        Turn::Take(lane) => take_from(alloc, lanes, lane),
    }
}

/// Applies the events in order to lanes to which nothing was dealt.
fn apply_all<F: Unicast, M: PrefixMap<RouteId, Addr = F> + Drop, D: Dealing>(
    alloc: Global,
    undealt: &mut VecDeque<PeerUnitOf<F>>,
    lanes: &mut [OneLane<M>],
    turns: &[Turn],
    dealing: &D,
) -> Result<(), Memory>
    requires { 0 < length lanes.old }
    ensures { OnOk result ((all : List ReplayUnit) → LanesShow all undealt.old.items lanes.old (start all) →
        LanesShow all undealt.new.items lanes.new
        (after_turns (λ number. D.lane_of dealing.now number (length lanes.old)) all turns.now)) }
{
    for turn in turns {
        apply(alloc, undealt, lanes, *turn, dealing)?;
    }
    Ok(())
}

/// Applies the events in order to the lanes of so many workers, where at first none of the units is dealt.
pub fn run_schedule<F: Unicast, M: PrefixMap<RouteId, Addr = F> + Drop, D: Dealing>(
    alloc: Global,
    units: Vec<UnitOf<F>>,
    turns: &[Turn],
    dealing: &D,
    workers: usize,
) -> Result<Lanes<M>, Memory>
    requires { 0 < workers }
    ensures lanes { IfOk result (λ lanes. length lanes.lanes.items ≡ workers) }
    ensures shows { IfOk result
        (λ lanes. Shows units.items lanes
        (after_turns (λ number. D.lane_of dealing.now number workers) units.items turns.now)) }
{
    let mut undealt = number_all(alloc, units)?;
    let mut lanes = empty_lanes(alloc, workers)?;
    apply_all(alloc, &mut undealt, &mut lanes, turns, dealing)?;
    Ok(Lanes { undealt, lanes })
}
