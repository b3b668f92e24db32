//! The tables of what the lanes took.

ghost use Rattle.std.specs.Prelude.{◌≡◌, List, IfOk, IfErr, IsPermutation, length, map, nat_eq};
ghost use Rattle.std.specs.List.{IsDistinct};
ghost use Rattle.std.specs.List.Sorted.{IsStrictlyIncreasing};
ghost use Rattle.peer_tables.specs.Tables.{Seat};
ghost use Rattle.lane_deal.specs.Collecting.{Exchanged, seats_held};
ghost use Rattle.lane_deal.specs.Pairs.{ChangedBelow};

use crate::holding::{HoldsSeats, exchange_seats};
use crate::seats::Seats;
use crate::worker::WorkerOf;
use adj_rib::RouteId;
use bgp_prefix::{Memory, PrefixMap, Sequence};
use bgp_update::Unicast;
use peer_tables::{Gathered, Seated, Tables, collect};
use peer_units::Damage;
use std::alloc::Global;

/// The worker of a lane.
impl<F: Unicast, M: PrefixMap<RouteId, Addr = F> + Drop> HoldsSeats<M> for WorkerOf<Seats<M>, F> {
    ghost use Rattle.std.specs.Prelude.{refl};
    ghost use Rattle.lane_deal.specs.Collecting.{WorkerState, worker_state};

    ghost State = { WorkerState M F };

    ghost state = { worker_state };

    ghost held = { λ s. s.seats };

    ghost with_held = { λ s list. record s { seats = list } };

    fn exchange(&mut self, alloc: Global, list: &mut Sequence<Seated<M>>) {
        exchange_seats(alloc, &mut self.sessions, list);
    }

    ghost is_back = { λ s list. refl };
}

/// So many empty lists.
fn empty_lists<F: Unicast, M: PrefixMap<RouteId, Addr = F> + Drop>(
    alloc: Global,
    count: usize,
) -> Result<Vec<Sequence<Seated<M>>>, Memory>
    ensures { IfOk result (λ lists. length lists.items ≡ count) }
{
    let mut lists = Vec::with_capacity(alloc, count)?;
    for made in 0..count {
        lists.push(Sequence::from_vec(Vec::new(alloc)))?;
    }
    Ok(lists)
}

/// Exchanges the sessions of each lane for those of its list.
fn exchange_all<F: Unicast, M: PrefixMap<RouteId, Addr = F> + Drop, L: HoldsSeats<M>>(
    alloc: Global,
    lanes: &mut [L],
    lists: &mut [Sequence<Seated<M>>],
)
    requires { length lists.old ≡ length lanes.old }
    ensures { ChangedBelow (Exchanged L.state L.held L.with_held) (length lanes.old) lanes.old lanes.new lists.old lists.new }
{
    for lane in 0..lanes.len() {
        lanes[lane].exchange(alloc, &mut lists[lane]);
    }
}

/// The tables of all sessions and the refusals, or both as they were.
pub fn collect_lanes<F: Unicast, M: PrefixMap<RouteId, Addr = F> + Drop, L: HoldsSeats<M> + Drop>(
    alloc: Global,
    mut lanes: Vec<L>,
    refused: Vec<Damage>,
) -> Result<Tables<M>, (Vec<L>, Vec<Damage>)>
    requires { IsDistinct nat_eq (map (λ seat. seat.number) (seats_held (λ lane. L.held (L.state lane)) lanes.items)) }
    ensures only { (seats : List Seat) → IsPermutation (seats_held (λ lane. L.held (L.state lane)) lanes.items) seats →
        IsStrictlyIncreasing (map (λ seat. seat.number) seats) →
        IfOk result (λ tables. tables ≡ record { seats = seats; refused = refused.items }) }
    ensures back { IfErr result (λ back. (map L.state back.0.items ≡ map L.state lanes.items) ×
        (back.1.items ≡ refused.items)) }
{
    let Ok(mut lists) = empty_lists(alloc, lanes.len()) else {
        return Err((lanes, refused));
    };
    exchange_all(alloc, &mut lanes, &mut lists);
    let gathered = Gathered {
        lanes: Sequence::from_vec(lists),
        refused: Sequence::from_vec(refused),
    };
    match collect(alloc, gathered) {
        Ok(tables) => Ok(tables),
        Err((back, _)) => {
            let Gathered {
                lanes: handed_in,
                refused,
            } = back;
            let mut lists = handed_in.into_vec();
            exchange_all(alloc, &mut lanes, &mut lists);
            Err((lanes, refused.into_vec()))
        }
    }
}
