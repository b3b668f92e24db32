//! The tables of all peers, collected from the lanes of the replay.

ghost use Rattle.std.specs.Prelude.{◌≡◌, ◌+◌, ◌-◌, ◌^◌, ◌≤◌, ◌++◌, IfOk, IfErr, IfSome, OnOk, IsPermutation, List, length, map, nat_eq, min, vec_len};
ghost use Rattle.std.specs.List.{IsDistinct, flat_map};
ghost use Rattle.std.specs.List.Sorted.{IsStrictlyIncreasing};
ghost use Rattle.std.specs.Vec.{vec_capacity};
ghost use Rattle.peer_tables.specs.Tables.{Seat, TablesState, IsCollected, all_faults, all_routes, chosen_seat, chosen_tables, seat_routes};
ghost use Rattle.peer_tables.specs.Gathers.{gathered_seats};
ghost use Rattle.peer_tables.specs.Seats.{seat_of};

use crate::retaining::{Retains, retain_all};
use adj_rib::{RouteId, Session};
use bgp_prefix::{Memory, PrefixMap, Sequence};
use bgp_update::Unicast;
use peer_units::{Chosen, Damage, PeerKey};
use std::alloc::Global;
use std::marker::{Model, Sync};
use std::thread::Threads;

/// A session under its peer's number.
#[derive(Drop)]
pub struct Seated<M: PrefixMap<RouteId>> {
    pub number: usize,
    pub key: PeerKey,
    pub session: Session<M>,
}

/// What the lanes pass to `collect`.
#[derive(Drop)]
pub struct Gathered<M: PrefixMap<RouteId>> {
    pub lanes: Sequence<Sequence<Seated<M>>>,
    pub refused: Sequence<Damage>,
}

/// One session for each peer, by number, and the refusals.
#[derive(Drop)]
pub struct Tables<M: PrefixMap<RouteId>> {
    seats: Vec<Seated<M>>,
    refused: Vec<Damage>,
}

impl<M: PrefixMap<RouteId>> Model for Tables<M> {
    ghost use Rattle.std.specs.Prelude.{map};
    ghost use Rattle.peer_tables.specs.Tables.{TablesState};
    ghost use Rattle.peer_tables.specs.Seats.{seat_of};

    ghost Value = { TablesState };

    ghost view = { λ t. record { seats = map seat_of t.seats.items; refused = t.refused.items } };
}

impl<M: PrefixMap<RouteId>> Tables<M> {
    /// The sessions, by number.
    pub fn seats(&self) -> &[Seated<M>]
        ensures { map seat_of result.now ≡ self.now.seats }
    {
        self.seats.as_slice()
    }

    /// The refusals, in place order.
    pub fn refused(&self) -> &[Damage]
        ensures { result.now ≡ self.now.refused }
    {
        self.refused.as_slice()
    }

    /// The number of peers.
    pub fn peers(&self) -> usize
        ensures { result ≡ length self.now.seats }
    {
        self.seats.len()
    }
}

impl<F: Unicast, M: PrefixMap<RouteId, Addr = F>> Tables<M> {
    /// The number of listed faults: the refusals and all damaged units. Saturates at `u64::MAX`.
    pub fn damaged(&self) -> u64
        ensures { result ≡ min (length (all_faults self.now)) (2 ^ 64 - 1) }
    {
        let mut count = self.refused().len() as u64;
        for seat in self.seats() {
            count = count.saturating_add(seat.session.faults().len() as u64);
        }
        count
    }

    /// The number of routes in all tables. Saturates at `u64::MAX`.
    pub fn routes(&self) -> u64
        ensures { result ≡ min (length (all_routes self.now)) (2 ^ 64 - 1) }
    {
        count_routes(self.seats())
    }
}

impl<F: Unicast + Sync, M: PrefixMap<RouteId, Addr = F> + Send + Drop> Tables<M> {
    /// Removes the routes of prefixes that aren't chosen, and those that aren't chosen themselves. The sessions are
    /// shared among so many workers, each in its own thread if one can be started.
    #[tactic(auto, using(crate::proofs::ChosenLaws::open_tables))]
    pub fn retain<R: Threads + Sync>(
        &mut self,
        rt: &R,
        alloc: Global,
        workers: usize,
        chosen: &Chosen<F>,
    ) -> Result<(), Memory>
        ensures { OnOk result (self.new ≡ chosen_tables chosen.now self.old) }
    {
        if chosen.is_open() {
            return Ok(());
        }
        retain_all(rt, alloc, workers, chosen, &mut self.seats)
    }
}

impl<F: Unicast, M: PrefixMap<RouteId, Addr = F> + Drop> Retains<Chosen<F>> for Seated<M> {
    ghost use Rattle.std.specs.Prelude.{◌≡◌};
    ghost use Rattle.peer_tables.specs.Tables.{chosen_seat};
    ghost use Rattle.peer_tables.specs.Seats.{seat_of};

    ghost retained = { λ choices before after. seat_of after ≡ chosen_seat choices (seat_of before) };

    fn retain(&mut self, alloc: Global, chosen: &Chosen<F>) -> Result<(), Memory> {
        self.session.retain(alloc, chosen)
    }

    fn routes(&self) -> usize {
        self.session.table().len()
    }
}

/// Returns the number of routes in the tables of these sessions. Saturates at `u64::MAX`.
pub fn count_routes<F: Unicast, M: PrefixMap<RouteId, Addr = F>>(seats: &[Seated<M>]) -> u64
    ensures { result ≡ min (length (seat_routes (map seat_of seats.now))) (2 ^ 64 - 1) }
{
    let mut count = 0u64;
    for seat in seats {
        count = count.saturating_add(seat.session.table().len() as u64);
    }
    count
}

/// Returns the total number of items in the lanes, if it fits in a `usize`.
fn count_of<T>(lanes: &[Sequence<T>]) -> Option<usize>
    ensures { IfSome result (λ count. count ≡ length (flat_map (λ lane. lane) lanes.now)) }
{
    let mut count = 0usize;
    for lane in lanes {
        count = count.checked_add(lane.as_slice().len())?;
    }
    Some(count)
}

/// Moves the items of all lanes to the end of a list that has room for them.
fn move_all<T: Drop>(mut lanes: Vec<Sequence<T>>, all: &mut Vec<T>)
    requires { vec_len all.old + length (flat_map (λ lane. lane) lanes.items) ≤ vec_capacity all.old }
    ensures { IsPermutation (flat_map (λ lane. lane) lanes.items ++ all.old.items) all.new.items }
{
    while let Some(lane) = lanes.pop() {
        let mut items = lane.into_vec();
        let Ok(()) = all.append(&mut items) else {
            unreachable!()
        };
    }
}

/// Collects each session passed in, once, by its peer's number, and the refusals. An `Err` returns what was
/// passed in, unchanged.
pub fn collect<F: Unicast, M: PrefixMap<RouteId, Addr = F> + Drop>(
    alloc: Global,
    gathered: Gathered<M>,
) -> Result<Tables<M>, (Gathered<M>, Memory)>
    requires { IsDistinct nat_eq (map (λ seat. seat.number) (gathered_seats gathered)) }
    ensures ok { IfOk result (λ tables. IsCollected (gathered_seats gathered) gathered.refused tables) }
    ensures only { (seats : List Seat) → IsPermutation (gathered_seats gathered) seats →
        IsStrictlyIncreasing (map (λ seat. seat.number) seats) →
        IfOk result (λ tables. tables ≡ record { seats = seats; refused = gathered.refused }) }
    ensures err { IfErr result (λ back. back.0 ≡ gathered) }
{
    let Some(count) = count_of(gathered.lanes.as_slice()) else {
        return Err((gathered, Memory));
    };
    let Ok(mut seats) = Vec::with_capacity(alloc, count) else {
        return Err((gathered, Memory));
    };
    let Gathered { lanes, refused } = gathered;
    move_all(lanes.into_vec(), &mut seats);
    seats.sort_unstable_by_key(|seat| seat.number);
    Ok(Tables {
        seats,
        refused: refused.into_vec(),
    })
}
