//! A run that lists and counts what happened, in one thread and in the order of the files.

ghost use Rattle.std.specs.Prelude.{◌≡◌, ◌+◌, ◌-◌, ◌^◌, ◌<◌, ◌≤◌, IfErr, IfOk, List, OnOk, Some, ℕ, length, map, min, if◌then◌else◌};
ghost use Rattle.peer_tables.specs.Watching.{watch_in};
ghost use Rattle.history_replay.specs.FilesTaken.{StopsReplay};
ghost use Rattle.std.specs.FinMap as finite;
ghost use Rattle.history_replay.specs.Tellings.{IsHistoryOf, routes_chosen, watch_faults, watch_routes};

use crate::told::{Told, tell};
use adj_rib::{RouteId, RouteTable};
use bgp_prefix::{Memory, Prefix, PrefixMap, RouteKey};
use bgp_update::{RouteRef, Unicast};
use mrt_body::{Remarks, Units};
use mrt_frame::{ReplayError, Source};
use peer_tables::{Listing, Watched};
use peer_units::Selection;
use replay_summary::{PeerRemarks, remarks_on};
use route_choice::ChosenRoutes;
use std::alloc::Global;

/// The result of replaying files into rows of what happened, and what was counted.
#[derive(Drop)]
pub struct History<M: PrefixMap<RouteId>>
where
    M::Addr: Unicast,
{
    pub told: Told<M>,
    pub records: u64,
    pub aside: u64,
    /// The number of chosen routes in the tables of all peers. Saturates at `u64::MAX`.
    pub routes: u64,
    pub remarks: Remarks,
    pub peer_remarks: PeerRemarks,
}

/// Replays the files in order into the rows of what happened to chosen prefixes and their chosen routes.
pub fn list_history<F, M, R>(
    alloc: Global,
    files: &mut [R],
    listing: Listing,
    selection: Selection<F>,
    max_records: u64,
) -> Result<History<M>, ReplayError>
where
    F: Unicast,
    M: PrefixMap<RouteId, Addr = F> + Drop,
    R: Source,
    requires { (0 < max_records) × (max_records ≤ 2 ^ 47) }
    // If the readers state their bytes, the rows and watches are those of the units of these.
    ensures listed { (contents : List (List ℕ)) → map R.remaining files.old ≡ map (λ bytes. Some bytes) contents →
        IfOk result (IsHistoryOf listing selection contents) }
    // No reader failed in a replay that is Ok.
    ensures sound { OnOk result (map R.failure_count files.new ≡ map R.failure_count files.old) }
    // An error has its cause.
    ensures cause { IfErr result
        (StopsReplay max_records (map R.remaining files.old) (map R.failure_count files.old)
        (map R.failure_count files.new)) }
{
    let chosen = selection.chosen().copied(alloc)?;
    let mut units = Units::new(alloc, files.len(), max_records, selection);
    let mut told = Told::<M>::new(alloc)?;
    if let Err(error) = tell(alloc, &mut units, files, &chosen, listing, &mut told) {
        return Err(error);
    }
    let Ok(routes) = count_routes(alloc, chosen.routes(), told.watches.watched()) else {
        return Err(ReplayError::Memory);
    };
    let peer_remarks = remarks_on(told.watches.watched(), units.selection().peers());
    Ok(History {
        told,
        records: units.records(),
        aside: units.aside(),
        routes,
        remarks: units.remarks(),
        peer_remarks,
    })
}

/// Returns the number of faults: so many refusals, and the damaged units of all peers. Saturates at `u64::MAX`.
pub fn count_faults<F: Unicast, M: PrefixMap<RouteId, Addr = F>>(
    refusals: u64,
    watches: &[Watched<M>],
) -> u64
    ensures { result ≡ min (refusals + length (watch_faults (map watch_in watches.now))) (2 ^ 64 - 1) }
{
    let mut count = refusals;
    for watched in watches {
        count = count.saturating_add(watched.watch.faults().len() as u64);
    }
    count
}

/// Returns 1 for a route that is chosen, and 0 for another one.
fn one_if(is_chosen: bool) -> u64
    ensures { result ≡ (if is_chosen then 1 else 0) }
{
    if is_chosen { 1 } else { 0 }
}

/// Returns how many of these entries have a chosen route. Saturates at `u64::MAX`.
fn count_chosen<F: Unicast>(
    routes: &ChosenRoutes,
    entries: &[(RouteKey<Prefix<F>>, RouteRef<'_>)],
) -> u64
    ensures { result ≡ min (length (routes_chosen routes.now entries.now)) (2 ^ 64 - 1) }
{
    let mut count = 0u64;
    for entry in entries {
        let is_chosen = routes.is_chosen(&entry.1);
        let one = one_if(is_chosen);
        count = count.saturating_add(one);
    }
    count
}

/// Returns the number of chosen routes in a table. Saturates at `u64::MAX`.
fn count_table<F: Unicast, M: PrefixMap<RouteId, Addr = F>>(
    alloc: Global,
    routes: &ChosenRoutes,
    table: &RouteTable<M>,
) -> Result<u64, Memory>
    ensures { IfOk result (λ count. count
        ≡ min (length (routes_chosen routes.now (finite.entries table.now))) (2 ^ 64 - 1)) }
{
    if routes.is_open() {
        return Ok(table.len() as u64);
    }
    let entries = table.entries(alloc)?;
    Ok(count_chosen(routes, entries.as_slice()))
}

/// Returns the number of chosen routes in the tables of all peers. Saturates at `u64::MAX`.
fn count_routes<F: Unicast, M: PrefixMap<RouteId, Addr = F>>(
    alloc: Global,
    routes: &ChosenRoutes,
    watches: &[Watched<M>],
) -> Result<u64, Memory>
    ensures { IfOk result (λ count. count
        ≡ min (length (watch_routes routes.now (map watch_in watches.now))) (2 ^ 64 - 1)) }
{
    let mut count = 0u64;
    for watched in watches {
        let more = count_table(alloc, routes, watched.watch.table())?;
        count = count.saturating_add(more);
    }
    Ok(count)
}
