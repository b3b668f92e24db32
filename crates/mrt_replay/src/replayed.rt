//! The replay of files into tables, by workers in lanes.

ghost use Rattle.std.specs.Prelude.{◌≡◌, ◌≢◌, ◌≤◌, true, false, List, ℕ, IfOk, IfErr, OnOk, Some, length, map};
ghost use Rattle.mrt_frame.specs.declared.read_state.ReadState.TheVariants.{Reading, Ended};
ghost use Rattle.lane_deal.specs.declared.step.Step.TheVariants.{End};
ghost use Rattle.lane_deal.specs.Plans.{IsPlan};
ghost use Rattle.lane_deal.specs.Playing.{shown};
ghost use Rattle.history_replay.specs.FilesTaken.{StopsFiles, StopsReplay};
ghost use Rattle.mrt_replay.specs.Replays.{HasPlayed, IsReplayOf};

use adj_rib::RouteId;
use bgp_prefix::PrefixMap;
use bgp_update::Unicast;
use lane_deal::{Dealing, Gate, Plan, Replayer, Step};
use mrt_body::{Remarks, Units};
use mrt_frame::{ReplayError, Source};
use peer_units::Selection;
use replay_summary::{PeerRemarks, remarks_on};
use rib_report::Tables;
use std::alloc::Global;
use std::marker::Sync;
use std::thread::Threads;

/// The result of replaying files: the tables of all peers, and what was counted.
#[derive(Drop)]
pub struct Replayed<M: PrefixMap<RouteId>> {
    pub tables: Tables<M>,
    pub records: u64,
    pub units: u64,
    pub aside: u64,
    pub rounds: u64,
    pub remarks: Remarks,
    pub peer_remarks: PeerRemarks,
}

fn is_end(step: Step) -> bool
    ensures end { result ≡ true → step ≡ End }
    ensures more { result ≡ false → step ≢ End }
{
    match step {
        Step::End => true,
        _ => false,
    }
}

/// Runs rounds until the files end.
fn play<F, M, T, R, D, G>(
    rt: &T,
    alloc: Global,
    units: &mut Units<F>,
    files: &mut [R],
    replayer: &mut Replayer<M, D>,
    gate: &G,
) -> Result<(), ReplayError>
where
    F: Unicast + Send,
    M: PrefixMap<RouteId, Addr = F> + Send + Drop,
    T: Threads + Sync,
    R: Source + Send,
    D: Dealing + Send,
    G: Gate + Sync,
    requires files { length files.old ≡ units.old.count }
    requires reading { units.old.state ≡ Reading }
    requires running { replayer.old.state ≡ Reading }
    requires plan { IsPlan replayer.old.plan }
    ensures kept { OnOk result ((replayer.new.plan ≡ replayer.old.plan) ×
        (replayer.new.dealer.dealing ≡ replayer.old.dealer.dealing) × (replayer.new.state ≡ Ended)) }
    ensures played { OnOk result
        (HasPlayed (D.lane_of replayer.old.dealer.dealing) replayer.old.plan (shown replayer.old) (shown replayer.new)
        units.old units.new (map R.remaining files.old) replayer.old.rounds replayer.new.rounds) }
    ensures sound { OnOk result (map R.failure_count files.new ≡ map R.failure_count files.old) }
    ensures cause { IfErr result
        (StopsFiles units.old (map R.remaining files.old) (map R.failure_count files.old)
        (map R.failure_count files.new)) }
{
    'rounds: loop {
        replayer.lanes_are_below();
        let step = match replayer.round(rt, alloc, units, files, gate) {
            Ok(step) => step,
            Err(error) => return Err(error),
        };
        if gate.is_counting() {
            gate.counted(replayer.routes());
        }
        if is_end(step) {
            return Ok(());
        }
    }
}

/// Replays the files in order into one table per peer, of which the chosen routes of chosen prefixes are left.
pub fn replay<F, M, T, R, D, G>(
    rt: &T,
    alloc: Global,
    files: &mut [R],
    selection: Selection<F>,
    plan: &Plan,
    dealing: &D,
    gate: &G,
) -> Result<Replayed<M>, ReplayError>
where
    F: Unicast + Send + Sync,
    M: PrefixMap<RouteId, Addr = F> + Send + Drop,
    T: Threads + Sync,
    R: Source + Send,
    D: Dealing + Sync,
    G: Gate + Sync,
    requires { IsPlan plan.now }
    // If the readers state their bytes, the tables stand for the units and refusals of these.
    ensures replayed { (contents : List (List ℕ)) → map R.remaining files.old ≡ map (λ bytes. Some bytes) contents →
        IfOk result (IsReplayOf selection plan.now contents) }
    // No reader failed in a replay that is Ok.
    ensures sound { OnOk result (map R.failure_count files.new ≡ map R.failure_count files.old) }
    // An error has its cause.
    ensures cause { IfErr result
        (StopsReplay plan.now.max_records (map R.remaining files.old) (map R.failure_count files.old)
        (map R.failure_count files.new)) }
{
    let chosen = selection.chosen().copied(alloc)?;
    let mut units = Units::new(alloc, files.len(), plan.max_records, selection);
    let mut replayer = Replayer::<M, &D>::new(alloc, *plan, dealing)?;
    if let Err(error) = play(rt, alloc, &mut units, files, &mut replayer, gate) {
        return Err(error);
    }
    let Ok(()) = replayer.settle(rt, alloc, gate) else {
        return Err(ReplayError::Memory);
    };
    let dealt = replayer.dealt();
    let rounds = replayer.rounds();
    let Ok(mut tables) = replayer.into_tables(alloc) else {
        return Err(ReplayError::Memory);
    };
    let peer_remarks = remarks_on(tables.seats(), units.selection().peers());
    let Ok(()) = tables.retain(rt, alloc, plan.workers, &chosen) else {
        return Err(ReplayError::Memory);
    };
    Ok(Replayed {
        tables,
        records: units.records(),
        units: dealt,
        aside: units.aside(),
        rounds,
        remarks: units.remarks(),
        peer_remarks,
    })
}
