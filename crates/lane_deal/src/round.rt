//! One round over all lanes.

ghost use Rattle.std.specs.Prelude.{◌≡◌, ◌<◌, ◌^◌, Ok, OnOk, length, map};
ghost use Rattle.std.specs.List.{AllZip};
ghost use Rattle.std.specs.Thread.{IsSync, IsSend};
ghost use Rattle.lane_deal.specs.Results.{IfAnswered};
ghost use Rattle.lane_deal.specs.Asking.{ReadsOn};
ghost use Rattle.lane_deal.specs.DealerSteps.{DealsOn, DealsTo};
ghost use Rattle.lane_deal.specs.LaneRings.{AreReady, Settled};
ghost use Rattle.lane_deal.specs.LaneRounds.{PlaysLanes};
ghost use Rattle.lane_deal.specs.LaneWorkers.{Takes};

use crate::alone::Alone;
use crate::dealer::DealerOf;
use crate::dealing::Dealing;
use crate::gate::Gate;
use crate::halves::{Deals, Works};
use crate::lane::renew_all;
use crate::lane_sender::LaneSenderOf;
use crate::sessions::Sessions;
use crate::step::Step;
use crate::worker::{RoundLimits, WorkerOf, run_all};
use bgp_prefix::Memory;
use bgp_update::Unicast;
use mrt_body::Units;
use mrt_frame::{ReplayError, Source};
use std::alloc::Global;
use std::sync::atomic::{AtomicBool, Ordering};
use std::thread::{Threads, join_mut};

/// Deals in one half while the workers take in the other. The round is over once the dealer ends or a worker fails.
fn deal_and_work<
    T: Threads + Sync,
    F: Unicast + Send,
    L: Deals<Addr = F> + Send,
    R: Source + Send,
    W: Works + Send,
    G: Gate + Sync,
>(
    rt: &T,
    alloc: Global,
    gate: &G,
    limits: RoundLimits,
    dealer: &mut L,
    units: &mut Units<F>,
    files: &mut [R],
    senders: &mut Vec<LaneSenderOf<F>>,
    workers: &mut [W],
) -> (Result<Step, ReplayError>, Result<(), Memory>)
    requires lanes { 0 < length senders.old.items }
    requires files { length files.old ≡ units.old.count }
    ensures deals { DealsOn (λ number. L.lane_of (L.dealer dealer.old).dealing number (length senders.old.items)) limits.batch
        senders.old.items senders.new.items (L.dealer dealer.old) (L.dealer dealer.new) units.old (map R.remaining files.old)
        (map R.failure_count files.old) units.new (map R.remaining files.new) (map R.failure_count files.new) result.0 }
    ensures worked { OnOk result.1 (AllZip W.worked workers.old workers.new) }
{
    let (batch, looks) = (limits.batch, limits.looks);
    let round_over = &AtomicBool::new(false);
    let mut deal = || -> Result<Step, ReplayError>
        requires { (0 < length senders.now.items) × (length files.now ≡ units.now.count) }
        ensures { DealsOn (λ number. L.lane_of (L.dealer dealer.entry.now).dealing number (length senders.entry.now.items))
            batch senders.entry.now.items senders.exit.now.items (L.dealer dealer.entry.now) (L.dealer dealer.exit.now)
            units.entry.now (map R.remaining files.entry.now) (map R.failure_count files.entry.now) units.exit.now
            (map R.remaining files.exit.now) (map R.failure_count files.exit.now) result }
    {
        let step = dealer.deal_on(alloc, gate, batch, looks, round_over, units, files, senders);
        round_over.store(true, Ordering::SeqCst);
        step
    };
    let mut work = || -> Result<(), Memory>
        requires { IsSync T.row × IsSync G.row × IsSend W.row }
        ensures { OnOk result (AllZip W.worked workers.entry.now workers.exit.now) }
    { run_all(rt, alloc, gate, round_over, limits, workers) };
    // If no thread can be started, the workers run last, when the round is over.
    let (worked, step) = join_mut(rt, &mut work, &mut deal);
    (step, worked)
}

/// Deals to the only worker, in this thread: it takes the units as they are dealt, and nothing waits for it then.
fn deal_alone<F: Unicast, D: Dealing, R: Source, S: Sessions<Addr = F>, G: Gate>(
    alloc: Global,
    gate: &G,
    batch: u64,
    dealer: &mut DealerOf<D, F>,
    units: &mut Units<F>,
    files: &mut [R],
    worker: WorkerOf<S, F>,
) -> (WorkerOf<S, F>, Result<Step, ReplayError>)
    requires { length files.old ≡ units.old.count }
    ensures reads { ReadsOn units.old (map R.remaining files.old) (map R.failure_count files.old) units.new
        (map R.failure_count files.new) result.1 }
    ensures at_end { result.1 ≡ Ok Step.End → units.new.file ≡ units.new.count }
    ensures deals { IfAnswered result.1
        (DealsTo (Takes S.stands_for) (λ number. D.lane_of dealer.old.dealing number 1) batch (λ lane. 2 ^ 64) worker
        result.0 dealer.old dealer.new units.old (map R.remaining files.old) units.new (map R.remaining files.new)
        result.1) }
{
    let mut alone = Alone::new(alloc, worker);
    let round_over = AtomicBool::new(false);
    let step = dealer.deal(alloc, gate, batch, 0, &round_over, units, files, &mut alone);
    let (worker, taken) = alone.into_worker(alloc, gate);
    match taken {
        Ok(()) => (worker, step),
        Err(_) => (worker, Err(ReplayError::Memory)),
    }
}

/// Runs one round over all lanes, whose rings are made anew at its end. A single worker that looks once at an empty
/// ring would gain little from a thread of its own: the calling thread deals to it directly, and nothing waits in its
/// ring.
pub fn run_round<
    T: Threads + Sync,
    F: Unicast + Send,
    D: Dealing + Send,
    R: Source + Send,
    S: Sessions<Addr = F> + Send,
    G: Gate + Sync,
>(
    rt: &T,
    alloc: Global,
    capacity: usize,
    gate: &G,
    limits: RoundLimits,
    dealer: &mut DealerOf<D, F>,
    units: &mut Units<F>,
    files: &mut [R],
    senders: &mut Vec<LaneSenderOf<F>>,
    workers: &mut Vec<WorkerOf<S, F>>,
) -> Result<Step, ReplayError>
    requires lanes { 0 < length senders.old.items }
    requires files { length files.old ≡ units.old.count }
    requires ready { AreReady capacity senders.old.items workers.old.items }
    ensures lanes { length senders.new.items ≡ length senders.old.items }
    ensures reads { ReadsOn units.old (map R.remaining files.old) (map R.failure_count files.old) units.new
        (map R.failure_count files.new) result }
    ensures at_end { result ≡ Ok Step.End → units.new.file ≡ units.new.count }
    ensures plays { IfAnswered result
        (PlaysLanes S.stands_for (λ number. D.lane_of dealer.old.dealing number (length senders.old.items)) capacity
        limits.batch senders.old.items workers.old.items senders.new.items workers.new.items dealer.old dealer.new
        units.old (map R.remaining files.old) units.new (map R.remaining files.new) result) }
{
    if workers.len() < 2 && limits.looks == 1 && dealer.blocked_unit.is_none() {
        settle_lanes(rt, alloc, capacity, gate, limits, senders, workers)?;
        let Some(worker) = workers.pop() else {
            unreachable!()
        };
        dealer.lanes_are_below(1);
        let (worker, step) = deal_alone(alloc, gate, limits.batch, dealer, units, files, worker);
        workers.push_reserved(worker);
        return step;
    }
    let (step, worked) = deal_and_work(
        rt, alloc, gate, limits, dealer, units, files, senders, workers,
    );
    let Ok(()) = worked else {
        return Err(ReplayError::Memory);
    };
    match step {
        Ok(step) => {
            renew_all(alloc, capacity, senders, workers)?;
            Ok(step)
        }
        Err(error) => {
            let ReplayError::Read { file } = error else {
                return Err(error);
            };
            renew_all(alloc, capacity, senders, workers)?;
            Err(ReplayError::Read { file })
        }
    }
}

/// Runs one round without dealing: pending units are taken.
pub fn settle_lanes<
    T: Threads + Sync,
    F: Unicast + Send,
    S: Sessions<Addr = F> + Send,
    G: Gate + Sync,
>(
    rt: &T,
    alloc: Global,
    capacity: usize,
    gate: &G,
    limits: RoundLimits,
    senders: &mut [LaneSenderOf<F>],
    workers: &mut [WorkerOf<S, F>],
) -> Result<(), Memory>
    requires ready { AreReady capacity senders.old workers.old }
    ensures { OnOk result (Settled S.stands_for capacity senders.old workers.old senders.new workers.new) }
{
    let round_over = AtomicBool::new(true);
    run_all(rt, alloc, gate, &round_over, limits, workers)?;
    renew_all(alloc, capacity, senders, workers)
}
