ghost use Rattle.std.specs.Prelude.{◌≡◌, Ok, OnOk, List, [], length, ◌<◌, true, false};
ghost use Rattle.std.specs.List.{AllZip};
ghost use Rattle.std.specs.Thread.{IsSync, IsSend};
ghost use Rattle.unit_rings.specs.DecodedUnitLists.{AreDecoded};
ghost use Rattle.unit_rings.specs.Plain.{PeerUnit};
ghost use Rattle.unit_rings.specs.UnitLists.{units_of};

use crate::gate::Gate;
use crate::halves::Works;
use crate::sessions::Sessions;
use bgp_prefix::{Memory, Prefix};
use bgp_update::{Rules, Unicast};
use rtrb::{Consumer, Producer};
use std::alloc::Global;
use std::sync::atomic::{AtomicBool, Ordering};
use std::thread::{Threads, join_mut};
use unit_rings::{DecodedUnits, NonEmptyLists, UnitList, UnitListOf};

/// The taking half of a lane.
#[derive(Drop)]
pub struct Worker<S, P = Prefix, K = Rules> {
    pub lane: usize,
    pub consumer: Consumer<UnitList<P, K>, Global, NonEmptyLists>,
    pub sessions: S,
    pub taken: u64,
    /// Where the lists go whose units were taken: the dealer fills them again.
    pub recycled: Producer<UnitList<P, K>, Global>,
}

/// The taking half of a lane of a family.
pub type WorkerOf<S, F> = Worker<S, Prefix<F>, Rules<F>>;

/// How long a worker keeps looking in one round.
#[derive(Clone, Copy)]
pub struct RoundLimits {
    pub looks: u32,
    pub batch: u64,
}

/// Decodes each unit of a list.
fn decode_all<F: Unicast>(
    alloc: Global,
    items: &UnitListOf<F>,
    batch: &mut DecodedUnits<F>,
) -> Result<(), Memory>
    ensures { OnOk result (AreDecoded batch.new (units_of items.now)) }
{
    batch.clear();
    for at in 0..items.len() {
        let item = items.at(at);
        batch.push(alloc, item.number, &item.unit)?;
    }
    Ok(())
}

impl<F: Unicast, S: Sessions<Addr = F>> Worker<S, Prefix<F>, Rules<F>> {
    ghost use Rattle.lane_deal.specs.LaneWorkers.{Took, TookFront, TookSome, Takes};
    ghost use Rattle.unit_rings.specs.UnitRings.{known_items, known_lists, received};

    fn take_all_known<G: Gate>(
        &mut self,
        alloc: Global,
        gate: &G,
        batch: &mut DecodedUnits<F>,
    ) -> Result<(), Memory>
        ensures { OnOk result (Took S.stands_for self.old self.new (known_items self.old.consumer)) }
    {
        // A hint for the proof: what holds of the count is known once it is read.
        let _taken = self.taken;
        while self.consumer.cached_slots() > 0 {
            self.take_list(alloc, gate, batch)?;
        }
        Ok(())
    }

    fn poll<G: Gate>(
        &mut self,
        alloc: Global,
        gate: &G,
        round_over: &AtomicBool,
        limits: RoundLimits,
        batch: &mut DecodedUnits<F>,
    ) -> Result<(), Memory>
        ensures { OnOk result (TookSome S.stands_for self.old self.new) }
    {
        let mut empty = 0;
        // How many of them came since the worker last found a unit.
        let mut in_a_row = 0u32;
        let mut further = 0u64;
        while empty < limits.looks && further < limits.batch {
            let last = round_over.load(Ordering::SeqCst);
            if self.take_found(alloc, gate, batch)? {
                further = further.saturating_add(batch.len() as u64).max(further + 1);
                in_a_row = 0;
            } else if last {
                break;
            } else {
                empty += 1;
                in_a_row = in_a_row.saturating_add(1);
                gate.pause(in_a_row);
            }
        }
        Ok(())
    }

    /// Looks at the ring again, and takes the first list of what it finds. Returns whether it found any.
    fn take_found<G: Gate>(
        &mut self,
        alloc: Global,
        gate: &G,
        batch: &mut DecodedUnits<F>,
    ) -> Result<bool, Memory>
        ensures took { OnOk result (TookSome S.stands_for self.old self.new) }
        ensures none { result ≡ Ok false → received self.new.consumer ≡ received self.old.consumer }
        ensures some { result ≡ Ok true → length (received self.old.consumer) < length (received self.new.consumer) }
    {
        // A hint for the proof: what holds of the count is known once it is read.
        let _taken = self.taken;
        if self.consumer.is_empty() {
            return Ok(false);
        }
        self.take_list(alloc, gate, batch)?;
        Ok(true)
    }

    /// Takes the units of the first list that it knows to be in its ring.
    fn take_list<G: Gate>(
        &mut self,
        alloc: Global,
        gate: &G,
        batch: &mut DecodedUnits<F>,
    ) -> Result<(), Memory>
        requires { 0 < length (known_lists self.old.consumer) }
        ensures { OnOk result (TookFront S.stands_for self.old self.new) }
    {
        let items = self.consumer.pop_known();
        decode_all(alloc, &items, batch)?;
        self.take_decoded(alloc, gate, batch)?;
        self.give_back(items);
        Ok(())
    }

    /// Gives a list whose units were taken back to the dealer. It is freed if its memory is large, or if as many wait
    /// there as may.
    fn give_back(&mut self, list: UnitListOf<F>)
        ensures { self.new ≡ record self.old { recycled = self.new.recycled } }
    {
        if list.is_worth_keeping() {
            let _ = self.recycled.push(list);
        }
    }

    /// Takes these units, in order.
    pub fn take_decoded<G: Gate>(
        &mut self,
        alloc: Global,
        gate: &G,
        batch: &DecodedUnits<F>,
    ) -> Result<(), Memory>
        ensures { OnOk result ((items : List PeerUnit) → AreDecoded batch.now items →
            Takes S.stands_for self.old self.new items) }
    {
        self.sessions.prefetch(batch);
        for at in 0..batch.len() {
            gate.before(self.lane, self.taken);
            self.sessions.take(alloc, batch, at)?;
            self.taken = self.taken.saturating_add(1);
        }
        Ok(())
    }
}

impl<F: Unicast, S: Sessions<Addr = F>> Works for Worker<S, Prefix<F>, Rules<F>> {
    ghost use Rattle.lane_deal.specs.LaneWorkers.{Worked};

    ghost worked = { Worked S.stands_for };

    fn run<G: Gate>(
        &mut self,
        alloc: Global,
        gate: &G,
        round_over: &AtomicBool,
        limits: RoundLimits,
    ) -> Result<(), Memory> {
        let mut batch = DecodedUnits::new(alloc);
        self.take_all_known(alloc, gate, &mut batch)?;
        self.poll(alloc, gate, round_over, limits, &mut batch)
    }
}

/// Runs each worker in its own thread if one can be started.
#[cycle(halves)]
pub fn run_all<R: Threads + Sync, W: Works + Send, G: Gate + Sync>(
    rt: &R,
    alloc: Global,
    gate: &G,
    round_over: &AtomicBool,
    limits: RoundLimits,
    workers: &mut [W],
) -> Result<(), Memory>
    ensures { OnOk result (AllZip W.worked workers.old workers.new) }
{
    if workers.len() < 2 {
        return run_at_most_one(alloc, gate, round_over, limits, workers);
    }
    let half = workers.len() / 2;
    let (front, back) = workers.split_at_mut(half);
    run_both(rt, alloc, gate, round_over, limits, front, back)
}

#[cycle(halves)]
fn run_both<R: Threads + Sync, W: Works + Send, G: Gate + Sync>(
    rt: &R,
    alloc: Global,
    gate: &G,
    round_over: &AtomicBool,
    limits: RoundLimits,
    front: &mut [W],
    back: &mut [W],
) -> Result<(), Memory>
    requires { (0 < length front.old) × (0 < length back.old) }
    ensures front { OnOk result (AllZip W.worked front.old front.new) }
    ensures back { OnOk result (AllZip W.worked back.old back.new) }
{
    let mut run_front = || -> Result<(), Memory>
        requires { IsSync R.row × IsSync G.row × IsSend W.row }
        ensures { OnOk result (AllZip W.worked front.entry.now front.exit.now) }
    { run_all(rt, alloc, gate, round_over, limits, front) };
    let mut run_back = || -> Result<(), Memory>
        requires { IsSync R.row × IsSync G.row × IsSend W.row }
        ensures { OnOk result (AllZip W.worked back.entry.now back.exit.now) }
    { run_all(rt, alloc, gate, round_over, limits, back) };
    let (first, second) = join_mut(rt, &mut run_front, &mut run_back);
    first?;
    second
}

/// Runs the worker, if there is one, in the calling thread.
pub fn run_at_most_one<W: Works, G: Gate>(
    alloc: Global,
    gate: &G,
    round_over: &AtomicBool,
    limits: RoundLimits,
    workers: &mut [W],
) -> Result<(), Memory>
    requires { length workers.old < 2 }
    ensures { OnOk result (AllZip W.worked workers.old workers.new) }
{
    if workers.is_empty() {
        return Ok(());
    }
    let ran = workers[0].run(alloc, gate, round_over, limits);
    if ran.is_err() {
        // This keeps the dealer from retrying for long to push into this lane.
        round_over.store(true, Ordering::SeqCst);
    }
    ran
}
