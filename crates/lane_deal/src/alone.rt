//! A single worker that takes units as they are dealt, in the thread that deals: they are decoded from their records,
//! and pass no ring.

use crate::gate::Gate;
use crate::receives::Receives;
use crate::sessions::Sessions;
use crate::worker::WorkerOf;
use bgp_prefix::Memory;
use bgp_update::Unicast;
use peer_units::UnitRef;
use std::alloc::Global;
use std::sync::atomic::AtomicBool;
use unit_rings::DecodedUnits;

/// The number of units that are decoded before the first of them is taken: what their sessions will read is prefetched
/// for all of them first.
const MOST_DECODED: usize = 32;

/// A worker with the units that were dealt to it and wait to be taken.
#[derive(Drop)]
pub struct Alone<S, F: Unicast> {
    worker: WorkerOf<S, F>,
    waiting: DecodedUnits<F>,
}

impl<F: Unicast, S: Sessions<Addr = F>> Alone<S, F> {
    ghost use Rattle.std.specs.Prelude.{◌≡◌, ◌++◌, List, [], OnOk};
    ghost use Rattle.unit_rings.specs.DecodedUnitLists.{no_batch};
    ghost use Rattle.lane_deal.specs.LaneWorkers.{Takes, TakesAhead};
    ghost use Rattle.unit_rings.specs.Plain.{PeerUnit};

    /// The worker alone, for whom no unit waits.
    pub fn new(alloc: Global, worker: WorkerOf<S, F>) -> Alone<S, F>
        ensures worker { result.worker ≡ worker }
        ensures none { TakesAhead S.stands_for worker result.worker result.waiting [] }
    {
        Alone {
            worker,
            waiting: DecodedUnits::new(alloc),
        }
    }

    /// Takes the units that wait.
    #[inline(never)]
    fn take_waiting<G: Gate>(&mut self, alloc: Global, gate: &G) -> Result<(), Memory>
        ensures { OnOk result (((before : _) (items : List PeerUnit) →
            TakesAhead S.stands_for before self.old.worker self.old.waiting items →
            Takes S.stands_for before self.new.worker items) × (self.new.waiting ≡ no_batch)) }
    {
        self.worker.take_decoded(alloc, gate, &self.waiting)?;
        self.waiting.clear();
        Ok(())
    }

    /// Takes the units that wait, and returns the worker.
    pub fn into_worker<G: Gate>(
        self,
        alloc: Global,
        gate: &G,
    ) -> (WorkerOf<S, F>, Result<(), Memory>)
        ensures { OnOk result.1 ((before : _) (items : List PeerUnit) →
            TakesAhead S.stands_for before self.worker self.waiting items →
            Takes S.stands_for before result.0 items) }
    {
        let mut alone = self;
        let taken = alone.take_waiting(alloc, gate);
        (alone.worker, taken)
    }
}

/// The only lane, which has room for any number of units.
impl<F: Unicast, S: Sessions<Addr = F>> Receives for Alone<S, F> {
    ghost use Rattle.std.specs.Prelude.{◌^◌, ◌++◌, List};
    ghost use Rattle.lane_deal.specs.LaneWorkers.{TakesAhead};
    ghost use Rattle.unit_rings.specs.Plain.{PeerUnit};

    type Addr = F;

    ghost count = { λ a. 1 };

    ghost room = { λ a lane. 2 ^ 64 };

    ghost received = { λ lane_of a b items. (before : _) (given : List PeerUnit) →
        TakesAhead S.stands_for before a.worker a.waiting given →
        TakesAhead S.stands_for before b.worker b.waiting (given ++ items) };

    #[inline(always)]
    fn lanes(&self) -> usize {
        1
    }

    #[inline(always)]
    fn has_room<G: Gate>(
        &mut self,
        _gate: &G,
        _lane: usize,
        _looks: u32,
        _over: &AtomicBool,
    ) -> bool {
        true
    }

    #[inline(always)]
    fn receive<G: Gate>(
        &mut self,
        alloc: Global,
        gate: &G,
        lane: usize,
        number: usize,
        unit: &UnitRef<'_, F>,
    ) -> Result<(), Memory> {
        let waiting = self.waiting.len() as u64;
        self.waiting.push(alloc, number, unit)?;
        gate.dealt(lane, self.worker.taken.saturating_add(waiting));
        if self.waiting.len() < MOST_DECODED {
            return Ok(());
        }
        self.take_waiting(alloc, gate)
    }

    fn adds_up(&self) {}
}
