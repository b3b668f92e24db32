ghost use Rattle.std.specs.Prelude.{◌≡◌, ◌≤◌, OnOk, IfOk, length, [], ℕ, ◌<◌, slice_index_or};
ghost use Rattle.unit_rings.specs.UnitRings.{IsPair, ring_capacity};
ghost use Rattle.lane_deal.specs.LaneRings.{Renewed, RenewedAll, IsLane, AreFresh};

use crate::lane_sender::{LaneSender, LaneSenderOf};
use crate::sessions::Sessions;
use crate::worker::{Worker, WorkerOf};
use bgp_prefix::Memory;
use bgp_update::Unicast;
use rtrb::RingBuffer;
use std::alloc::Global;
use unit_rings::{UnitProducer, recycled_room};

/// Compares both ends of the lane's ring, and moves the pending items to a new ring.
pub fn renew<F: Unicast, S>(
    alloc: Global,
    capacity: usize,
    sender: &mut LaneSenderOf<F>,
    worker: &mut WorkerOf<S, F>,
) -> Result<(), Memory>
    requires pair { IsPair sender.old.producer worker.old.consumer }
    requires capacity { ring_capacity sender.old.producer ≡ capacity }
    ensures { OnOk result (Renewed capacity sender.old worker.old sender.new worker.new) }
{
    sender.producer.compare(&mut worker.consumer);
    let (mut producer, mut consumer) = UnitProducer::new(alloc, capacity)?;
    producer.move_lists(&mut worker.consumer)?;
    producer.move_open_list(alloc, &mut sender.producer)?;
    producer.compare(&mut consumer);
    sender.producer = producer;
    worker.consumer = consumer;
    Ok(())
}

/// Renews each lane.
pub fn renew_all<F: Unicast, S>(
    alloc: Global,
    capacity: usize,
    senders: &mut [LaneSenderOf<F>],
    workers: &mut [WorkerOf<S, F>],
) -> Result<(), Memory>
    requires lanes { length workers.old ≡ length senders.old }
    requires pairs { (lane : ℕ) (d : _) (e : _) → lane < length senders.old →
        IsLane capacity (slice_index_or senders.old lane d) (slice_index_or workers.old lane e) }
    ensures { OnOk result (RenewedAll capacity senders.old workers.old senders.new workers.new) }
{
    for lane in 0..senders.len() {
        renew(alloc, capacity, &mut senders[lane], &mut workers[lane])?;
    }
    Ok(())
}

/// Makes lanes to which nothing has been dealt.
pub fn make_lanes<F: Unicast, S: Sessions<Addr = F> + Drop>(
    alloc: Global,
    capacity: usize,
    count: usize,
) -> Result<(Vec<LaneSenderOf<F>>, Vec<WorkerOf<S, F>>), Memory>
    ensures { IfOk result (λ made. AreFresh S.stands_for capacity count made.0.items made.1.items) }
{
    let mut senders = Vec::new(alloc);
    let mut workers = Vec::new(alloc);
    for lane in 0..count {
        let (producer, consumer) = UnitProducer::new(alloc, capacity)?;
        let (gives_back, recycled) = RingBuffer::new(alloc, recycled_room(capacity))?;
        senders.push(LaneSender {
            producer,
            dealt: 0,
            recycled,
        })?;
        workers.push(Worker {
            lane,
            consumer,
            sessions: S::fresh(alloc),
            taken: 0,
            recycled: gives_back,
        })?;
    }
    Ok((senders, workers))
}
