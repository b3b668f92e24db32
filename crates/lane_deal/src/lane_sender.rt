ghost use Rattle.std.specs.Prelude.{◌≡◌, ◌+◌, ◌-◌, ◌^◌, ◌<◌, min, true, false, [], ◌∷◌, OnOk};
ghost use Rattle.peer_units.specs.Payloads.{IsSmallUnit};

use crate::gate::Gate;
use crate::receives::Receives;
use bgp_prefix::{Memory, Prefix};
use bgp_update::{Rules, Unicast};
use peer_units::UnitRef;
use rtrb::Consumer;
use std::alloc::Global;
use std::sync::atomic::{AtomicBool, Ordering};
use unit_rings::{UnitList, UnitProducer};

/// The maximum number of further looks for room: a round's end costs no more than these.
const MOST_LOOKS: u32 = 1_000;

/// After a full ring, a dealer waits for more than this many free slots, so that it doesn't sleep after every unit.
const MOST_ROOM: usize = 64;

/// The dealing half of a lane.
#[derive(Drop)]
pub struct LaneSender<P = Prefix, K = Rules> {
    pub producer: UnitProducer<P, K>,
    /// The number of units dealt to the lane, in all rounds. Saturates at `u64::MAX`.
    pub dealt: u64,
    /// The lists that the worker emptied, whose memory is used again.
    pub recycled: Consumer<UnitList<P, K>, Global>,
}

/// The dealing half of a lane of a family.
pub type LaneSenderOf<F> = LaneSender<Prefix<F>, Rules<F>>;

impl<F: Unicast> LaneSender<Prefix<F>, Rules<F>> {
    ghost use Rattle.lane_deal.specs.LaneSenders.{Pushed};
    ghost use Rattle.unit_rings.specs.UnitRings.{known_free};

    /// Looks this many times, until there is room for more than an eighth of the ring, or for more than `MOST_ROOM`
    /// units. Waits a little before each look. Returns whether there is any room at the end. If the round is
    /// over because a worker failed, it stops looking.
    #[inline(never)]
    fn poll<G: Gate>(&mut self, gate: &G, looks: u32, round_over: &AtomicBool) -> bool
        ensures looked { Pushed self.old self.new [] }
        ensures counted { self.new.dealt ≡ self.old.dealt }
        ensures room { result ≡ true → 0 < known_free self.new.producer }
    {
        let enough = (self.producer.capacity() / 8).min(MOST_ROOM);
        for look in 0..looks {
            if round_over.load(Ordering::SeqCst) {
                break;
            }
            gate.wait_for_room(look + 1);
            if self.producer.look() > enough {
                return true;
            }
        }
        self.producer.free() > 0
    }

    /// Whether there is room for a unit, at once or at one of this many further looks, of which it takes at most
    /// `MOST_LOOKS`.
    #[inline(always)]
    pub fn has_room<G: Gate>(&mut self, gate: &G, looks: u32, round_over: &AtomicBool) -> bool
        ensures looked { Pushed self.old self.new [] }
        ensures counted { self.new.dealt ≡ self.old.dealt }
        ensures room { result ≡ true → 0 < known_free self.new.producer }
        ensures full { result ≡ false → known_free self.old.producer ≡ 0 }
    {
        if self.producer.is_full() {
            return self.poll(gate, looks.min(MOST_LOOKS), round_over);
        }
        true
    }

    /// Deals a copy of this unit of the peer with this number to the ring, which has room for it.
    #[inline(always)]
    pub fn push<G: Gate>(
        &mut self,
        alloc: Global,
        gate: &G,
        lane: usize,
        number: usize,
        unit: &UnitRef<'_, F>,
    ) -> Result<(), Memory>
        requires small { IsSmallUnit unit.now }
        requires room { 0 < known_free self.old.producer }
        ensures pushed { OnOk result
            (Pushed self.old self.new (record { number = number; unit = unit.now } ∷ [])) }
        ensures counted { OnOk result (self.new.dealt ≡ min (self.old.dealt + 1) (2 ^ 64 - 1)) }
    {
        self.producer.push(alloc, &mut self.recycled, number, unit)?;
        gate.dealt(lane, self.dealt);
        self.dealt = self.dealt.saturating_add(1);
        Ok(())
    }
}

/// The rings of lanes.
impl<F: Unicast> Receives for Vec<LaneSenderOf<F>> {
    ghost use Rattle.std.specs.Prelude.{length};
    ghost use Rattle.lane_deal.specs.LaneSenders.{Dealt, room_of};

    type Addr = F;

    ghost count = { λ senders. length senders.items };

    ghost room = { λ senders lane. room_of senders.items lane };

    ghost received = { λ lane_of a b items. Dealt lane_of a.items b.items items };

    #[inline(always)]
    fn lanes(&self) -> usize {
        self.len()
    }

    #[inline(always)]
    fn has_room<G: Gate>(
        &mut self,
        gate: &G,
        lane: usize,
        looks: u32,
        round_over: &AtomicBool,
    ) -> bool {
        self[lane].has_room(gate, looks, round_over)
    }

    #[inline(always)]
    fn receive<G: Gate>(
        &mut self,
        alloc: Global,
        gate: &G,
        lane: usize,
        number: usize,
        unit: &UnitRef<'_, F>,
    ) -> Result<(), Memory> {
        self[lane].push(alloc, gate, lane, number, unit)
    }

    fn adds_up(&self) {}
}
