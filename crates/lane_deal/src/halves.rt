//! What a round knows of its two halves. Its two closures have no type parameter in common, since the borrow checker
//! covers no others.

use crate::gate::Gate;
use crate::lane_sender::LaneSenderOf;
use crate::step::Step;
use crate::worker::RoundLimits;
use bgp_prefix::Memory;
use bgp_update::Unicast;
use mrt_body::Units;
use mrt_frame::{ReplayError, Source};
use std::alloc::Global;
use std::sync::atomic::AtomicBool;

/// What deals units to lanes.
pub trait Deals {
    ghost use Rattle.std.specs.Prelude.{◌≡◌, ℕ, ◌<◌, length, map};
    ghost use Rattle.lane_deal.specs.Dealers.{Dealer};
    ghost use Rattle.lane_deal.specs.DealerSteps.{DealsOn};

    /// The family of their prefixes.
    type Addr: Unicast;

    /// Its way of dealing.
    ghost Way: { Type 0 };

    /// What it shows.
    ghost dealer: { Self → Dealer Way };

    /// The lane of a peer's number, for this number of lanes.
    ghost lane_of: { Way → ℕ → ℕ → ℕ };

    /// Deals until a ring is full and stays full for this many further looks, a batch is dealt or the files end.
    fn deal_on<R: Source, G: Gate>(
        &mut self,
        alloc: Global,
        gate: &G,
        batch: u64,
        looks: u32,
        round_over: &AtomicBool,
        units: &mut Units<Self::Addr>,
        files: &mut [R],
        senders: &mut Vec<LaneSenderOf<Self::Addr>>,
    ) -> Result<Step, ReplayError>
        requires lanes { 0 < length senders.old.items }
        requires files { length files.old ≡ units.old.count }
        ensures { DealsOn (λ number. lane_of (dealer self.old).dealing number (length senders.old.items)) batch
            senders.old.items senders.new.items (dealer self.old) (dealer self.new) units.old (map R.remaining files.old)
            (map R.failure_count files.old) units.new (map R.remaining files.new) (map R.failure_count files.new)
            result };
}

/// The taking half of a lane.
pub trait Works {
    ghost use Rattle.std.specs.Prelude.{OnOk};

    /// What it does in a round.
    ghost worked: { Self → Self → Type 0 };

    /// Takes what it knows to be in its ring, and then what it finds by looking again.
    fn run<G: Gate>(
        &mut self,
        alloc: Global,
        gate: &G,
        round_over: &AtomicBool,
        limits: RoundLimits,
    ) -> Result<(), Memory>
        ensures { OnOk result (worked self.old self.new) };
}
