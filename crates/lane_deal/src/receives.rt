//! Where the dealer's units go.

use crate::gate::Gate;
use bgp_prefix::Memory;
use bgp_update::Unicast;
use peer_units::UnitRef;
use std::alloc::Global;
use std::sync::atomic::AtomicBool;

/// What receives units as they are dealt: the rings of the lanes, or a single worker.
pub trait Receives {
    ghost use Rattle.std.specs.Prelude.{◌≡◌, ◌≤◌, ◌<◌, ◌+◌, ℕ, List, [], ◌∷◌, ◌++◌, true, false, OnOk, length};
    ghost use Rattle.peer_units.specs.Payloads.{IsSmallUnit};
    ghost use Rattle.lane_deal.specs.LaneSenders.{in_lane};
    ghost use Rattle.unit_rings.specs.Plain.{PeerUnit};

    /// The family of their prefixes.
    type Addr: Unicast;

    /// How many lanes there are.
    ghost count: { Self → ℕ };

    /// For how many more units a lane has room.
    ghost room: { Self → ℕ → ℕ };

    /// These units were received, in order, each by the lane of its peer's number.
    ghost received: { (ℕ → ℕ) → Self → Self → List PeerUnit → Type 0 };

    /// The number of lanes.
    fn lanes(&self) -> usize
        ensures { result ≡ count self.now };

    /// Whether there is room for a unit in a lane, at once or at one of this many further looks.
    fn has_room<G: Gate>(
        &mut self,
        gate: &G,
        lane: usize,
        looks: u32,
        round_over: &AtomicBool,
    ) -> bool
        requires { lane < count self.old }
        ensures looked { (lane_of : ℕ → ℕ) → received lane_of self.old self.new [] }
        ensures room { result ≡ true → 0 < room self.new lane }
        ensures full { result ≡ false → room self.old lane ≡ 0 }
        ensures lanes { count self.new ≡ count self.old };

    /// Receives this unit of the peer with this number, whose lane has room for it.
    fn receive<G: Gate>(
        &mut self,
        alloc: Global,
        gate: &G,
        lane: usize,
        number: usize,
        unit: &UnitRef<'_, Self::Addr>,
    ) -> Result<(), Memory>
        requires lane { lane < count self.old }
        requires small { IsSmallUnit unit.now }
        requires room { 0 < room self.old lane }
        ensures received { OnOk result ((lane_of : ℕ → ℕ) → lane_of number ≡ lane →
            received lane_of self.old self.new (record { number = number; unit = unit.now } ∷ [])) }
        ensures lanes { count self.new ≡ count self.old };

    /// What is received adds up. Does nothing.
    fn adds_up(&self)
        ensures nothing { (lane_of : ℕ → ℕ) (a : Self) → received lane_of a a [] }
        ensures joined { (lane_of : ℕ → ℕ) (a b c : Self) (xs ys : List PeerUnit) → received lane_of a b xs →
            received lane_of b c ys → received lane_of a c (xs ++ ys) }
        // It takes no more room than it counts.
        ensures spent { (lane_of : ℕ → ℕ) (a b : Self) (xs : List PeerUnit) (lane : ℕ) → lane < count a →
            received lane_of a b xs → room a lane ≤ room b lane + length (in_lane lane_of lane xs) };
}
