//! How many units of a peer came, and where the first one stands.

use peer_units::Place;

/// How many units of a peer were taken, and where the first one stands.
#[derive(Clone, Copy, Debug, PartialEq, Eq)]
pub struct Arrivals {
    /// Of every kind that is recorded, damaged ones among them. Stops at `u64::MAX`.
    pub units: u64,
    /// The place of the first unit, if there is one.
    pub first: Option<Place>,
}

impl Arrivals {
    ghost use Rattle.std.specs.Prelude.{◌≡◌, if◌then◌else◌};
    ghost use Rattle.adj_rib.specs.Arrived.{arrived, no_arrivals};

    /// Returns the arrivals of no unit.
    pub(crate) fn new() -> Arrivals
        ensures { result ≡ no_arrivals }
    {
        Arrivals {
            units: 0,
            first: None,
        }
    }

    /// Notes a unit, if it is recorded.
    #[inline(always)]
    #[tactic(auto, unfolding(crate::specs::Arrived::arrived))]
    pub(crate) fn note(&mut self, is_recorded: bool, place: Place)
        ensures { self.new ≡ (if is_recorded then arrived place self.old else self.old) }
    {
        if is_recorded {
            self.units = self.units.saturating_add(1);
            if self.first.is_none() {
                self.first = Some(place);
            }
        }
    }
}
