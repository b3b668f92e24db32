use bgp_prefix::Memory;
use bgp_update::Unicast;
use std::alloc::Global;
use unit_rings::DecodedUnits;

/// The sessions of one lane.
pub trait Sessions {
    ghost use Rattle.std.specs.Prelude.{◌<◌, List, [], ◌∷◌, ◌++◌, OnOk, length};
    ghost use Rattle.unit_rings.specs.DecodedUnitLists.{IsDecodedAt};
    ghost use Rattle.unit_rings.specs.Plain.{PeerUnit};

    /// The family of their prefixes, which is that of the units.
    type Addr: Unicast;

    /// The sessions are in the state that these units lead to.
    ghost stands_for: { Self → List PeerUnit → Type 0 };

    fn fresh(alloc: Global) -> Self
        ensures { stands_for result [] };

    /// Prefetches a little of what the sessions will need to take these units, so that the cache misses overlap.
    fn prefetch(&mut self, batch: &DecodedUnits<Self::Addr>)
        ensures { (taken : List PeerUnit) → stands_for self.old taken → stands_for self.new taken };

    /// Takes the next unit, which is at an index of these.
    fn take(
        &mut self,
        alloc: Global,
        batch: &DecodedUnits<Self::Addr>,
        at: usize,
    ) -> Result<(), Memory>
        requires { at < length batch.now.heads }
        ensures { (item : PeerUnit) → IsDecodedAt batch.now at item →
            OnOk result ((taken : List PeerUnit) → stands_for self.old taken →
            stands_for self.new (taken ++ item ∷ [])) };
}
