//! The replay of files into rows of what happened, in one thread and in the order of the files.

ghost use Rattle.std.specs.Prelude.{◌≡◌, [], ◌∷◌, ◌++◌, IfErr, IfOk, List, OnOk, length, map};
ghost use Rattle.std.specs.List.{filter_map};
ghost use Rattle.mrt_body.specs.Units.{damage_of, unit_of};
ghost use Rattle.peer_units.specs.Choices.{Choices as AnyChoices};
ghost use Rattle.mrt_frame.specs.declared.read_state.ReadState.TheVariants.{Reading};
ghost use Rattle.peer_units.specs.declared.unit.Damage.{Damage as AnyDamage};
ghost use Rattle.peer_units.specs.Plain.{Unit as ReplayUnit};
ghost use Rattle.peer_tables.specs.declared.history.Listing.{Listing as AnyListing};
ghost use Rattle.history_replay.specs.FilesTaken.{HasTakenFiles, StopsFiles};
ghost use Rattle.history_replay.specs.Tellings.{Tells};

use adj_rib::RouteId;
use bgp_prefix::{Memory, PrefixMap};
use bgp_update::Unicast;
use mrt_body::Units;
use mrt_frame::{ReplayError, Source};
use peer_tables::{HistoryRows, Listing, Watches};
use peer_units::{Chosen, Damage, Found, FoundOf, UnitRef};
use std::alloc::Global;

/// What a replay of files into rows leaves: the watches on all peers, the rows, the refusals, and how many units there
/// were, which stops at `u64::MAX`.
#[derive(Drop)]
pub struct Told<M: PrefixMap<RouteId>>
where
    M::Addr: Unicast,
{
    pub watches: Watches<M>,
    pub rows: HistoryRows<M::Addr>,
    pub refused: Vec<Damage>,
    pub units: u64,
}

impl<F: Unicast, M: PrefixMap<RouteId, Addr = F> + Drop> Told<M> {
    ghost use Rattle.std.specs.Prelude.{◌≡◌, [], IfOk};

    /// Before the first unit.
    pub fn new(alloc: Global) -> Result<Told<M>, Memory>
        ensures { IfOk result (λ told. (choices : AnyChoices) (listing : AnyListing) → Tells choices listing told [] []) }
    {
        Ok(Told {
            watches: Watches::new(alloc)?,
            rows: HistoryRows::new(alloc),
            refused: Vec::new(alloc),
            units: 0,
        })
    }

    /// Takes the next unit.
    fn take_unit(
        &mut self,
        alloc: Global,
        chosen: &Chosen<F>,
        listing: Listing,
        unit: &UnitRef<'_, F>,
    ) -> Result<(), Memory>
        ensures { (units : List ReplayUnit) (refused : List AnyDamage) → Tells chosen.now listing self.old units refused →
            OnOk result (Tells chosen.now listing self.new (units ++ unit.now ∷ []) refused) }
    {
        self.watches
            .take(alloc, chosen, listing, unit, &mut self.rows)?;
        self.units = self.units.saturating_add(1);
        Ok(())
    }

    /// Lists the next refusal.
    fn list_refusal(&mut self, damage: Damage) -> Result<(), Memory>
        ensures { (choices : AnyChoices) (listing : AnyListing) (units : List ReplayUnit) (refused : List AnyDamage) →
            Tells choices listing self.old units refused →
            OnOk result (Tells choices listing self.new units (refused ++ damage ∷ [])) }
    {
        self.refused.push(damage)?;
        Ok(())
    }

    /// Takes what comes next.
    fn take(
        &mut self,
        alloc: Global,
        chosen: &Chosen<F>,
        listing: Listing,
        found: FoundOf<F>,
    ) -> Result<(), Memory>
        ensures { (units : List ReplayUnit) (refused : List AnyDamage) → Tells chosen.now listing self.old units refused →
            OnOk result (Tells chosen.now listing self.new (units ++ filter_map unit_of (found ∷ []))
            (refused ++ filter_map damage_of (found ∷ []))) }
    {
        match found {
            Found::Unit(unit) => {
                self.take_unit(alloc, chosen, listing, &unit.as_ref())?;
                Ok(())
            }
            Found::Refused(damage) => {
                self.list_refusal(damage)?;
                Ok(())
            }
        }
    }
}

/// Takes all that the files still hold.
pub fn tell<F, M, R>(
    alloc: Global,
    units: &mut Units<F>,
    files: &mut [R],
    chosen: &Chosen<F>,
    listing: Listing,
    told: &mut Told<M>,
) -> Result<(), ReplayError>
where
    F: Unicast,
    M: PrefixMap<RouteId, Addr = F> + Drop,
    R: Source,
    requires files { length files.old ≡ units.old.count }
    requires reading { units.old.state ≡ Reading }
    ensures told { OnOk result (HasTakenFiles (Tells chosen.now listing) units.old units.new
        (map R.remaining files.old) told.old told.new) }
    ensures sound { OnOk result (map R.failure_count files.new ≡ map R.failure_count files.old) }
    ensures cause { IfErr result
        (StopsFiles units.old (map R.remaining files.old) (map R.failure_count files.old)
        (map R.failure_count files.new)) }
{
    'files: loop {
        match units.next(alloc, files) {
            Ok(Some(found)) => {
                let Ok(()) = told.take(alloc, chosen, listing, found) else {
                    return Err(ReplayError::Memory);
                };
            }
            Ok(None) => return Ok(()),
            Err(error) => return Err(error),
        }
    }
}
