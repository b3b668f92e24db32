//! A table with its counts, and its changes by an UPDATE.

use crate::churn::Churn;
use crate::note::{Chooses, Notes};
use crate::route_table::RouteTable;
use crate::routes::RouteId;
use bgp_prefix::{KeySet, Memory, Prefix, PrefixMap, RouteKey};
use bgp_update::{Unicast, UpdateRef};
use std::alloc::Global;

/// A peer's table, with what the steps that were taken on it are counted as.
#[derive(Drop)]
pub(crate) struct CountedTable<M: PrefixMap<RouteId>> {
    pub(crate) table: RouteTable<M>,
    pub(crate) churn: Churn,
}

impl<F: Unicast, M: PrefixMap<RouteId, Addr = F>> CountedTable<M> {
    ghost use Rattle.std.specs.Prelude.{◌||◌, OnOk, map, not};
    ghost use Rattle.std.specs.List.{filter};
    ghost use Rattle.bgp_prefix.specs.Keys.{among};
    ghost use Rattle.bgp_update.specs.Decoded.{plain_update};
    ghost use Rattle.adj_rib.specs.Keeping.{counted_in};
    ghost use Rattle.adj_rib.specs.Noting.{Takes};
    ghost use Rattle.adj_rib.specs.Steps.{update_steps, withdraw, withdrawals};

    /// Withdraws the chosen keys that are neither announced nor reached.
    fn withdraw_others<C: Chooses<F>, N: Notes<F>>(
        &mut self,
        alloc: Global,
        chosen: &C,
        notes: &mut N,
        withdrawn: &[RouteKey<Prefix<F>>],
        announced: &KeySet<F>,
        reached: &KeySet<F>,
    ) -> Result<(), Memory>
        ensures { OnOk result (Takes N.keep (C.is_chosen chosen.now)
            (map withdraw (filter (λ key. not (among announced.now key || among reached.now key)) withdrawn.now))
            (counted_in self.old, N.kept notes.old) (counted_in self.new, N.kept notes.new)) }
    {
        for key in withdrawn {
            if !announced.contains(key) && !reached.contains(key) && chosen.chooses(key) {
                self.table.withdraw(alloc, &mut self.churn, notes, key)?;
            }
        }
        Ok(())
    }

    /// Withdraws the chosen keys that an UPDATE withdraws but neither announces nor reaches.
    fn withdraw_update<C: Chooses<F>, N: Notes<F>>(
        &mut self,
        alloc: Global,
        chosen: &C,
        notes: &mut N,
        update: &UpdateRef<'_, Prefix<F>>,
    ) -> Result<(), Memory>
        ensures { OnOk result (Takes N.keep (C.is_chosen chosen.now) (withdrawals (plain_update update.now))
            (counted_in self.old, N.kept notes.old) (counted_in self.new, N.kept notes.new)) }
    {
        if update.withdrawn.is_empty() {
            return Ok(());
        }
        let announced = KeySet::from_slice(alloc, update.announced)?;
        let reached = KeySet::from_slice(alloc, update.reached)?;
        self.withdraw_others(alloc, chosen, notes, update.withdrawn, &announced, &reached)?;
        Ok(())
    }

    /// Takes the steps of an UPDATE on chosen keys: those of MP_REACH_NLRI are announced by its own next hop.
    #[inline(always)]
    pub(crate) fn apply_update<C: Chooses<F>, N: Notes<F>>(
        &mut self,
        alloc: Global,
        chosen: &C,
        notes: &mut N,
        update: &UpdateRef<'_, Prefix<F>>,
    ) -> Result<(), Memory>
        ensures { OnOk result (Takes N.keep (C.is_chosen chosen.now) (update_steps (plain_update update.now))
            (counted_in self.old, N.kept notes.old) (counted_in self.new, N.kept notes.new)) }
    {
        self.withdraw_update(alloc, chosen, notes, update)?;
        let (table, churn) = (&mut self.table, &mut self.churn);
        table.announce_chosen(alloc, churn, chosen, notes, update.announced, &update.route)?;
        let Some(route) = &update.reached_route else {
            return Ok(());
        };
        table.announce_chosen(alloc, churn, chosen, notes, update.reached, route)?;
        Ok(())
    }
}
