//! What is left of the entries of one peer.

ghost use Rattle.std.specs.Prelude.{◌≡◌, ◌∷◌, ◌++◌, false, map, IfNone, IfOk, IfSome, OnOk, T};
ghost use Rattle.std.specs.List.{filter, AllByRecursion};
ghost use Rattle.std.specs.FinMap.{is_sorted};
ghost use Rattle.bgp_prefix.specs.Keys.{begins_with, key_cmp};
ghost use Rattle.table_dumps.specs.Checkpoints.{prefix_route};
ghost use Rattle.checkpoint_writing.specs.Merging.{AtOrAbove, entry_of, first_prefix, has_prefix, others_of};

use bgp_prefix::{Family, Memory, Prefix, RouteKey};
use bgp_update::{RouteRef, Unicast};
use std::marker::Model;

/// A route of a prefix, which contracts see as its peer's number, its path identifier and the route.
#[derive(Drop)]
pub(crate) struct PeerRoute<'a> {
    pub(crate) peer: u16,
    pub(crate) id: u32,
    pub(crate) route: RouteRef<'a>,
}

impl<'a> Model for PeerRoute<'a> {
    ghost use Rattle.mrt_writing.specs.RibRecords.{PrefixRoute};

    ghost Value = { PrefixRoute };

    ghost view = { λ r. record { peer = r.peer; id = r.id; route = r.route } };
}

/// A peer's entries from one on, which contracts see as the list of these.
#[derive(Drop)]
pub(crate) struct Cursor<'a, F: Family> {
    entries: Vec<(RouteKey<Prefix<F>>, RouteRef<'a>)>,
    at: usize,
}

impl<'a, F: Family> Model for Cursor<'a, F> {
    ghost use Rattle.std.specs.Prelude.{drop, ◌≤◌, length};
    ghost use Rattle.checkpoint_writing.specs.Merging.{Entries};

    ghost Value = { Entries };

    ghost view = { λ c. drop c.at c.entries.items };

    ghost invariant = { λ c. c.at ≤ length c.entries.items };
}

impl<'a, F: Unicast> Cursor<'a, F> {
    /// Before the first of these entries.
    pub(crate) fn new(entries: Vec<(RouteKey<Prefix<F>>, RouteRef<'a>)>) -> Cursor<'a, F>
        ensures { result ≡ entries.entry.items }
    {
        Cursor { entries, at: 0 }
    }

    /// The prefix of the first entry, if there is one.
    pub(crate) fn prefix(&self) -> Option<Prefix<F>>
        ensures { result ≡ first_prefix self.now }
    {
        let (key, _) = self.entries.get(self.at)?;
        Some(key.prefix)
    }

    /// Takes the first entry, if it has this prefix: its identifier and its route.
    fn next_of(&mut self, prefix: &Prefix<F>) -> Option<(u32, RouteRef<'a>)>
        ensures some { IfSome result (λ r. self.old ≡ entry_of prefix.now r.0 r.1 ∷ self.new) }
        ensures other { IfNone result (begins_with prefix.now self.old ≡ false) }
        ensures same { IfNone result (self.new ≡ self.old) }
    {
        let (key, route) = self.entries.get(self.at)?;
        if !prefix.is_same(&key.prefix) {
            return None;
        }
        let taken = (key.id, route.same());
        self.at += 1;
        Some(taken)
    }

    /// Takes the entries of this prefix, which stand first, and adds their routes as those of a peer's number. Returns
    /// the prefix of the first entry that is left.
    pub(crate) fn take_routes(
        &mut self,
        prefix: &Prefix<F>,
        peer: u16,
        routes: &mut Vec<PeerRoute<'a>>,
    ) -> Result<Option<Prefix<F>>, Memory>
        requires sorted { T (is_sorted key_cmp self.old) }
        requires least { AllByRecursion (AtOrAbove prefix.now) self.old }
        ensures taken { OnOk result (routes.new.items
            ≡ routes.old.items ++ map (prefix_route peer) (filter (has_prefix prefix.now) self.old)) }
        ensures left { OnOk result (self.new ≡ others_of prefix.now self.old) }
        ensures next { IfOk result (λ next. next ≡ first_prefix self.new) }
    {
        while let Some((id, route)) = self.next_of(prefix) {
            routes.push(PeerRoute { peer, id, route })?;
        }
        Ok(self.prefix())
    }
}
