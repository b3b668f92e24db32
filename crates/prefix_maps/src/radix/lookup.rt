//! Lookups in the trie: the value of a key, the routes of a prefix, and all routes.

ghost use Rattle.std.specs.Prelude.{◌≡◌, ◌+◌, ◌≤◌, ◌++◌, length, map, vec_len, vec_capacity, IfOk};
ghost use Rattle.std.specs.Option.{option_copied};
ghost use Rattle.std.specs.FinMap.{find};
ghost use Rattle.bgp_prefix.specs.Keys.{key_cmp, entries_now};
ghost use Rattle.bgp_prefix.specs.Maps.{paths_of};
ghost use Rattle.prefix_maps.specs.Tries.{routes, IsTrie};

use super::direction::{Direction, direction_of, search_direction};
use super::node::Branch;
use bgp_prefix::{Family, Memory, Prefix, RouteKey};
use std::alloc::Global;

impl<F: Family, V: Drop> Branch<F, V> {
    /// Returns the value of a key.
    pub(super) fn get(&self, key: &RouteKey<Prefix<F>>) -> Option<&V>
        requires { IsTrie self.now }
        ensures { option_copied result ≡ find key_cmp key.now (routes self.now) }
    {
        let mut at = self;
        loop {
            match at {
                Branch::Empty => return None,
                Branch::Leaf(leaf) => return leaf.get(key),
                Branch::Fork(fork) => match search_direction(&fork.prefix, &key.prefix) {
                    Direction::Here => return fork.here.get(key),
                    Direction::Low => match &fork.low {
                        Branch::Empty => return None,
                        low => at = low,
                    },
                    Direction::High => match &fork.high {
                        Branch::Empty => return None,
                        high => at = high,
                    },
                    Direction::Outside => return None,
                },
            }
        }
    }

    /// Returns the identifiers and values of one prefix, ascending by identifier.
    pub(super) fn paths(&self, alloc: Global, prefix: &Prefix<F>) -> Result<Vec<(u32, &V)>, Memory>
        requires { IsTrie self.now }
        ensures { IfOk result (λ v. map (λ e. (e.0, e.1.now)) v.items ≡ paths_of prefix.now (routes self.now)) }
    {
        match self {
            Branch::Empty => Ok(Vec::new(alloc)),
            Branch::Leaf(leaf) => leaf.paths(alloc, prefix),
            Branch::Fork(fork) => match direction_of(&fork.prefix, prefix) {
                Direction::Here => fork.here.paths(alloc, prefix),
                Direction::Low => fork.low.paths(alloc, prefix),
                Direction::High => fork.high.paths(alloc, prefix),
                Direction::Outside => Ok(Vec::new(alloc)),
            },
        }
    }

    /// Appends the routes to a list that has room for them, in key order. Allocates nothing.
    pub(super) fn list<'a>(&'a self, all: &mut Vec<(RouteKey<Prefix<F>>, &'a V)>)
        requires { vec_len all.old + length (routes self.now) ≤ vec_capacity all.old }
        ensures entries { entries_now all.new.items ≡ entries_now all.old.items ++ routes self.now }
        ensures len { vec_len all.new ≡ vec_len all.old + length (routes self.now) }
        ensures capacity { vec_capacity all.new ≡ vec_capacity all.old }
    {
        match self {
            Branch::Empty => {}
            Branch::Leaf(leaf) => leaf.append_to(all),
            Branch::Fork(fork) => {
                fork.here.append_to(all);
                fork.low.list(all);
                fork.high.list(all);
            }
        }
    }
}
