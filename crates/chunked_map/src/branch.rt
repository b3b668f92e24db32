//! Branches of leaves, as nodes of a map.

use crate::leaf::Leaf;
use crate::level::Level;
use crate::node::{HALF_LEN, Node};
use bgp_prefix::{Family, Memory, Prefix, RouteKey};
use std::alloc::Global;
use std::marker::Model;

/// Consecutive leaves of routes, as one node of a map.
#[derive(Drop)]
pub(crate) struct Branch<F: Family, V> {
    leaves: Level<F, Leaf<F, V>>,
}

impl<F: Family, V> Model for Branch<F, V> {
    ghost use Rattle.std.specs.Prelude.{List, map};
    ghost use Rattle.bgp_prefix.specs.Keys.{RouteKey};
    ghost use Rattle.chunked_map.specs.ChunkedMaps.{routes_of, AreNodes};

    ghost Value = { List (RouteKey × V) };

    ghost view = { λ r. routes_of (λ c. c) r.leaves.nodes.items };

    ghost invariant = { λ r. AreNodes r.leaves.firsts.items (map (λ c. c) r.leaves.nodes.items) };
}

impl<F: Family, V: Drop> Node<F> for Branch<F, V> {
    type Value = V;

    ghost routes = { λ r. r };

    fn single(
        alloc: Global,
        room: usize,
        key: &RouteKey<Prefix<F>>,
        value: V,
    ) -> Result<Branch<F, V>, Memory> {
        let leaves = Level::single(alloc, room, key, value)?;
        Ok(Branch { leaves })
    }

    fn is_empty(&self) -> bool {
        self.leaves.is_empty()
    }

    fn first(&self) -> RouteKey<Prefix<F>> {
        self.leaves.first()
    }

    fn is_full_before(&self, key: &RouteKey<Prefix<F>>) -> bool {
        self.leaves.is_full_before(key)
    }

    fn is_overfull(&self) -> bool {
        self.leaves.is_overfull()
    }

    fn get(&self, key: &RouteKey<Prefix<F>>) -> Option<&V> {
        self.leaves.get(key)
    }

    fn insert(
        &mut self,
        alloc: Global,
        key: &RouteKey<Prefix<F>>,
        value: V,
    ) -> Result<Option<V>, Memory> {
        self.leaves.insert(alloc, key, value)
    }

    #[inline(always)]
    fn push_within_capacity(&mut self, key: &RouteKey<Prefix<F>>, value: V) -> Result<(), V> {
        self.leaves.push_within_capacity(key, value)
    }

    fn remove(&mut self, key: &RouteKey<Prefix<F>>) -> Option<V> {
        self.leaves.remove(key)
    }

    fn split(&mut self, alloc: Global) -> Option<Branch<F, V>> {
        if self.leaves.nodes.len() <= HALF_LEN {
            return None;
        }
        match self.leaves.cut(alloc) {
            Ok(leaves) => Some(Branch { leaves }),
            Err(_) => None,
        }
    }

    fn list<'a>(&'a self, all: &mut Vec<(RouteKey<Prefix<F>>, &'a V)>) {
        self.leaves.list(all);
    }

    fn paths<'a>(&'a self, prefix: &Prefix<F>, all: &mut Vec<(u32, &'a V)>) -> Result<(), Memory> {
        self.leaves.paths(prefix, all)
    }

    fn last_up_to(&self, last: &Prefix<F>) -> Option<Prefix<F>> {
        self.leaves.last_up_to(last)
    }
}
