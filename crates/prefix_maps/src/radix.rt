//! A prefix map as a path-compressed trie whose leaves are short sorted lists.

mod direction;
mod insertion;
mod longest_match;
mod lookup;
mod node;
mod removal;
mod slot;

ghost use Rattle.std.specs.Prelude.{◌≤◌, ◌+◌, IfSome, IfNone};
ghost use Rattle.std.specs.FinMap as finite;
ghost use Rattle.bgp_prefix.specs.Keys.{key_cmp, matching_prefixes};
ghost use Rattle.bgp_prefix.specs.Maps.{IsLongestMatch, HasNoMatch};

use bgp_prefix::{Family, Memory, Prefix, PrefixMap, RouteKey};
use node::Branch;
use std::alloc::Global;
use std::marker::Model;

/// A finite map from keys to values, as a path-compressed trie of the keys' prefixes.
#[derive(Drop)]
pub struct Radix<F: Family, V> {
    root: Branch<F, V>,
    len: usize,
}

impl<F: Family, V> Model for Radix<F, V> {
    ghost use Rattle.std.specs.Prelude.{◌≡◌, List, length};
    ghost use Rattle.bgp_prefix.specs.Keys.{RouteKey};
    ghost use Rattle.prefix_maps.specs.Tries.{routes, IsTrie};

    ghost Value = { List (RouteKey × V) };

    ghost view = { λ m. routes m.root };

    ghost invariant = { λ m. IsTrie m.root × (m.len ≡ length (routes m.root)) };
}

impl<F: Family, V: Drop> Radix<F, V> {
    /// Returns the longest prefix of a key that contains the address, and how many nodes were looked at:
    /// at most one more than an address has bits, and at least one for each prefix held that contains the address.
    pub fn longest_steps(&self, addr: F) -> (Option<Prefix<F>>, u32)
        ensures found { IfSome result.0 (IsLongestMatch (finite.from_entries self.now) (F.bits addr)) }
        ensures none { IfNone result.0 (HasNoMatch (finite.from_entries self.now) (F.bits addr)) }
        ensures enough { matching_prefixes (finite.entries (finite.from_entries {R = key_cmp} self.now)) (F.bits addr)
            ≤ result.1 }
        ensures bound { result.1 ≤ F.WIDTH + 1 }
    {
        self.root.longest_steps(addr)
    }
}

impl<F: Family, V: Drop> PrefixMap<V> for Radix<F, V> {
    type Addr = F;

    ghost contents = { λ m. finite.from_entries m };

    fn new(_alloc: Global) -> Self {
        Radix {
            root: Branch::Empty,
            len: 0,
        }
    }

    fn insert(
        &mut self,
        alloc: Global,
        key: &RouteKey<Prefix<F>>,
        value: V,
    ) -> Result<Option<V>, Memory> {
        // What holds of its prefix is known once it is read.
        let _ = key.prefix.len();
        let Some(more) = self.len.checked_add(1) else {
            return Err(Memory);
        };
        let mut slot = Some(value);
        self.root.insert(alloc, key, &mut slot)?;
        if slot.is_none() {
            self.len = more;
        }
        Ok(slot)
    }

    fn remove(&mut self, key: &RouteKey<Prefix<F>>) -> Option<V> {
        let mut slot = None;
        let _ = self.root.remove(key, &mut slot);
        if slot.is_some() {
            self.len -= 1;
        }
        slot
    }

    fn get(&self, key: &RouteKey<Prefix<F>>) -> Option<&V> {
        self.root.get(key)
    }

    fn longest(&self, addr: F) -> Option<Prefix<F>> {
        self.root.longest(addr)
    }

    fn paths(&self, alloc: Global, prefix: &Prefix<F>) -> Result<Vec<(u32, &V)>, Memory> {
        self.root.paths(alloc, prefix)
    }

    fn clear(&mut self) {
        self.root.set(Branch::Empty);
        self.len = 0;
    }

    fn len(&self) -> usize {
        self.len
    }

    fn list<'a>(&'a self, all: &mut Vec<(RouteKey<Prefix<F>>, &'a V)>) {
        self.root.list(all);
    }
}
