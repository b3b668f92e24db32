//! A prefix map as a sorted list in leaves.

ghost use Rattle.std.specs.Prelude.{◌≡◌, ◌≢◌, ◌≤◌, None, IfOk, IfErr, OnOk, OnErr};
ghost use Rattle.std.specs.declared.cmp.Ordering.TheVariants.{Greater};
ghost use Rattle.std.specs.Ordering.{is_lt};
ghost use Rattle.std.specs.FinMap as finite;
ghost use Rattle.std.specs.FinMap.{find, put};
ghost use Rattle.bgp_prefix.specs.Prefixes.{IpPrefix, IsIpPrefix};
ghost use Rattle.bgp_prefix.specs.Keys.{key_cmp};

use crate::branch::Branch;
use crate::level::Level;
use bgp_prefix::{Family, Memory, Prefix, PrefixMap, RouteKey, shared_len};
use std::alloc::Global;
use std::marker::Model;

/// A finite map from keys to values, as a sorted list that is kept in leaves: at most 128 routes per leaf and 128
/// leaves per branch, or more if there was no memory to cut one in two. The first keys of the branches, and of the
/// leaves of a branch, are kept in separate lists.
///
/// A call searches the first keys of the branches, those of a branch, and then a leaf, each by binary search with the
/// end tried first. A key after all that were inserted since the map was made or cleared, like each key of a RIB dump,
/// is appended after one comparison where the last leaf has room, and keys in order leave full leaves. An insertion or
/// a removal moves no more than a part of a leaf, of a branch's list of leaves and of the list of branches. `longest`
/// searches at most once more than an address has bits.
///
/// An entry takes the 8 bytes of its prefix, its value, and a share of the free room, which grows by 16 routes; while
/// keys come in order, each leaf after the first has room for all its routes at once. Identifiers are stored only in a
/// leaf with one that isn't 0, at 4 bytes each.
///
/// It suits many keys that come in order, or that should take little memory. Leaves that removals have
/// shortened are not merged. `Radix` counts its steps; `Flat` serves a few keys.
#[derive(Drop)]
pub struct ChunkedMap<F: Family, V> {
    branches: Level<F, Branch<F, V>>,
    len: usize,
    // No key comes after it: the greatest key inserted since the map was made or cleared.
    bound: RouteKey<Prefix<F>>,
}

impl<F: Family, V> Model for ChunkedMap<F, V> {
    ghost use Rattle.std.specs.Prelude.{List, map};
    ghost use Rattle.bgp_prefix.specs.Keys.{RouteKey};
    ghost use Rattle.chunked_map.specs.ChunkedMaps.{routes_of, IsMap};

    ghost Value = { List (RouteKey × V) };

    ghost view = { λ m. routes_of (λ r. r) m.branches.nodes.items };

    ghost invariant = { λ m. IsMap F.WIDTH m.branches.firsts.items (map (λ r. r) m.branches.nodes.items) m.len m.bound };
}

impl<F: Family, V: Drop> ChunkedMap<F, V> {
    // Appends a route if its key comes after the bound and the last leaf has room for it. An `Err` has its value, and
    // changes nothing.
    #[inline(always)]
    fn push_within_capacity(&mut self, key: &RouteKey<Prefix<F>>, value: V) -> Result<(), V>
        requires known { IsIpPrefix key.now.prefix }
        requires short { key.now.prefix.len ≤ F.WIDTH }
        ensures absent { OnOk result (find key_cmp key.now self.old ≡ None) }
        ensures ok { OnOk result (self.new ≡ put key_cmp key.now value self.old) }
        ensures err { OnErr result (self.new ≡ self.old) }
        ensures value { IfErr result (λ given. given ≡ value) }
    {
        if !precedes(&self.bound, key) || self.len == usize::MAX {
            return Err(value);
        }
        if let Err(value) = self.branches.push_within_capacity(key, value) {
            return Err(value);
        }
        self.bound = *key;
        self.len += 1;
        Ok(())
    }

    // Sets the value of any key, and returns the previous one. An `Err` changes nothing; the value is dropped.
    #[inline(never)]
    fn insert_anywhere(
        &mut self,
        alloc: Global,
        key: &RouteKey<Prefix<F>>,
        value: V,
    ) -> Result<Option<V>, Memory>
        requires known { IsIpPrefix key.now.prefix }
        requires short { key.now.prefix.len ≤ F.WIDTH }
        ensures before { IfOk result (λ before. before ≡ find key_cmp key.now self.old) }
        ensures ok { OnOk result (self.new ≡ put key_cmp key.now value self.old) }
        ensures err { OnErr result (self.new ≡ self.old) }
    {
        let Some(more) = self.len.checked_add(1) else {
            return Err(Memory);
        };
        let before = self.branches.insert(alloc, key, value)?;
        raise_bound(&mut self.bound, key);
        if before.is_none() {
            self.len = more;
        }
        Ok(before)
    }
}

impl<F: Family, V: Drop> PrefixMap<V> for ChunkedMap<F, V> {
    type Addr = F;

    ghost contents = { λ m. finite.from_entries m };

    fn new(alloc: Global) -> Self {
        ChunkedMap {
            branches: Level {
                firsts: Vec::new(alloc),
                nodes: Vec::new(alloc),
            },
            len: 0,
            bound: least_key(),
        }
    }

    // Inlined at each of its callers: a call takes a fiftieth of a RIB entry's time.
    #[inline(always)]
    fn insert(
        &mut self,
        alloc: Global,
        key: &RouteKey<Prefix<F>>,
        value: V,
    ) -> Result<Option<V>, Memory> {
        // What holds of its prefix is known once it is read.
        let _ = key.prefix.len();
        // The keys of a RIB dump come in order.
        match self.push_within_capacity(key, value) {
            Ok(()) => Ok(None),
            Err(value) => self.insert_anywhere(alloc, key, value),
        }
    }

    fn remove(&mut self, key: &RouteKey<Prefix<F>>) -> Option<V> {
        let before = self.branches.remove(key);
        self.len -= before.is_some() as usize;
        before
    }

    fn get(&self, key: &RouteKey<Prefix<F>>) -> Option<&V> {
        self.branches.get(key)
    }

    fn longest(&self, addr: F) -> Option<Prefix<F>> {
        let host = host_prefix(addr);
        let mut limit = F::WIDTH;
        loop {
            let Some(prefix) = self.branches.last_up_to(&host.shortened(limit)) else {
                return None;
            };
            if prefix.contains(addr) {
                return Some(prefix);
            }
            limit = shared_len(&prefix, &host);
        }
    }

    fn paths(&self, alloc: Global, prefix: &Prefix<F>) -> Result<Vec<(u32, &V)>, Memory> {
        let mut all = Vec::new(alloc);
        self.branches.paths(prefix, &mut all)?;
        Ok(all)
    }

    fn clear(&mut self) {
        self.branches.nodes.clear();
        self.branches.firsts.clear();
        self.len = 0;
        self.bound = least_key();
    }

    fn len(&self) -> usize {
        self.len
    }

    fn list<'a>(&'a self, all: &mut Vec<(RouteKey<Prefix<F>>, &'a V)>) {
        self.branches.list(all);
    }
}

// The prefix of an address alone.
#[inline]
fn host_prefix<F: Family>(addr: F) -> Prefix<F>
    ensures { result ≡ record { addr = F.bits addr; len = F.WIDTH } }
{
    let Some(host) = Prefix::new(addr, F::WIDTH) else {
        unreachable!()
    };
    host
}

// The key that comes before all others.
fn least_key<F: Family>() -> RouteKey<Prefix<F>>
    ensures { result ≡ record { prefix = record { addr = 0; len = 0 }; id = 0 } }
{
    let Some(prefix) = Prefix::new(F::LOWEST, 0) else {
        unreachable!()
    };
    RouteKey { prefix, id: 0 }
}

// Whether a key comes before another.
#[inline(always)]
fn precedes<F: Family>(key: &RouteKey<Prefix<F>>, other: &RouteKey<Prefix<F>>) -> bool
    ensures { result ≡ is_lt (key_cmp key.now other.now) }
{
    *key < *other
}

// Replaces a lesser key by this one.
fn raise_bound<F: Family>(bound: &mut RouteKey<Prefix<F>>, key: &RouteKey<Prefix<F>>)
    ensures key { key_cmp key.now bound.new ≢ Greater }
    ensures old { (k : RouteKey IpPrefix) → key_cmp k bound.old ≢ Greater → key_cmp k bound.new ≢ Greater }
{
    if precedes(bound, key) {
        *bound = *key;
    }
}
