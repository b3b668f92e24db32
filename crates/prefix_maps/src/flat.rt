//! A prefix map as a sorted list.

mod longest_match;
mod split;

ghost use Rattle.std.specs.Prelude.{◌≡◌, ◌≢◌, ◌≤◌, ◌+◌, [], ◌∷◌, ◌++◌, not, T, IfOk, IfErr, OnOk, OnErr, length, map, vec_len, vec_capacity};
ghost use Rattle.std.specs.List.Sorted.{IsPartitionPoint};
ghost use Rattle.std.specs.declared.cmp.Ordering.TheVariants.{Less};
ghost use Rattle.std.specs.Option.{option_copied};
ghost use Rattle.std.specs.Ordering.{eq_by_cmp};
ghost use Rattle.bgp_prefix.specs.Prefixes.{prefix_cmp};
ghost use Rattle.bgp_prefix.specs.Keys.{key_cmp, is_nil, entries_now};
ghost use Rattle.bgp_prefix.specs.Maps.{paths_of};
ghost use Rattle.std.specs.FinMap as finite;
ghost use Rattle.std.specs.FinMap.{find, put};
ghost use Rattle.std.specs.FinMap.Entries.{is_sorted, where_key};
ghost use Rattle.bgp_prefix.specs.Searches.{IsAt, IsGap};

use bgp_prefix::{Family, Memory, Prefix, PrefixMap, RouteKey};
pub(crate) use split::Parts;
use std::alloc::Global;
use std::cmp::Ordering;
use std::marker::Model;
use std::mem;

/// The most keys of a list that is searched from the front, key by key.
const SCANNED_KEYS: usize = 32;

/// A finite map from keys to values, as a list in key order.
#[derive(Drop)]
pub struct Flat<F: Family, V> {
    items: Vec<(RouteKey<Prefix<F>>, V)>,
}

impl<F: Family, V> Model for Flat<F, V> {
    ghost use Rattle.std.specs.Prelude.{List, T, ◌≤◌};
    ghost use Rattle.bgp_prefix.specs.Keys.{RouteKey, key_cmp};
    ghost use Rattle.std.specs.FinMap.Entries.{is_sorted};
    ghost use Rattle.std.specs.List.{All};
    ghost use Rattle.bgp_prefix.specs.Prefixes.{IsIpPrefix};

    ghost Value = { List (RouteKey × V) };

    ghost view = { λ p. p.items.items };

    ghost invariant = { λ p. record {
      sorted : T (is_sorted key_cmp p.items.items);
      known : All (λ e. IsIpPrefix e.0.prefix) p.items.items;
      short : All (λ e. e.0.prefix.len ≤ F.WIDTH) p.items.items;
    } };
}

impl<F: Family, V: Drop> Flat<F, V> {
    /// Returns an empty map. Allocates nothing.
    pub fn new(alloc: Global) -> Flat<F, V>
        ensures { result ≡ [] }
    {
        Flat {
            items: Vec::new(alloc),
        }
    }

    /// Returns a map of one key, in a list with no spare room. An `Err` drops the value.
    pub(crate) fn single(
        alloc: Global,
        key: RouteKey<Prefix<F>>,
        value: V,
    ) -> Result<Flat<F, V>, Memory>
        ensures { IfOk result (λ one. one ≡ (key, value) ∷ []) }
    {
        // What holds of each prefix is known once it is read.
        let _ = key.prefix.len();
        let mut items = Vec::with_capacity(alloc, 1)?;
        items.push((key, value))?;
        Ok(Flat { items })
    }

    /// Returns the value of a key.
    pub fn get(&self, key: &RouteKey<Prefix<F>>) -> Option<&V>
        ensures { option_copied result ≡ find key_cmp key.now self.now }
    {
        match self.search(key) {
            Ok(at) => Some(&self.items[at].1),
            Err(_) => None,
        }
    }

    // Where a key is, or would go. The end is tried first, since a RIB dump comes in order. A short
    // list is read from the front: these reads don't wait for one another.
    fn search(&self, key: &RouteKey<Prefix<F>>) -> Result<usize, usize>
        ensures found { IfOk result (λ i. IsAt key_cmp self.now key.now i) }
        ensures absent { IfErr result (λ i. IsGap key_cmp self.now key.now i) }
        ensures sorted { T (is_sorted key_cmp self.now) }
    {
        match self.items.last() {
            Some(last) if last.0 < *key => Err(self.items.len()),
            _ if self.items.len() <= SCANNED_KEYS => self.scan(key),
            _ => self.items.binary_search_by_key(key, |item| item.0),
        }
    }

    // Like `search`, but compares the keys one by one.
    fn scan(&self, key: &RouteKey<Prefix<F>>) -> Result<usize, usize>
        ensures found { IfOk result (λ i. IsAt key_cmp self.now key.now i) }
        ensures absent { IfErr result (λ i. IsGap key_cmp self.now key.now i) }
        ensures sorted { T (is_sorted key_cmp self.now) }
    {
        let mut at = 0;
        while at < self.items.len() {
            match self.items[at].0.cmp(key) {
                Ordering::Less => at += 1,
                Ordering::Equal => return Ok(at),
                Ordering::Greater => return Err(at),
            }
        }
        Err(at)
    }

    /// Sets the value of a key, and returns the previous one. An `Err` changes nothing.
    pub fn insert(&mut self, key: RouteKey<Prefix<F>>, value: V) -> Result<Option<V>, Memory>
        ensures before { IfOk result (λ before. before ≡ find key_cmp key self.old) }
        ensures ok { OnOk result (self.new ≡ put key_cmp key value self.old) }
        ensures err { OnErr result (self.new ≡ self.old) }
        ensures sorted { T (is_sorted key_cmp self.new) }
    {
        // What holds of each prefix is known once it is read.
        let _ = key.prefix.len();
        match self.search(&key) {
            Ok(at) => Ok(Some(mem::replace(&mut self.items[at].1, value))),
            Err(at) => {
                let entry = (key, value);
                self.items.insert(at, entry)?;
                Ok(None)
            }
        }
    }

    /// Removes a key, and returns its value. Allocates nothing.
    pub fn remove(&mut self, key: &RouteKey<Prefix<F>>) -> Option<V>
        ensures before { result ≡ find key_cmp key.now self.old }
        ensures removed { self.new ≡ where_key key_cmp (λ x. not (eq_by_cmp key_cmp key.now x)) self.old }
        ensures sorted { T (is_sorted key_cmp self.new) }
    {
        match self.search(key) {
            Ok(at) => Some(self.items.remove(at).1),
            Err(_) => None,
        }
    }

    /// Removes every key.
    pub fn clear(&mut self)
        ensures { self.new ≡ [] }
    {
        self.items.clear();
    }

    /// The number of keys.
    pub fn len(&self) -> usize
        ensures len { result ≡ length self.now }
        ensures sorted { T (is_sorted key_cmp self.now) }
    {
        self.items.len()
    }

    /// Whether there are no keys.
    pub fn is_empty(&self) -> bool
        ensures { result ≡ is_nil self.now }
    {
        self.items.is_empty()
    }

    /// Appends the entries to a list that has room for them, in key order. Allocates nothing.
    pub(crate) fn append_to<'a>(&'a self, all: &mut Vec<(RouteKey<Prefix<F>>, &'a V)>)
        requires { vec_len all.old + length self.now ≤ vec_capacity all.old }
        ensures entries { entries_now all.new.items ≡ entries_now all.old.items ++ self.now }
        ensures len { vec_len all.new ≡ vec_len all.old + length self.now }
        ensures capacity { vec_capacity all.new ≡ vec_capacity all.old }
    {
        for item in &self.items {
            all.push_reserved((item.0, &item.1));
        }
    }

    /// Returns the whole map, in key order. An `Err` means that an allocation failed.
    pub fn entries(&self, alloc: Global) -> Result<Vec<(RouteKey<Prefix<F>>, &V)>, Memory>
        ensures entries { IfOk result (λ all. map (λ e. (e.0, e.1.now)) all.items ≡ self.now) }
        ensures sorted { T (is_sorted key_cmp self.now) }
    {
        let mut all = Vec::with_capacity(alloc, self.items.len())?;
        self.append_to(&mut all);
        Ok(all)
    }

    // Where the first key of a prefix is, or would go.
    fn start_of(&self, prefix: &Prefix<F>) -> usize
        ensures bound { result ≤ length self.now }
        ensures start { IsPartitionPoint (λ e. prefix_cmp e.0.prefix prefix.now ≡ Less)
            (λ e. prefix_cmp e.0.prefix prefix.now ≢ Less) self.now result }
        ensures sorted { T (is_sorted key_cmp self.now) }
    {
        let first = RouteKey {
            prefix: *prefix,
            id: 0,
        };
        match self.search(&first) {
            Ok(at) => at,
            Err(at) => at,
        }
    }

    /// Returns the identifiers and values of the keys of a prefix, ascending by identifier. An `Err`
    /// means that an allocation failed.
    pub fn paths(&self, alloc: Global, prefix: &Prefix<F>) -> Result<Vec<(u32, &V)>, Memory>
        ensures paths { IfOk result (λ all. map (λ e. (e.0, e.1.now)) all.items ≡ paths_of prefix.now self.now) }
        ensures sorted { T (is_sorted key_cmp self.now) }
    {
        let mut all = Vec::new(alloc);
        for item in &self.items[self.start_of(prefix)..] {
            if *prefix != item.0.prefix {
                break;
            }
            if all.push((item.0.id, &item.1)).is_err() {
                return Err(Memory);
            }
        }
        Ok(all)
    }
}

impl<F: Family, V: Drop> PrefixMap<V> for Flat<F, V> {
    type Addr = F;

    ghost contents = { λ m. finite.from_entries m };

    fn new(alloc: Global) -> Self {
        Flat::new(alloc)
    }

    fn insert(
        &mut self,
        _alloc: Global,
        key: &RouteKey<Prefix<F>>,
        value: V,
    ) -> Result<Option<V>, Memory> {
        Flat::insert(self, *key, value)
    }

    fn remove(&mut self, key: &RouteKey<Prefix<F>>) -> Option<V> {
        Flat::remove(self, key)
    }

    fn get(&self, key: &RouteKey<Prefix<F>>) -> Option<&V> {
        Flat::get(self, key)
    }

    fn clear(&mut self) {
        Flat::clear(self);
    }

    fn longest(&self, addr: F) -> Option<Prefix<F>> {
        Flat::longest(self, addr)
    }

    fn paths(&self, alloc: Global, prefix: &Prefix<F>) -> Result<Vec<(u32, &V)>, Memory> {
        Flat::paths(self, alloc, prefix)
    }

    fn len(&self) -> usize {
        Flat::len(self)
    }

    fn list<'a>(&'a self, all: &mut Vec<(RouteKey<Prefix<F>>, &'a V)>) {
        // That the items are in order is known once they are read.
        let _ = &self.items;
        self.append_to(all);
    }
}
