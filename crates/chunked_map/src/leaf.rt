//! Leaves: lists of routes in three arrays.

ghost use Rattle.std.specs.Prelude.{◌≡◌, ◌≢◌, ◌<◌, ◌≤◌, ◌⊎◌, ℕ, List, [], ◌∷◌, ◌++◌, not, T, IsTrue, IfOk, IfErr, OnOk, OnErr, length, map, take, drop, vec_len, vec_capacity, slice_index_or, slice_set, is_ok, if◌then◌else◌, true, false};
ghost use Rattle.std.specs.List.{insert, remove};
ghost use Rattle.std.specs.List.Sorted.{IsPartitionPoint};
ghost use Rattle.std.specs.Ordering.{eq_by_cmp, is_le};
ghost use Rattle.std.specs.FinMap.{find, put};
ghost use Rattle.std.specs.FinMap.Entries.{is_sorted, where_key};
ghost use Rattle.bgp_prefix.specs.Prefixes.{prefix_cmp};
ghost use Rattle.bgp_prefix.specs.Keys.{key_cmp};
ghost use Rattle.bgp_prefix.specs.Searches.{IsAt, IsGap};
ghost use Rattle.chunked_map.specs.ChunkedMaps.{ids_put, ids_removed};

use crate::node::{FULL_LEN, GROWTH_STEP, HALF_LEN, Node};
use bgp_prefix::{Family, Memory, Prefix, RouteKey};
use std::alloc::Global;
use std::cmp::Ordering;
use std::marker::Model;
use std::mem;

/// A list of routes in three arrays. No identifiers are stored while all are 0. That the routes are in
/// order is not an invariant of the leaf itself: a call that needs it requires it.
#[derive(Drop)]
pub(crate) struct Leaf<F: Family, V> {
    keys: Vec<Prefix<F>>,
    ids: Vec<u32>,
    values: Vec<V>,
}

impl<F: Family, V> Model for Leaf<F, V> {
    ghost use Rattle.std.specs.Prelude.{List};
    ghost use Rattle.bgp_prefix.specs.Keys.{RouteKey};
    ghost use Rattle.chunked_map.specs.ChunkedMaps.{routes_in, IsArrays};

    ghost Value = { List (RouteKey × V) };

    ghost view = { λ c. routes_in c.keys.items c.ids.items c.values.items };

    ghost invariant = { λ c. IsArrays c.keys.items c.ids.items c.values.items };
}

impl<F: Family, V: Drop> Leaf<F, V> {
    // The number of routes.
    fn len(&self) -> usize
        ensures { result ≡ length self.now }
    {
        self.keys.len()
    }

    // The key of a route.
    fn key_at(&self, at: usize) -> RouteKey<Prefix<F>>
        requires { at < length self.now }
        ensures { (d : _) → result ≡ (slice_index_or self.now at d).0 }
    {
        RouteKey {
            prefix: self.keys[at],
            id: id_at(&self.ids, at),
        }
    }

    // The value of a route.
    fn value_at(&self, at: usize) -> &V
        requires { at < length self.now }
        ensures { (d : _) → result.now ≡ (slice_index_or self.now at d).1 }
    {
        &self.values[at]
    }

    // Where a key is, or would go. The end is tried first, since a RIB dump comes in order.
    fn search(&self, key: &RouteKey<Prefix<F>>) -> Result<usize, usize>
        requires { T (is_sorted key_cmp self.now) }
        ensures found { IfOk result (λ i. IsAt key_cmp self.now key.now i) }
        ensures absent { IfErr result (λ i. IsGap key_cmp self.now key.now i) }
    {
        let len = self.len();
        let mut low = 0;
        let mut high = len;
        while low < high {
            let at = if high == len {
                high - 1
            } else {
                low + (high - low) / 2
            };
            match self.key_at(at).cmp(key) {
                Ordering::Less => low = at + 1,
                Ordering::Equal => return Ok(at),
                Ordering::Greater => high = at,
            }
        }
        Err(low)
    }

    // Sets the value of a route, and returns the previous one.
    fn set(&mut self, at: usize, value: V) -> V
        requires { at < length self.old }
        ensures before { (d : _) → result ≡ (slice_index_or self.old at d).1 }
        ensures set { (d : _) → self.new ≡ slice_set self.old at ((slice_index_or self.old at d).0, value) }
    {
        exchange(&mut self.values, at, value)
    }

    // Inserts a route at a position. An `Err` changes nothing.
    fn put_at(
        &mut self,
        alloc: Global,
        at: usize,
        key: &RouteKey<Prefix<F>>,
        value: V,
    ) -> Result<(), Memory>
        requires { at ≤ length self.old }
        ensures { self.new ≡ (if is_ok result then insert self.old at (key.now, value) else self.old) }
    {
        make_room(&mut self.keys)?;
        make_room(&mut self.values)?;
        put_id(alloc, &mut self.ids, self.keys.len(), at, key.id)?;
        put(&mut self.keys, at, key.prefix);
        put(&mut self.values, at, value);
        Ok(())
    }

    // Removes a route, and returns its value.
    fn take_at(&mut self, at: usize) -> V
        requires { at < length self.old }
        ensures before { (d : _) → result ≡ (slice_index_or self.old at d).1 }
        ensures removed { self.new ≡ remove self.old at }
    {
        let _ = self.keys.remove(at);
        remove_id(&mut self.ids, at);
        self.values.remove(at)
    }

    // Keeps the first half, and returns the rest. An `Err` changes nothing.
    fn cut(&mut self, alloc: Global) -> Result<Leaf<F, V>, Memory>
        requires { 64 < length self.old }
        ensures low { OnOk result (self.new ≡ take 64 self.old) }
        ensures high { IfOk result (λ high. high ≡ drop 64 self.old) }
        ensures err { OnErr result (self.new ≡ self.old) }
    {
        let keys = copied_from(alloc, &self.keys, HALF_LEN)?;
        let ids = ids_from(alloc, &self.ids, HALF_LEN)?;
        let values = self.values.split_off(HALF_LEN)?;
        self.keys.truncate(HALF_LEN);
        self.ids.truncate(HALF_LEN);
        self.keys.shrink_to(HALF_LEN + GROWTH_STEP);
        self.ids.shrink_to(HALF_LEN + GROWTH_STEP);
        self.values.shrink_to(HALF_LEN + GROWTH_STEP);
        Ok(Leaf { keys, ids, values })
    }

    // The number of routes whose prefixes are at most this one, in their order.
    fn count_up_to(&self, last: &Prefix<F>) -> usize
        requires { T (is_sorted key_cmp self.now) }
        ensures bound { result ≤ length self.now }
        ensures end { IsPartitionPoint (λ e. is_le (prefix_cmp e.0.prefix last.now) ≡ true)
            (λ e. is_le (prefix_cmp e.0.prefix last.now) ≡ false) self.now result }
    {
        let mut low = 0;
        let mut high = self.len();
        while low < high {
            let at = low + (high - low) / 2;
            match self.key_at(at).prefix.cmp(last) {
                Ordering::Greater => high = at,
                _ => low = at + 1,
            }
        }
        low
    }
}

impl<F: Family, V: Drop> Node<F> for Leaf<F, V> {
    type Value = V;

    ghost routes = { λ c. c };

    fn single(
        alloc: Global,
        room: usize,
        key: &RouteKey<Prefix<F>>,
        value: V,
    ) -> Result<Leaf<F, V>, Memory> {
        let mut keys = Vec::with_capacity(alloc, room)?;
        let mut values = Vec::with_capacity(alloc, room)?;
        let mut ids = Vec::new(alloc);
        put_id(alloc, &mut ids, 0, 0, key.id)?;
        put(&mut keys, 0, key.prefix);
        put(&mut values, 0, value);
        Ok(Leaf { keys, ids, values })
    }

    fn is_empty(&self) -> bool {
        self.len() == 0
    }

    fn first(&self) -> RouteKey<Prefix<F>> {
        self.key_at(0)
    }

    fn is_full_before(&self, key: &RouteKey<Prefix<F>>) -> bool {
        let len = self.len();
        if len < FULL_LEN {
            return false;
        }
        match self.key_at(len - 1).cmp(key) {
            Ordering::Less => true,
            _ => false,
        }
    }

    fn is_overfull(&self) -> bool {
        self.len() > FULL_LEN
    }

    fn get(&self, key: &RouteKey<Prefix<F>>) -> Option<&V> {
        match self.search(key) {
            Ok(at) => Some(self.value_at(at)),
            Err(_) => None,
        }
    }

    fn insert(
        &mut self,
        alloc: Global,
        key: &RouteKey<Prefix<F>>,
        value: V,
    ) -> Result<Option<V>, Memory> {
        match self.search(key) {
            Ok(at) => Ok(Some(self.set(at, value))),
            Err(at) => {
                self.put_at(alloc, at, key, value)?;
                Ok(None)
            }
        }
    }

    #[inline(always)]
    fn push_within_capacity(&mut self, key: &RouteKey<Prefix<F>>, value: V) -> Result<(), V> {
        if self.len() >= FULL_LEN || is_full(&self.keys) || is_full(&self.values) {
            return Err(value);
        }
        if !push_id(&mut self.ids, key.id) {
            return Err(value);
        }
        self.keys.push_reserved(key.prefix);
        self.values.push_reserved(value);
        Ok(())
    }

    fn remove(&mut self, key: &RouteKey<Prefix<F>>) -> Option<V> {
        match self.search(key) {
            Ok(at) => Some(self.take_at(at)),
            Err(_) => None,
        }
    }

    fn split(&mut self, alloc: Global) -> Option<Leaf<F, V>> {
        if self.len() <= HALF_LEN {
            return None;
        }
        match self.cut(alloc) {
            Ok(high) => Some(high),
            Err(_) => None,
        }
    }

    fn list<'a>(&'a self, all: &mut Vec<(RouteKey<Prefix<F>>, &'a V)>) {
        let mut at = 0;
        while at < self.len() {
            all.push_reserved((self.key_at(at), self.value_at(at)));
            at += 1;
        }
    }

    fn paths<'a>(&'a self, prefix: &Prefix<F>, all: &mut Vec<(u32, &'a V)>) -> Result<(), Memory> {
        let mut at = 0;
        while at < self.len() {
            let key = self.key_at(at);
            let value = self.value_at(at);
            if *prefix == key.prefix {
                if all.push((key.id, value)).is_err() {
                    return Err(Memory);
                }
            }
            at += 1;
        }
        Ok(())
    }

    fn last_up_to(&self, last: &Prefix<F>) -> Option<Prefix<F>> {
        let at = self.count_up_to(last);
        if at == 0 {
            return None;
        }
        Some(self.key_at(at - 1).prefix)
    }
}

// The identifier at a position: 0 if none is stored.
fn id_at(ids: &Vec<u32>, at: usize) -> u32
    ensures { result ≡ slice_index_or ids.now.items at 0 }
{
    if at < ids.len() { ids[at] } else { 0 }
}

fn exchange<T>(items: &mut Vec<T>, at: usize, item: T) -> T
    requires { at < vec_len items.old }
    ensures before { result ≡ slice_index_or items.old.items at result }
    ensures after { items.new.items ≡ slice_set items.old.items at item }
{
    mem::replace(&mut items[at], item)
}

/// Returns the items from a position on.
pub(crate) fn copied_from<T: Copy>(
    alloc: Global,
    items: &Vec<T>,
    from: usize,
) -> Result<Vec<T>, Memory>
    requires { from ≤ vec_len items.now }
    ensures { IfOk result (λ v. v.items ≡ drop from items.now.items) }
{
    Ok(Vec::from_slice(alloc, &items[from..])?)
}

fn ids_from(alloc: Global, ids: &Vec<u32>, from: usize) -> Result<Vec<u32>, Memory>
    ensures { IfOk result (λ v. v.items ≡ drop from ids.now.items) }
{
    if ids.len() < from {
        return Ok(Vec::new(alloc));
    }
    copied_from(alloc, ids, from)
}

// Removes an identifier, if any are stored.
fn remove_id(ids: &mut Vec<u32>, at: usize)
    requires { (ids.old.items ≡ []) ⊎ (at < length ids.old.items) }
    ensures { ids.new.items ≡ ids_removed at ids.old.items }
{
    if at < ids.len() {
        let _ = ids.remove(at);
    }
}

// Whether there is no room for one more.
fn is_full<T>(items: &Vec<T>) -> bool
    ensures { result ≡ false → vec_len items.now < vec_capacity items.now }
{
    items.len() == items.capacity()
}

/// Makes room for one more: a short list is doubled, a longer one grows in steps.
pub(crate) fn make_room<T>(items: &mut Vec<T>) -> Result<(), Memory>
    ensures items { items.new.items ≡ items.old.items }
    ensures room { OnOk result (vec_len items.new < vec_capacity items.new) }
{
    if items.len() == items.capacity() {
        items.reserve_exact(items.len().clamp(1, GROWTH_STEP))?;
    }
    Ok(())
}

/// Inserts an item at a position, if there is room.
pub(crate) fn put<T: Drop>(items: &mut Vec<T>, at: usize, item: T)
    requires room { vec_len items.old < vec_capacity items.old }
    requires within { at ≤ vec_len items.old }
    ensures { items.new.items ≡ insert items.old.items at item }
{
    if items.insert(at, item).is_err() {
        unreachable!()
    }
}

// Appends an identifier to those of a leaf, and returns whether it did: it allocates nothing.
#[inline(always)]
fn push_id(ids: &mut Vec<u32>, id: u32) -> bool
    ensures pushed { IsTrue result → (len : ℕ) → (ids.old.items ≡ []) ⊎ (length ids.old.items ≡ len)
        → ids.new.items ≡ ids_put len len id ids.old.items }
    ensures same { result ≡ false → ids.new.items ≡ ids.old.items }
{
    if ids.is_empty() {
        return id == 0;
    }
    if is_full(ids) {
        return false;
    }
    ids.push_reserved(id);
    true
}

// Inserts an identifier at a position among those of `len` routes. An `Err` changes nothing.
#[inline(always)]
fn put_id(alloc: Global, ids: &mut Vec<u32>, len: usize, at: usize, id: u32) -> Result<(), Memory>
    requires within { at ≤ len }
    requires all { (ids.old.items ≡ []) ⊎ (length ids.old.items ≡ len) }
    ensures ok { OnOk result (ids.new.items ≡ ids_put len at id ids.old.items) }
    ensures err { OnErr result (ids.new.items ≡ ids.old.items) }
{
    if ids.is_empty() && id == 0 {
        return Ok(());
    }
    store_id(alloc, ids, len, at, id)
}

// The node of `put_id` that stores it, apart so that the test is inlined.
#[inline(never)]
fn store_id(alloc: Global, ids: &mut Vec<u32>, len: usize, at: usize, id: u32) -> Result<(), Memory>
    requires within { at ≤ len }
    requires all { (ids.old.items ≡ []) ⊎ (length ids.old.items ≡ len) }
    requires stored { (ids.old.items ≡ []) → id ≢ 0 }
    ensures ok { OnOk result (ids.new.items ≡ ids_put len at id ids.old.items) }
    ensures err { OnErr result (ids.new.items ≡ ids.old.items) }
{
    if ids.is_empty() {
        let mut all = Vec::from_elem(alloc, 0, len)?;
        if all.insert(at, id).is_err() {
            return Err(Memory);
        }
        *ids = all;
        return Ok(());
    }
    make_room(ids)?;
    if ids.insert(at, id).is_err() {
        return Err(Memory);
    }
    Ok(())
}
