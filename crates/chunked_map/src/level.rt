//! Consecutive nodes in key order, found by their first keys: the branches of a map, and the leaves of a branch.

ghost use Rattle.std.specs.Prelude.{◌≡◌, ◌+◌, ◌<◌, ◌≤◌, List, [], ◌∷◌, ◌++◌, not, T, IsTrue, IfOk, IfErr, OnOk, OnErr, length, map, slice_index_or, slice_set, vec_len, vec_capacity};
ghost use Rattle.std.specs.Option.{option_copied};
ghost use Rattle.std.specs.Ordering.{eq_by_cmp};
ghost use Rattle.std.specs.declared.cmp.Ordering.TheVariants.{Less};
ghost use Rattle.std.specs.FinMap.{find, put};
ghost use Rattle.std.specs.FinMap.Entries.{where_key};
ghost use Rattle.bgp_prefix.specs.Prefixes.{IsIpPrefix};
ghost use Rattle.bgp_prefix.specs.Keys.{key_cmp, is_nil, entries_now};
ghost use Rattle.bgp_prefix.specs.Maps.{paths_of};
ghost use Rattle.chunked_map.specs.ChunkedMaps.{routes_of, first_key, lesser_key, EachKey, AreNodes, IsCut, IsIndexOfKey, IsIndexOfPrefix, IsLastUpTo};

use crate::leaf::{copied_from, make_room, put};
use crate::node::{FULL_LEN, GROWTH_STEP, HALF_LEN, Node};
use bgp_prefix::{Family, Memory, Prefix, RouteKey};
use std::alloc::Global;
use std::cmp::Ordering;

/// Consecutive nodes in key order, none of them empty, and the first key of each. A map uses it
/// at two levels: its branches of leaves, and the leaves of a branch.
#[derive(Drop)]
pub(crate) struct Level<F: Family, P> {
    pub(crate) firsts: Vec<RouteKey<Prefix<F>>>,
    pub(crate) nodes: Vec<P>,
}

impl<F: Family, P: Node<F>> Level<F, P> {
    /// Returns one node of one route, in a leaf with room for so many.
    pub(crate) fn single(
        alloc: Global,
        room: usize,
        key: &RouteKey<Prefix<F>>,
        value: P::Value,
    ) -> Result<Level<F, P>, Memory>
        requires known { IsIpPrefix key.now.prefix }
        requires room { 0 < room }
        ensures routes { IfOk result (λ one. routes_of P.routes one.nodes.items ≡ (key.now, value) ∷ []) }
        ensures nodes { IfOk result (λ one. AreNodes one.firsts.items (map P.routes one.nodes.items)) }
    {
        let mut firsts = Vec::with_capacity(alloc, 1)?;
        let mut nodes = Vec::with_capacity(alloc, 1)?;
        let node = P::single(alloc, room, key, value)?;
        put(&mut firsts, 0, *key);
        put(&mut nodes, 0, node);
        Ok(Level { firsts, nodes })
    }

    /// The first key.
    pub(crate) fn first(&self) -> RouteKey<Prefix<F>>
        requires nodes { AreNodes self.now.firsts.items (map P.routes self.now.nodes.items) }
        requires some { 0 < length (routes_of P.routes self.now.nodes.items) }
        ensures { result ≡ first_key (routes_of P.routes self.now.nodes.items) }
    {
        self.firsts[0]
    }

    /// Whether it has no routes.
    pub(crate) fn is_empty(&self) -> bool
        requires { AreNodes self.now.firsts.items (map P.routes self.now.nodes.items) }
        ensures { result ≡ is_nil (routes_of P.routes self.now.nodes.items) }
    {
        self.nodes.is_empty()
    }

    /// Whether everything is full, and ends before a key.
    pub(crate) fn is_full_before(&self, key: &RouteKey<Prefix<F>>) -> bool
        requires { AreNodes self.now.firsts.items (map P.routes self.now.nodes.items) }
        ensures { IsTrue result → EachKey (λ k. key_cmp k key.now ≡ Less) (routes_of P.routes self.now.nodes.items) }
    {
        let len = self.nodes.len();
        len >= FULL_LEN && self.nodes[len - 1].is_full_before(key)
    }

    /// Whether it has more than `FULL_LEN` nodes.
    pub(crate) fn is_overfull(&self) -> bool {
        self.nodes.len() > FULL_LEN
    }

    // The index of the node in which a key is, or would go. The end is tried first.
    fn index_of_key(&self, key: &RouteKey<Prefix<F>>) -> usize
        requires nodes { AreNodes self.now.firsts.items (map P.routes self.now.nodes.items) }
        requires some { 0 < length self.now.nodes.items }
        ensures { IsIndexOfKey (map P.routes self.now.nodes.items) key.now result }
    {
        let len = self.firsts.len();
        let mut low = 0;
        let mut high = len;
        while low < high {
            let at = if high == len {
                high - 1
            } else {
                low + (high - low) / 2
            };
            match self.firsts[at].cmp(key) {
                Ordering::Greater => high = at,
                _ => low = at + 1,
            }
        }
        low.saturating_sub(1)
    }

    /// Returns the value of a key.
    pub(crate) fn get(&self, key: &RouteKey<Prefix<F>>) -> Option<&P::Value>
        requires { AreNodes self.now.firsts.items (map P.routes self.now.nodes.items) }
        ensures { option_copied result ≡ find key_cmp key.now (routes_of P.routes self.now.nodes.items) }
    {
        if self.nodes.is_empty() {
            return None;
        }
        self.nodes[self.index_of_key(key)].get(key)
    }

    // Sets the value of a key in its node.
    fn insert_in_node(
        &mut self,
        alloc: Global,
        index: usize,
        key: &RouteKey<Prefix<F>>,
        value: P::Value,
    ) -> Result<Option<P::Value>, Memory>
        requires nodes { AreNodes self.old.firsts.items (map P.routes self.old.nodes.items) }
        requires known { IsIpPrefix key.now.prefix }
        requires index { IsIndexOfKey (map P.routes self.old.nodes.items) key.now index }
        ensures before { IfOk result
            (λ before. before ≡ find key_cmp key.now (routes_of P.routes self.old.nodes.items)) }
        ensures ok { OnOk result (routes_of P.routes self.new.nodes.items
            ≡ put key_cmp key.now value (routes_of P.routes self.old.nodes.items)) }
        ensures err { OnErr result (routes_of P.routes self.new.nodes.items ≡ routes_of P.routes self.old.nodes.items) }
        ensures nodes { AreNodes self.new.firsts.items (map P.routes self.new.nodes.items) }
        ensures kept { OnOk result (length self.new.nodes.items ≡ length self.old.nodes.items) }
    {
        let before = self.nodes[index].insert(alloc, key, value)?;
        lower_first_key(&mut self.firsts, index, key);
        Ok(before)
    }

    // Adds a new node of one route after the others, in a leaf with room for so many.
    fn push_single(
        &mut self,
        alloc: Global,
        room: usize,
        key: &RouteKey<Prefix<F>>,
        value: P::Value,
    ) -> Result<(), Memory>
        requires room { 0 < room }
        requires nodes { AreNodes self.old.firsts.items (map P.routes self.old.nodes.items) }
        requires known { IsIpPrefix key.now.prefix }
        requires last { EachKey (λ k. key_cmp k key.now ≡ Less) (routes_of P.routes self.old.nodes.items) }
        ensures ok { OnOk result (routes_of P.routes self.new.nodes.items
            ≡ put key_cmp key.now value (routes_of P.routes self.old.nodes.items)) }
        ensures err { OnErr result (routes_of P.routes self.new.nodes.items ≡ routes_of P.routes self.old.nodes.items) }
        ensures nodes { AreNodes self.new.firsts.items (map P.routes self.new.nodes.items) }
    {
        make_room(&mut self.firsts)?;
        make_room(&mut self.nodes)?;
        let node = P::single(alloc, room, key, value)?;
        let len = self.firsts.len();
        put(&mut self.firsts, len, *key);
        let len = self.nodes.len();
        put(&mut self.nodes, len, node);
        Ok(())
    }

    // Replaces an overfull node by two, if there is memory for it.
    fn split_overfull(&mut self, alloc: Global, index: usize)
        requires nodes { AreNodes self.old.firsts.items (map P.routes self.old.nodes.items) }
        requires within { index < length self.old.nodes.items }
        ensures same { routes_of P.routes self.new.nodes.items ≡ routes_of P.routes self.old.nodes.items }
        ensures nodes { AreNodes self.new.firsts.items (map P.routes self.new.nodes.items) }
    {
        if !self.nodes[index].is_overfull() {
            return;
        }
        if make_room(&mut self.firsts).is_err() {
            return;
        }
        if make_room(&mut self.nodes).is_err() {
            return;
        }
        let Some(high) = self.nodes[index].split(alloc) else {
            return;
        };
        let first = high.first();
        put(&mut self.firsts, index + 1, first);
        put(&mut self.nodes, index + 1, high);
    }

    /// Sets the value of a key, and returns the previous one.
    pub(crate) fn insert(
        &mut self,
        alloc: Global,
        key: &RouteKey<Prefix<F>>,
        value: P::Value,
    ) -> Result<Option<P::Value>, Memory>
        requires nodes { AreNodes self.old.firsts.items (map P.routes self.old.nodes.items) }
        requires known { IsIpPrefix key.now.prefix }
        ensures before { IfOk result
            (λ before. before ≡ find key_cmp key.now (routes_of P.routes self.old.nodes.items)) }
        ensures ok { OnOk result (routes_of P.routes self.new.nodes.items
            ≡ put key_cmp key.now value (routes_of P.routes self.old.nodes.items)) }
        ensures err { OnErr result (routes_of P.routes self.new.nodes.items ≡ routes_of P.routes self.old.nodes.items) }
        ensures nodes { AreNodes self.new.firsts.items (map P.routes self.new.nodes.items) }
    {
        if self.nodes.is_empty() {
            self.push_single(alloc, 1, key, value)?;
            return Ok(None);
        }
        let index = self.index_of_key(key);
        if index + 1 == self.nodes.len() && self.nodes[index].is_full_before(key) {
            // The keys come in order, as those of a RIB dump do, so the new leaf is likely to be filled.
            self.push_single(alloc, FULL_LEN, key, value)?;
            return Ok(None);
        }
        let before = self.insert_in_node(alloc, index, key, value)?;
        self.split_overfull(alloc, index);
        Ok(before)
    }

    /// Appends a route if the last leaf has room for it. An `Err` has its value.
    #[inline(always)]
    pub(crate) fn push_within_capacity(
        &mut self,
        key: &RouteKey<Prefix<F>>,
        value: P::Value,
    ) -> Result<(), P::Value>
        requires nodes { AreNodes self.old.firsts.items (map P.routes self.old.nodes.items) }
        requires known { IsIpPrefix key.now.prefix }
        requires last { EachKey (λ k. key_cmp k key.now ≡ Less) (routes_of P.routes self.old.nodes.items) }
        ensures ok { OnOk result (routes_of P.routes self.new.nodes.items
            ≡ routes_of P.routes self.old.nodes.items ++ (key.now, value) ∷ []) }
        ensures err { OnErr result (routes_of P.routes self.new.nodes.items ≡ routes_of P.routes self.old.nodes.items) }
        ensures value { IfErr result (λ given. given ≡ value) }
        ensures nodes { AreNodes self.new.firsts.items (map P.routes self.new.nodes.items) }
    {
        let len = self.nodes.len();
        if len == 0 {
            return Err(value);
        }
        self.nodes[len - 1].push_within_capacity(key, value)
    }

    /// Removes a key, and returns its value.
    pub(crate) fn remove(&mut self, key: &RouteKey<Prefix<F>>) -> Option<P::Value>
        requires { AreNodes self.old.firsts.items (map P.routes self.old.nodes.items) }
        ensures before { result ≡ find key_cmp key.now (routes_of P.routes self.old.nodes.items) }
        ensures removed { routes_of P.routes self.new.nodes.items
            ≡ where_key key_cmp (λ x. not (eq_by_cmp key_cmp key.now x)) (routes_of P.routes self.old.nodes.items) }
        ensures nodes { AreNodes self.new.firsts.items (map P.routes self.new.nodes.items) }
    {
        if self.nodes.is_empty() {
            return None;
        }
        let index = self.index_of_key(key);
        let before = self.nodes[index].remove(key);
        if self.nodes[index].is_empty() {
            let _ = self.nodes.remove(index);
            let _ = self.firsts.remove(index);
        } else {
            let first = self.nodes[index].first();
            self.firsts[index] = first;
        }
        before
    }

    /// Keeps the first half of its nodes, and returns the rest.
    pub(crate) fn cut(&mut self, alloc: Global) -> Result<Level<F, P>, Memory>
        requires nodes { AreNodes self.old.firsts.items (map P.routes self.old.nodes.items) }
        requires long { 64 < length self.old.nodes.items }
        ensures cut { IfOk result
            (λ high. IsCut (routes_of P.routes self.old.nodes.items) (routes_of P.routes self.new.nodes.items)
            (routes_of P.routes high.nodes.items)) }
        ensures low { AreNodes self.new.firsts.items (map P.routes self.new.nodes.items) }
        ensures high { IfOk result (λ high. AreNodes high.firsts.items (map P.routes high.nodes.items)) }
        ensures err { OnErr result (routes_of P.routes self.new.nodes.items ≡ routes_of P.routes self.old.nodes.items) }
    {
        let firsts = copied_from(alloc, &self.firsts, HALF_LEN)?;
        let nodes = self.nodes.split_off(HALF_LEN)?;
        self.firsts.truncate(HALF_LEN);
        self.firsts.shrink_to(HALF_LEN + GROWTH_STEP);
        self.nodes.shrink_to(HALF_LEN + GROWTH_STEP);
        Ok(Level { firsts, nodes })
    }

    /// Appends the routes to a list that has room for them, in order. Allocates nothing.
    pub(crate) fn list<'a>(&'a self, all: &mut Vec<(RouteKey<Prefix<F>>, &'a P::Value)>)
        requires { vec_len all.old + length (routes_of P.routes self.now.nodes.items) ≤ vec_capacity all.old }
        ensures entries { entries_now all.new.items
            ≡ entries_now all.old.items ++ routes_of P.routes self.now.nodes.items }
        ensures len { vec_len all.new ≡ vec_len all.old + length (routes_of P.routes self.now.nodes.items) }
        ensures capacity { vec_capacity all.new ≡ vec_capacity all.old }
    {
        let mut at = 0;
        while at < self.nodes.len() {
            self.nodes[at].list(all);
            at += 1;
        }
    }

    /// Appends the identifiers and values of the routes of a prefix to a list.
    pub(crate) fn paths<'a>(
        &'a self,
        prefix: &Prefix<F>,
        all: &mut Vec<(u32, &'a P::Value)>,
    ) -> Result<(), Memory>
        requires { AreNodes self.now.firsts.items (map P.routes self.now.nodes.items) }
        ensures { OnOk result (map (λ e. (e.0, e.1.now)) all.new.items
            ≡ map (λ e. (e.0, e.1.now)) all.old.items
            ++ paths_of prefix.now (routes_of P.routes self.now.nodes.items)) }
    {
        if self.nodes.is_empty() {
            return Ok(());
        }
        let first = RouteKey {
            prefix: *prefix,
            id: 0,
        };
        let mut at = self.index_of_key(&first);
        while at < self.nodes.len() {
            match self.firsts[at].prefix.cmp(prefix) {
                Ordering::Greater => return Ok(()),
                _ => self.nodes[at].paths(prefix, all)?,
            }
            at += 1;
        }
        Ok(())
    }

    // The index of the node that has the last prefix up to this one, if any has.
    fn index_of_prefix(&self, last: &Prefix<F>) -> usize
        requires nodes { AreNodes self.now.firsts.items (map P.routes self.now.nodes.items) }
        requires some { 0 < length self.now.nodes.items }
        ensures { IsIndexOfPrefix (map P.routes self.now.nodes.items) last.now result }
    {
        let mut low = 0;
        let mut high = self.firsts.len();
        while low < high {
            let at = low + (high - low) / 2;
            match self.firsts[at].prefix.cmp(last) {
                Ordering::Greater => high = at,
                _ => low = at + 1,
            }
        }
        low.saturating_sub(1)
    }

    /// Returns the last prefix up to this one.
    pub(crate) fn last_up_to(&self, last: &Prefix<F>) -> Option<Prefix<F>>
        requires { AreNodes self.now.firsts.items (map P.routes self.now.nodes.items) }
        ensures { IsLastUpTo (routes_of P.routes self.now.nodes.items) last.now result }
    {
        if self.nodes.is_empty() {
            return None;
        }
        self.nodes[self.index_of_prefix(last)].last_up_to(last)
    }
}

// Replaces a greater key by this one.
fn lower_first_key<F: Family>(
    firsts: &mut Vec<RouteKey<Prefix<F>>>,
    at: usize,
    key: &RouteKey<Prefix<F>>,
)
    requires { at < length firsts.old.items }
    ensures { (d : _) →
        firsts.new.items ≡ slice_set firsts.old.items at (lesser_key key.now (slice_index_or firsts.old.items at d)) }
{
    if *key < firsts[at] {
        firsts[at] = *key;
    }
}
