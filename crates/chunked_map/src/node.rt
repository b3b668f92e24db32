//! What branches of leaves, and the leaves of a branch, are alike in: the trait of a node.

ghost use Rattle.std.specs.Prelude.{◌≡◌, List, [], ◌∷◌, ◌++◌, ◌+◌, ◌<◌, ◌≤◌, not, T, IsTrue, IfOk, IfErr, OnOk, OnErr, IfSome, IfNone, length, map, vec_len, vec_capacity};
ghost use Rattle.std.specs.Option.{option_copied};
ghost use Rattle.std.specs.Ordering.{eq_by_cmp};
ghost use Rattle.std.specs.declared.cmp.Ordering.TheVariants.{Less};
ghost use Rattle.std.specs.FinMap.{find, put};
ghost use Rattle.std.specs.FinMap.Entries.{is_sorted, where_key};
ghost use Rattle.bgp_prefix.specs.Prefixes.{IsIpPrefix};
ghost use Rattle.bgp_prefix.specs.Keys.{key_cmp, is_nil, entries_now};
ghost use Rattle.bgp_prefix.specs.Maps.{paths_of};
ghost use Rattle.chunked_map.specs.ChunkedMaps.{first_key, EachKey, IsCut, IsLastUpTo};

use bgp_prefix::{Family, Memory, Prefix, RouteKey};
use std::alloc::Global;

/// The most routes in a leaf, and the most leaves in a branch: a node with more is cut in two.
pub(crate) const FULL_LEN: usize = 128;
/// How many stay when a node is cut in two.
pub(crate) const HALF_LEN: usize = 64;
/// How much the room of an array grows at most: up to then it is doubled.
pub(crate) const GROWTH_STEP: usize = 16;

/// Routes in key order, which `Level` keeps as consecutive nodes.
pub(crate) trait Node<F: Family>: Drop {
    ghost use Rattle.bgp_prefix.specs.Keys.{RouteKey};
    ghost use Rattle.std.specs.Prelude.{List};

    type Value: Drop;

    /// The routes, in order.
    ghost routes: { Self → List (RouteKey × Self.Value) };

    /// Returns a node of one route, in a leaf with room for so many.
    fn single(
        alloc: Global,
        room: usize,
        key: &RouteKey<Prefix<F>>,
        value: Self::Value,
    ) -> Result<Self, Memory>
        requires known { IsIpPrefix key.now.prefix }
        requires room { 0 < room }
        ensures { IfOk result (λ one. routes one ≡ (key.now, value) ∷ []) };

    /// Whether it has no routes.
    fn is_empty(&self) -> bool
        ensures { result ≡ is_nil (routes self.now) };

    /// The first key.
    fn first(&self) -> RouteKey<Prefix<F>>
        requires { 0 < length (routes self.now) }
        ensures { result ≡ first_key (routes self.now) };

    /// Whether it is full, and ends before a key.
    fn is_full_before(&self, key: &RouteKey<Prefix<F>>) -> bool
        requires { T (is_sorted key_cmp (routes self.now)) }
        ensures { IsTrue result → EachKey (λ k. key_cmp k key.now ≡ Less) (routes self.now) };

    /// Whether it has more than `FULL_LEN`, and should be cut in two.
    fn is_overfull(&self) -> bool;

    /// Returns the value of a key.
    fn get(&self, key: &RouteKey<Prefix<F>>) -> Option<&Self::Value>
        requires { T (is_sorted key_cmp (routes self.now)) }
        ensures { option_copied result ≡ find key_cmp key.now (routes self.now) };

    /// Sets the value of a key, and returns the previous one. An `Err` changes nothing; the value is dropped.
    fn insert(
        &mut self,
        alloc: Global,
        key: &RouteKey<Prefix<F>>,
        value: Self::Value,
    ) -> Result<Option<Self::Value>, Memory>
        requires sorted { T (is_sorted key_cmp (routes self.old)) }
        requires known { IsIpPrefix key.now.prefix }
        ensures before { IfOk result (λ before. before ≡ find key_cmp key.now (routes self.old)) }
        ensures ok { OnOk result (routes self.new ≡ put key_cmp key.now value (routes self.old)) }
        ensures err { OnErr result (routes self.new ≡ routes self.old) };

    /// Appends a route if the last leaf has room for it. An `Err` has its value, and changes nothing.
    fn push_within_capacity(
        &mut self,
        key: &RouteKey<Prefix<F>>,
        value: Self::Value,
    ) -> Result<(), Self::Value>
        requires known { IsIpPrefix key.now.prefix }
        requires last { EachKey (λ k. key_cmp k key.now ≡ Less) (routes self.old) }
        ensures ok { OnOk result (routes self.new ≡ routes self.old ++ (key.now, value) ∷ []) }
        ensures err { OnErr result (routes self.new ≡ routes self.old) }
        ensures value { IfErr result (λ given. given ≡ value) };

    /// Removes a key, and returns its value.
    fn remove(&mut self, key: &RouteKey<Prefix<F>>) -> Option<Self::Value>
        requires { T (is_sorted key_cmp (routes self.old)) }
        ensures before { result ≡ find key_cmp key.now (routes self.old) }
        ensures removed { routes self.new
            ≡ where_key key_cmp (λ x. not (eq_by_cmp key_cmp key.now x)) (routes self.old) };

    /// Keeps its first half, and returns the rest: nothing if it is short, or if an allocation fails.
    fn split(&mut self, alloc: Global) -> Option<Self>
        ensures cut { IfSome result (λ high. IsCut (routes self.old) (routes self.new) (routes high)) }
        ensures same { IfNone result (routes self.new ≡ routes self.old) };

    /// Appends the routes to a list that has room for them, in order. Allocates nothing.
    fn list<'a>(&'a self, all: &mut Vec<(RouteKey<Prefix<F>>, &'a Self::Value)>)
        requires { vec_len all.old + length (routes self.now) ≤ vec_capacity all.old }
        ensures entries { entries_now all.new.items ≡ entries_now all.old.items ++ routes self.now }
        ensures len { vec_len all.new ≡ vec_len all.old + length (routes self.now) }
        ensures capacity { vec_capacity all.new ≡ vec_capacity all.old };

    /// Appends the identifiers and values of the routes of a prefix to a list. An `Err` leaves any node of them there.
    fn paths<'a>(
        &'a self,
        prefix: &Prefix<F>,
        all: &mut Vec<(u32, &'a Self::Value)>,
    ) -> Result<(), Memory>
        ensures { OnOk result (map (λ e. (e.0, e.1.now)) all.new.items
            ≡ map (λ e. (e.0, e.1.now)) all.old.items ++ paths_of prefix.now (routes self.now)) };

    /// Returns the last prefix up to this one.
    fn last_up_to(&self, last: &Prefix<F>) -> Option<Prefix<F>>
        requires { T (is_sorted key_cmp (routes self.now)) }
        ensures { IsLastUpTo (routes self.now) last.now result };
}
