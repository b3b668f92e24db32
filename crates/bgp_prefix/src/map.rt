//! The trait of finite maps from keys, with longest-prefix match.

ghost use Rattle.std.specs.Prelude.{◌≡◌, ◌+◌, ◌≤◌, ◌++◌, ℕ, OnOk, OnErr, IfOk, IfSome, IfNone, map, vec_len, vec_capacity};
ghost use Rattle.std.specs.Option.{option_copied};
ghost use Rattle.std.specs.FinMap as finite;
ghost use Rattle.bgp_prefix.specs.Keys.{key_cmp, entries_now};
ghost use Rattle.bgp_prefix.specs.Maps.{IsLongestMatch, HasNoMatch, paths_of};

use crate::family::Family;
use crate::key::RouteKey;
use crate::memory::Memory;
use crate::prefix::Prefix;
use std::alloc::Global;

/// A finite map from keys to values with longest-prefix match, however it is stored.
pub trait PrefixMap<V: Drop> {
    /// The addresses of its prefixes.
    type Addr: Family;

    /// What it contains.
    ghost contents: { Self → finite.FinMap key_cmp V };

    /// Returns an empty map. Allocates nothing.
    fn new(alloc: Global) -> Self
        ensures { contents result ≡ finite.empty };

    /// Sets the value of a key, and returns the previous one. An `Err` changes nothing; the value is dropped.
    fn insert(
        &mut self,
        alloc: Global,
        key: &RouteKey<Prefix<Self::Addr>>,
        value: V,
    ) -> Result<Option<V>, Memory>
        ensures before { IfOk result (λ before. before ≡ finite.get (contents self.old) key.now) }
        ensures ok { OnOk result (contents self.new ≡ finite.insert (contents self.old) key.now value) }
        ensures err { OnErr result (contents self.new ≡ contents self.old) };

    /// Removes a key, and returns its value. Allocates nothing.
    fn remove(&mut self, key: &RouteKey<Prefix<Self::Addr>>) -> Option<V>
        ensures before { result ≡ finite.get (contents self.old) key.now }
        ensures removed { contents self.new ≡ finite.remove (contents self.old) key.now };

    /// Returns the value of a key.
    fn get(&self, key: &RouteKey<Prefix<Self::Addr>>) -> Option<&V>
        ensures { option_copied result ≡ finite.get (contents self.now) key.now };

    /// Returns the longest prefix of a key that contains the address (RFC 1812, 5.2.4.3).
    fn longest(&self, addr: Self::Addr) -> Option<Prefix<Self::Addr>>
        ensures found { IfSome result (IsLongestMatch (contents self.now) (Self.Addr.bits addr)) }
        ensures none { IfNone result (HasNoMatch (contents self.now) (Self.Addr.bits addr)) };

    /// Returns the identifiers and values of the keys of a prefix, ascending by identifier.
    fn paths(&self, alloc: Global, prefix: &Prefix<Self::Addr>) -> Result<Vec<(u32, &V)>, Memory>
        ensures { IfOk result (λ v. map (λ e. (e.0, e.1.now)) v.items
            ≡ paths_of prefix.now (finite.entries (contents self.now))) };

    /// Removes every key.
    fn clear(&mut self)
        ensures { contents self.new ≡ finite.empty };

    /// The number of keys.
    fn len(&self) -> usize
        ensures { result ≡ finite.len (contents self.now) };

    /// Appends the whole map to a list that has room for it, in key order. Allocates nothing.
    fn list<'a>(&'a self, all: &mut Vec<(RouteKey<Prefix<Self::Addr>>, &'a V)>)
        requires { vec_len all.old + finite.len (contents self.now) ≤ vec_capacity all.old }
        ensures entries { entries_now all.new.items ≡ entries_now all.old.items ++ finite.entries (contents self.now) }
        ensures len { vec_len all.new ≡ vec_len all.old + finite.len (contents self.now) }
        ensures capacity { vec_capacity all.new ≡ vec_capacity all.old };

    /// Returns the whole map, in key order.
    fn entries(&self, alloc: Global) -> Result<Vec<(RouteKey<Prefix<Self::Addr>>, &V)>, Memory>
        ensures { IfOk result (λ v. map (λ e. (e.0, e.1.now)) v.items ≡ finite.entries (contents self.now)) }
    {
        let mut all = Vec::with_capacity(alloc, self.len())?;
        self.list(&mut all);
        Ok(all)
    }
}
