//! Sets of keys, for lookups.

ghost use Rattle.std.specs.Prelude.{◌≡◌, IfOk};
ghost use Rattle.bgp_prefix.specs.Keys.{among};
ghost use Rattle.bgp_prefix.specs.Prefixes.{IpPrefix};

use crate::family::Family;
use crate::key::RouteKey;
use crate::memory::Memory;
use crate::prefix::Prefix;
use std::alloc::Global;
use std::marker::Model;

/// The keys of a list, in order, for lookups.
#[derive(Debug, Drop)]
pub struct KeySet<F: Family = u32> {
    sorted: Vec<RouteKey<Prefix<F>>>,
}

impl<F: Family> Model for KeySet<F> {
    ghost use Rattle.std.specs.Prelude.{List};
    ghost use Rattle.std.specs.List.Sorted.{IsSorted};
    ghost use Rattle.bgp_prefix.specs.Keys.{RouteKey, key_cmp};

    ghost Value = { List RouteKey };

    ghost view = { λ s. s.sorted.items };

    ghost invariant = { λ s. IsSorted key_cmp s.sorted.items };
}

impl<F: Family> KeySet<F> {
    /// Returns the set of these keys.
    pub fn from_slice(alloc: Global, keys: &[RouteKey<Prefix<F>>]) -> Result<KeySet<F>, Memory>
        ensures { IfOk result (λ set. (k : RouteKey IpPrefix) → among set k ≡ among keys.now k) }
    {
        let mut sorted = Vec::from_slice(alloc, keys)?;
        sorted.sort_unstable();
        Ok(KeySet { sorted })
    }

    /// Whether the key is one of them.
    pub fn contains(&self, key: &RouteKey<Prefix<F>>) -> bool
        ensures { result ≡ among self.now key.now }
    {
        self.sorted.binary_search(key).is_ok()
    }
}
