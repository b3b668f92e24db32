//! The longest match of an address in a sorted list, also with a count of the prefixes compared.

ghost use Rattle.std.specs.Prelude.{◌≡◌, ◌<◌, ◌≤◌, ◌+◌, ℕ, IfSome, IfNone, length, true, false};
ghost use Rattle.std.specs.List.{All};
ghost use Rattle.std.specs.List.Sorted.{IsPartitionPoint};
ghost use Rattle.std.specs.Ordering.{is_le};
ghost use Rattle.bgp_prefix.specs.Prefixes.{prefix_cmp};
ghost use Rattle.bgp_prefix.specs.Keys.{matching_prefixes, last_match};
ghost use Rattle.bgp_prefix.specs.Maps.{IsLongestMatch, HasNoMatch};
ghost use Rattle.std.specs.FinMap as finite;

use super::Flat;
use bgp_prefix::{Family, Prefix, shared_len};

impl<F: Family, V: Drop> Flat<F, V> {
    /// Returns the longest prefix of a key that contains the address (RFC 1812, 5.2.4.3). Allocates
    /// nothing, and searches at most once more than an address has bits.
    pub fn longest(&self, addr: F) -> Option<Prefix<F>>
        ensures found { IfSome result (IsLongestMatch (finite.from_entries self.now) (F.bits addr)) }
        ensures none { IfNone result (HasNoMatch (finite.from_entries self.now) (F.bits addr)) }
    {
        let Some(host) = Prefix::new(addr, F::WIDTH) else {
            unreachable!()
        };
        let mut limit = F::WIDTH;
        loop {
            let at = self.count_up_to(&host.shortened(limit));
            if at == 0 {
                return None;
            }
            let prefix = self.items[at - 1].0.prefix;
            if prefix.contains(addr) {
                return Some(prefix);
            }
            limit = shared_len(&prefix, &host);
        }
    }

    // The number of keys whose prefixes are at most this one, in their order.
    fn count_up_to(&self, last: &Prefix<F>) -> usize
        ensures bound { result ≤ length self.now }
        ensures end { IsPartitionPoint (λ e. is_le (prefix_cmp e.0.prefix last.now) ≡ true)
            (λ e. is_le (prefix_cmp e.0.prefix last.now) ≡ false) self.now result }
    {
        self.items.partition_point(|item| item.0.prefix <= *last)
    }

    // The number of keys whose addresses are at most this one.
    fn count_up_to_address(&self, addr: F) -> usize
        ensures bound { result ≤ length self.now }
        ensures end { IsPartitionPoint (λ e. e.0.prefix.addr ≤ F.bits addr) (λ e. F.bits addr < e.0.prefix.addr) self.now result }
    {
        self.items
            .partition_point(|item| item.0.prefix.addr().is_at_most(addr))
    }

    /// Returns the longest prefix of a key that contains the address, like `longest`. For short lists: it
    /// compares the prefixes one by one, from the end.
    pub(crate) fn last_match(&self, addr: F) -> Option<Prefix<F>>
        ensures last { result ≡ last_match self.now (F.bits addr) }
    {
        let mut at = self.items.len();
        while at > 0 {
            at -= 1;
            let last = self.items[at].0.prefix;
            if last.addr().is_at_most(addr) && last.contains(addr) {
                return Some(last);
            }
        }
        None
    }

    /// Like `longest`, and also returns how many prefixes were compared with the address. Their lengths differ.
    /// For short lists: it walks back through all prefixes whose addresses are at most this one.
    pub fn longest_steps(&self, addr: F) -> (Option<Prefix<F>>, u32)
        ensures found { IfSome result.0 (IsLongestMatch (finite.from_entries self.now) (F.bits addr)) }
        ensures none { IfNone result.0 (HasNoMatch (finite.from_entries self.now) (F.bits addr)) }
        ensures enough { matching_prefixes self.now (F.bits addr) ≤ result.1 }
        ensures bound { (len : ℕ) → len ≤ F.WIDTH + 1 → All (λ e. len ≤ e.0.prefix.len) self.now → len + result.1 ≤ F.WIDTH + 1 }
    {
        let Some(host) = Prefix::new(addr, F::WIDTH) else {
            unreachable!()
        };
        let mut longest = None;
        let mut steps = 0;
        let mut limit = F::WIDTH + 1;
        let mut at = self.count_up_to_address(addr);
        while at > 0 {
            at -= 1;
            let prefix = self.items[at].0.prefix;
            if prefix.len() >= limit {
                continue;
            }
            steps += 1;
            if prefix.contains(addr) {
                longest = longest.or(Some(prefix));
                limit = prefix.len();
            } else {
                limit = shared_len(&prefix, &host) + 1;
            }
        }
        (longest, steps)
    }
}
