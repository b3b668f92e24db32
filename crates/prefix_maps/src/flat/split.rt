//! Splitting a sorted list by the longest prefix that covers all of its keys.

ghost use Rattle.std.specs.Prelude.{◌≡◌, ◌≤◌, ◌<◌, ◌+◌, ◌*◌, if◌then◌else◌, [], T, IfOk, OnOk, OnErr, IfSome, IfNone, OnSome, length, take, drop, vec_len, nat_lt, true, false};
ghost use Rattle.std.specs.List.{All};
ghost use Rattle.std.specs.List.Sorted.{IsPartitionPoint};
ghost use Rattle.bgp_prefix.specs.Prefixes.{IsIpPrefix, leading_bits, prefix_eq};
ghost use Rattle.bgp_prefix.specs.Keys.{key_cmp};
ghost use Rattle.std.specs.FinMap.Entries.{is_sorted};
ghost use Rattle.prefix_maps.specs.Splits.{upper_half, IsCover, IsSplit, IsOfOnePrefix};

use super::Flat;
use bgp_prefix::{Family, Memory, Prefix, RouteKey, shared_len};
use std::alloc::Global;
use std::mem;

/// The routes around a prefix: those of the prefix itself, and those of longer prefixes, split by
/// their next bit.
#[derive(Drop)]
pub(crate) struct Parts<F: Family, V> {
    pub(crate) at: Prefix<F>,
    pub(crate) here: Flat<F, V>,
    pub(crate) low: Flat<F, V>,
    pub(crate) high: Flat<F, V>,
}

impl<F: Family, V: Drop> Flat<F, V> {
    // The longest prefix that covers those of all keys, if these are not all the same.
    fn cover(&self) -> Option<Prefix<F>>
        ensures cover { IfSome result (IsCover self.now) }
        ensures one { IfNone result (IsOfOnePrefix self.now) }
        ensures sorted { T (is_sorted key_cmp self.now) }
        ensures known { All (λ e. IsIpPrefix e.0.prefix) self.now }
    {
        let first = self.items.first()?.0.prefix;
        let last = self.items.last()?.0.prefix;
        if first == last {
            return None;
        }
        Some(first.shortened(shared_len(&first, &last)))
    }

    // Where the keys of the prefix that covers all of them end.
    fn own_end(&self, at: &Prefix<F>) -> usize
        requires { IsCover self.now at.now }
        ensures bound { result ≤ length self.now }
        ensures end { IsPartitionPoint (λ e. prefix_eq e.0.prefix at.now ≡ true)
            (λ e. prefix_eq e.0.prefix at.now ≡ false) self.now result }
    {
        self.items.partition_point(|item| item.0.prefix == *at)
    }

    // Where the keys end whose next bit after the prefix that covers all of them is 0.
    fn low_end(&self, at: &Prefix<F>) -> usize
        requires { IsCover self.now at.now }
        ensures bound { result ≤ length self.now }
        ensures end { IsPartitionPoint (λ e. nat_lt e.0.prefix.addr (upper_half at.now) ≡ true)
            (λ e. nat_lt e.0.prefix.addr (upper_half at.now) ≡ false) self.now result }
    {
        let len = at.len();
        self.items.partition_point(
            |item: &(RouteKey<Prefix<F>>, V)| -> bool
                requires { len < 128 }
                ensures { leading_bits (len + 1) item.now.0.prefix.addr
                    ≡ 2 * leading_bits len item.now.0.prefix.addr + (if result then 0 else 1) }
            { !item.0.prefix.addr().bit_after(len) },
        )
    }

    /// Splits the list by the longest prefix that covers those of all keys. None if these are all the
    /// same. The list is empty after a split, and otherwise unchanged.
    pub(crate) fn split(&mut self, alloc: Global) -> Result<Option<Parts<F, V>>, Memory>
        ensures parts { IfOk result (λ o. IfSome o (λ p. IsSplit self.old p.at p.here p.low p.high)) }
        ensures left { IfOk result (λ o. OnSome o (self.new ≡ [])) }
        ensures whole { IfOk result (λ o. IfNone o (self.new ≡ self.old)) }
        ensures one { IfOk result (λ o. IfNone o (IsOfOnePrefix self.old)) }
        ensures err { OnErr result (self.new ≡ self.old) }
    {
        let Some(at) = self.cover() else {
            return Ok(None);
        };
        let own = self.own_end(&at);
        let lower = self.low_end(&at);
        let (low, high) = cut(&mut self.items, own, lower)?;
        let mut here = mem::replace(&mut self.items, Vec::new(alloc));
        here.shrink_to_fit();
        Ok(Some(Parts {
            at,
            here: Flat { items: here },
            low: Flat { items: low },
            high: Flat { items: high },
        }))
    }
}

/// Cuts a list at two positions, and leaves the first part in it. An `Err` changes nothing.
fn cut<T: Drop>(items: &mut Vec<T>, first: usize, second: usize) -> Result<(Vec<T>, Vec<T>), Memory>
    requires order { first ≤ second }
    requires within { second ≤ vec_len items.old }
    ensures left { OnOk result (items.new.items ≡ take first items.old.items) }
    ensures parts { IfOk result (λ p. (p.0.items ≡ drop first (take second items.old.items)) ×
        (p.1.items ≡ drop second items.old.items)) }
    ensures err { OnErr result (items.new.items ≡ items.old.items) }
{
    let mut last = items.split_off(second)?;
    match items.split_off(first) {
        Ok(middle) => Ok((middle, last)),
        Err(_) => {
            if items.append(&mut last).is_err() {
                unreachable!()
            }
            Err(Memory)
        }
    }
}
