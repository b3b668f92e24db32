//! Inserting a key into the trie, with the fork that is then needed.

ghost use Rattle.std.specs.Prelude.{◌≡◌, None, IsSome, OnOk, OnErr, IfSome};
ghost use Rattle.std.specs.FinMap.{find};
ghost use Rattle.bgp_prefix.specs.Prefixes.{IsIpPrefix, leading_bits, Starts};
ghost use Rattle.bgp_prefix.specs.Keys.{key_cmp};
ghost use Rattle.prefix_maps.specs.declared.radix.node.Branch.TheVariants.{Empty};
ghost use Rattle.prefix_maps.specs.Tries.{routes, IsTrie, IsRoot, IsLeaf, IsInserted};

use super::direction::{Direction, direction_of};
use super::node::{Branch, Fork};
use super::slot::{exchange, remove_into, single};
use crate::flat::Flat;
use bgp_prefix::{Family, Memory, Prefix, RouteKey, shared_len};
use std::alloc::Global;
use std::mem;

/// A leaf with more routes becomes a fork, if they have several prefixes.
const LEAF_ROUTES: usize = 32;

impl<F: Family, V: Drop> Branch<F, V> {
    /// Sets the value of a key to that of a slot, and leaves the previous one in the slot. An `Err`
    /// changes nothing but the slot.
    ///
    /// A value is wide, and a function clears the room of its locals at entry: so neither this
    /// recursion nor anything inlined into it has a value among its locals.
    pub(super) fn insert(
        &mut self,
        alloc: Global,
        key: &RouteKey<Prefix<F>>,
        slot: &mut Option<V>,
    ) -> Result<(), Memory>
        requires trie { IsTrie self.old }
        requires known { IsIpPrefix key.now.prefix }
        requires given { IsSome slot.old }
        ensures before { OnOk result (slot.new ≡ find key_cmp key.now (routes self.old)) }
        ensures ok { OnOk result (IfSome slot.old (IsInserted self.old self.new key.now)) }
        ensures err { OnErr result (self.new ≡ self.old) }
    {
        match self {
            Branch::Empty => self.insert_leaf(alloc, key, slot),
            Branch::Leaf(_) => self.insert_in_leaf(alloc, key, slot),
            Branch::Fork(fork) => {
                let at = fork.prefix;
                match direction_of(&at, &key.prefix) {
                    Direction::Here => exchange(&mut fork.here, key, slot),
                    Direction::Low => fork.low.insert(alloc, key, slot),
                    Direction::High => fork.high.insert(alloc, key, slot),
                    Direction::Outside => self.insert_outside(alloc, &at, key, slot),
                }
            }
        }
    }

    /// Adds a route where there was nothing.
    #[inline(never)]
    fn insert_leaf(
        &mut self,
        alloc: Global,
        key: &RouteKey<Prefix<F>>,
        slot: &mut Option<V>,
    ) -> Result<(), Memory>
        requires empty { self.old ≡ Empty }
        requires known { IsIpPrefix key.now.prefix }
        requires given { IsSome slot.old }
        ensures taken { slot.new ≡ None }
        ensures ok { OnOk result (IfSome slot.old (IsInserted self.old self.new key.now)) }
        ensures err { OnErr result (self.new ≡ self.old) }
    {
        self.set(Branch::Leaf(single(alloc, key, slot)?));
        Ok(())
    }

    /// Sets a value in this leaf, which becomes a fork if it then has too many routes.
    #[inline(never)]
    fn insert_in_leaf(
        &mut self,
        alloc: Global,
        key: &RouteKey<Prefix<F>>,
        slot: &mut Option<V>,
    ) -> Result<(), Memory>
        requires trie { IsTrie self.old }
        requires leaf { IsLeaf self.old }
        requires known { IsIpPrefix key.now.prefix }
        requires given { IsSome slot.old }
        ensures before { OnOk result (slot.new ≡ find key_cmp key.now (routes self.old)) }
        ensures ok { OnOk result (IfSome slot.old (IsInserted self.old self.new key.now)) }
        ensures err { OnErr result (self.new ≡ self.old) }
    {
        let Branch::Leaf(leaf) = self else {
            unreachable!()
        };
        exchange(leaf, key, slot)?;
        if slot.is_some() || leaf.len() <= LEAF_ROUTES {
            return Ok(());
        }
        match Fork::of(alloc, &key.prefix, leaf) {
            Ok(None) => Ok(()),
            Ok(Some(fork)) => {
                self.set(Branch::Fork(fork));
                Ok(())
            }
            Err(e) => {
                let _ = remove_into(leaf, key, slot);
                Err(e)
            }
        }
    }

    /// Adds a route whose prefix is not covered by the root's prefix `at`, with a fork above both.
    #[inline(never)]
    fn insert_outside(
        &mut self,
        alloc: Global,
        at: &Prefix<F>,
        key: &RouteKey<Prefix<F>>,
        slot: &mut Option<V>,
    ) -> Result<(), Memory>
        requires trie { IsTrie self.old }
        requires root { IsRoot at.now self.old }
        requires known { IsIpPrefix key.now.prefix }
        requires apart { Starts at.now.len (leading_bits at.now.len at.now.addr) key.now.prefix → ⊥ }
        requires given { IsSome slot.old }
        ensures taken { slot.new ≡ None }
        ensures ok { OnOk result (IfSome slot.old (IsInserted self.old self.new key.now)) }
        ensures err { OnErr result (self.new ≡ self.old) }
    {
        let shared = shared_len(at, &key.prefix);
        if shared == key.prefix.len() {
            let here = single(alloc, key, slot)?;
            let mut fork = Fork::new(alloc, key.prefix, here)?;
            let is_high = at.addr().bit_after(shared);
            fork.set_child(is_high, mem::replace(self, Branch::Empty));
            self.set(Branch::Fork(fork));
            return Ok(());
        }
        let new = single(alloc, key, slot)?;
        let mut fork = Fork::new(alloc, at.shortened(shared), Flat::new(alloc))?;
        let is_high = at.addr().bit_after(shared);
        fork.set_child(!is_high, Branch::Leaf(new));
        fork.set_child(is_high, mem::replace(self, Branch::Empty));
        self.set(Branch::Fork(fork));
        Ok(())
    }
}
