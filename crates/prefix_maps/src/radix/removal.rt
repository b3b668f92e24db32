//! Removing a key from the trie, with the node that then neither holds routes nor forks.

ghost use Rattle.std.specs.Prelude.{◌≡◌, ℕ, None};
ghost use Rattle.std.specs.FinMap.{find};
ghost use Rattle.bgp_prefix.specs.Keys.{key_cmp};
ghost use Rattle.prefix_maps.specs.Tries.{routes, IsTrie, IsUnder, IsUnpruned, IsRemoved, is_empty, is_redundant, only_child};

use super::direction::{Direction, search_direction};
use super::node::Branch;
use super::slot::remove_into;
use bgp_prefix::{Family, Prefix, RouteKey};
use std::mem;

impl<F: Family, V: Drop> Branch<F, V> {
    /// Removes a key, and leaves its value in a slot, which is empty beforehand: as in `insert`, no
    /// value is among the locals of this recursion. Returns whether nothing is left.
    pub(super) fn remove(&mut self, key: &RouteKey<Prefix<F>>, slot: &mut Option<V>) -> bool
        requires trie { IsTrie self.old }
        requires empty { slot.old ≡ None }
        ensures before { slot.new ≡ find key_cmp key.now (routes self.old) }
        ensures removed { IsRemoved self.old self.new key.now }
        ensures empty { result ≡ is_empty self.new }
    {
        match self {
            Branch::Empty => true,
            Branch::Leaf(leaf) => remove_into(leaf, key, slot) && self.prune(),
            Branch::Fork(fork) => match search_direction(&fork.prefix, &key.prefix) {
                Direction::Here => remove_into(&mut fork.here, key, slot) && self.prune(),
                Direction::Low => fork.low.remove(key, slot) && self.prune(),
                Direction::High => fork.high.remove(key, slot) && self.prune(),
                Direction::Outside => false,
            },
        }
    }

    /// Replaces a redundant root by its only child, if it has one. Returns whether nothing is left.
    #[inline(never)]
    fn prune(&mut self) -> bool
        requires { IsUnpruned self.old }
        ensures trie { IsTrie self.new }
        ensures routes { routes self.new ≡ routes self.old }
        ensures under { (len : ℕ) → (bits : ℕ) → IsUnder len bits self.old → IsUnder len bits self.new }
        ensures empty { result ≡ is_empty self.new }
    {
        if self.is_redundant() {
            let only_child = self.take_only_child();
            self.set(only_child);
        }
        self.is_empty()
    }

    /// Whether the root is redundant: it neither holds routes nor forks.
    fn is_redundant(&self) -> bool
        ensures { result ≡ is_redundant self.now }
    {
        match self {
            Branch::Empty => false,
            Branch::Leaf(leaf) => leaf.is_empty(),
            Branch::Fork(fork) => {
                fork.here.is_empty() && (fork.low.is_empty() || fork.high.is_empty())
            }
        }
    }

    /// Takes out what replaces a redundant root: the child of a fork, if there is one.
    fn take_only_child(&mut self) -> Branch<F, V>
        ensures { result ≡ only_child self.old }
    {
        match self {
            Branch::Empty => Branch::Empty,
            Branch::Leaf(_) => Branch::Empty,
            Branch::Fork(fork) => {
                if fork.low.is_empty() {
                    mem::replace(&mut fork.high, Branch::Empty)
                } else {
                    mem::replace(&mut fork.low, Branch::Empty)
                }
            }
        }
    }
}
