//! The branches of the trie: leaves, which are short sorted lists, and forks.

ghost use Rattle.std.specs.Prelude.{◌≡◌, OnErr, IfOk, IfSome, IfNone, if◌then◌else◌};
ghost use Rattle.prefix_maps.specs.declared.radix.node.Branch.TheVariants.{Empty};
ghost use Rattle.prefix_maps.specs.Tries.{IsForkOf, branch_of, is_empty};

use crate::flat::{Flat, Parts};
use bgp_prefix::{Family, Memory, Prefix};
use std::alloc::Global;

/// A part of the trie: empty, a leaf with the routes of any prefixes in order, at least one, or a
/// fork with two branches. Each prefix with routes is a node: a leaf's block has several nodes
/// side by side. Forks' lengths increase strictly on the way down, so there is at most one level more than an address
/// has bits, and the derived recursive drop is shallow.
#[cycle(branch)]
#[derive(Drop)]
pub(super) enum Branch<F: Family, V> {
    Empty,
    Leaf(Flat<F, V>),
    Fork(Box<Fork<F, V>>),
}

/// A prefix with its routes, if it has any, and the longer prefixes within it by their next bit.
#[cycle(branch)]
#[derive(Drop)]
pub(super) struct Fork<F: Family, V> {
    pub(super) prefix: Prefix<F>,
    pub(super) low: Branch<F, V>,
    pub(super) high: Branch<F, V>,
    pub(super) here: Flat<F, V>,
}

impl<F: Family, V: Drop> Branch<F, V> {
    /// The branch, if it isn't empty.
    pub(super) fn nonempty(&self) -> Option<&Branch<F, V>>
        ensures branch { IfSome result (λ b. b.now ≡ self.now) }
        ensures empty { IfNone result (self.now ≡ Empty) }
    {
        match self {
            Branch::Empty => None,
            branch => Some(branch),
        }
    }

    /// Whether there is neither a leaf nor a fork.
    pub(super) fn is_empty(&self) -> bool
        ensures { result ≡ is_empty self.now }
    {
        match self {
            Branch::Empty => true,
            _ => false,
        }
    }

    /// Returns a branch of these routes, with no fork.
    fn of(held: Flat<F, V>) -> Branch<F, V>
        ensures { result ≡ branch_of held }
    {
        if held.is_empty() {
            Branch::Empty
        } else {
            Branch::Leaf(held)
        }
    }

    /// Replaces the branch.
    pub(super) fn set(&mut self, branch: Branch<F, V>)
        ensures { self.new ≡ branch }
    {
        *self = branch;
    }
}

impl<F: Family, V: Drop> Fork<F, V> {
    /// Returns a fork without branches.
    pub(super) fn new(
        alloc: Global,
        prefix: Prefix<F>,
        here: Flat<F, V>,
    ) -> Result<Box<Fork<F, V>>, Memory>
        ensures { IfOk result (λ fork. fork.value
            ≡ record { prefix = prefix; low = Empty; high = Empty; here = here }) }
    {
        let fork = Fork {
            prefix,
            low: Branch::Empty,
            high: Branch::Empty,
            here,
        };
        Ok(Box::new(alloc, fork)?)
    }

    /// Returns the fork of a list's routes, if they have several prefixes. Its memory is allocated before
    /// the list is split, with any prefix in it, so an `Err` changes nothing.
    #[inline(never)]
    pub(super) fn of(
        alloc: Global,
        any: &Prefix<F>,
        held: &mut Flat<F, V>,
    ) -> Result<Option<Box<Fork<F, V>>>, Memory>
        ensures fork { IfOk result (λ o. IfSome o (λ fork. IsForkOf held.old fork.value)) }
        ensures whole { IfOk result (λ o. IfNone o (held.new ≡ held.old)) }
        ensures err { OnErr result (held.new ≡ held.old) }
    {
        let mut fork = Fork::new(alloc, *any, Flat::new(alloc))?;
        let Some(parts) = held.split(alloc)? else {
            return Ok(None);
        };
        fork.fill(parts);
        Ok(Some(fork))
    }

    /// Sets the fork to these parts of a list, without further forks.
    fn fill(&mut self, parts: Parts<F, V>)
        ensures { self.new
            ≡ record { prefix = parts.at; low = branch_of parts.low; high = branch_of parts.high; here = parts.here } }
    {
        *self = Fork {
            prefix: parts.at,
            low: Branch::of(parts.low),
            high: Branch::of(parts.high),
            here: parts.here,
        };
    }

    /// Returns the branch of one half, if it isn't empty. Each half is tested separately, so
    /// the way down is a jump, which processors predict, and waits for no node before it.
    pub(super) fn branch(&self, is_high: bool) -> Option<&Branch<F, V>>
        ensures branch { IfSome result (λ b. b.now ≡ (if is_high then self.now.high else self.now.low)) }
        ensures empty { IfNone result ((if is_high then self.now.high else self.now.low) ≡ Empty) }
    {
        if is_high {
            self.high.nonempty()
        } else {
            self.low.nonempty()
        }
    }

    /// Replaces the branch of one half.
    pub(super) fn set_child(&mut self, is_high: bool, branch: Branch<F, V>)
        ensures { self.new ≡ (if is_high then record self.old { high = branch } else record self.old { low = branch }) }
    {
        if is_high {
            self.high.set(branch);
        } else {
            self.low.set(branch);
        }
    }
}
