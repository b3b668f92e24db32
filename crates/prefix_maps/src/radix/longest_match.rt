//! The longest match of an address in the trie, also with a count of the nodes looked at.

ghost use Rattle.std.specs.Prelude.{◌≡◌, ◌≤◌, ◌+◌, Some, IfSome};
ghost use Rattle.bgp_prefix.specs.Keys.{last_match, matching_prefixes};
ghost use Rattle.prefix_maps.specs.Tries.{routes, IsTrie};

use super::node::Branch;
use bgp_prefix::{Family, Prefix};

impl<F: Family, V: Drop> Branch<F, V> {
    /// Returns the longest prefix that contains the address. Usually a leaf has it, and then each fork above it
    /// only needs to be looked at for its bit.
    pub(super) fn longest(&self, addr: F) -> Option<Prefix<F>>
        requires { IsTrie self.now }
        ensures { result ≡ last_match (routes self.now) (F.bits addr) }
    {
        match self.longest_in_leaf(addr) {
            Some(prefix) => Some(prefix),
            None => self.longest_on_descent(addr),
        }
    }

    /// Returns the longest prefix that contains the address, if it is in a leaf.
    fn longest_in_leaf(&self, addr: F) -> Option<Prefix<F>>
        requires { IsTrie self.now }
        ensures { IfSome result (λ prefix. last_match (routes self.now) (F.bits addr) ≡ Some prefix) }
    {
        let mut at = self;
        loop {
            match at {
                Branch::Empty => return None,
                Branch::Leaf(leaf) => return leaf.last_match(addr),
                Branch::Fork(fork) => {
                    let Some(branch) = fork.branch(addr.bit_after(fork.prefix.len())) else {
                        return None;
                    };
                    at = branch;
                }
            }
        }
    }

    /// Returns the longest prefix that contains the address, whether a leaf or a fork has it.
    #[inline(never)]
    fn longest_on_descent(&self, addr: F) -> Option<Prefix<F>>
        requires { IsTrie self.now }
        ensures { result ≡ last_match (routes self.now) (F.bits addr) }
    {
        let mut at = self;
        let mut found = None;
        loop {
            match at {
                Branch::Empty => return found,
                Branch::Leaf(leaf) => return leaf.last_match(addr).or(found),
                Branch::Fork(fork) => {
                    if !fork.here.is_empty() {
                        if !fork.prefix.contains(addr) {
                            return found;
                        }
                        found = Some(fork.prefix);
                    }
                    let Some(branch) = fork.branch(addr.bit_after(fork.prefix.len())) else {
                        return found;
                    };
                    at = branch;
                }
            }
        }
    }

    /// Returns the longest prefix that contains the address, and how many nodes were looked at.
    pub(super) fn longest_steps(&self, addr: F) -> (Option<Prefix<F>>, u32)
        requires { IsTrie self.now }
        ensures prefix { result.0 ≡ last_match (routes self.now) (F.bits addr) }
        ensures enough { matching_prefixes (routes self.now) (F.bits addr) ≤ result.1 }
        ensures bound { result.1 ≤ F.WIDTH + 1 }
    {
        let mut at = self;
        let mut longest = None;
        let mut steps = 0;
        loop {
            match at {
                Branch::Empty => return (longest, steps),
                Branch::Leaf(leaf) => {
                    let (longer, more) = leaf.longest_steps(addr);
                    return (longer.or(longest), steps + more);
                }
                Branch::Fork(fork) => {
                    let prefix = fork.prefix;
                    let len = prefix.len();
                    steps += 1;
                    if !prefix.contains(addr) {
                        return (longest, steps);
                    }
                    if !fork.here.is_empty() {
                        longest = Some(prefix);
                    }
                    let Some(branch) = fork.branch(addr.bit_after(len)) else {
                        return (longest, steps);
                    };
                    at = branch;
                }
            }
        }
    }
}
