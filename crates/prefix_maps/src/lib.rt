//! Two finite maps from route keys to values, with longest-prefix match: `Flat` is a sorted list, for few keys, and
//! `Radix` a path-compressed trie, for a counted longest-prefix match (RFC 1812, 5.2.4.3).
//!
//! - A leaf of the trie is a sorted list of the routes of several prefixes, and becomes a fork once it has more than
//!   32: so a look-up in a million random prefixes visits 15 forks and one list, instead of 21 nodes, each a cache
//!   miss. Leaves aren't merged. `insert` puts a route into its leaf first; if an allocation for the fork then fails,
//!   it takes the route out again.
//! - `get`, `longest` and `longest_steps` descend in a loop, and compare no bits that a branch's prefixes share, since
//!   they end at a prefix that is compared in full. A list of at most 32 keys is searched from its front: its cache
//!   lines are contiguous, and these reads don't wait for one another.
//! - `longest_steps` counts the forks on the way and each prefix of a leaf that is compared with the address. `longest`
//!   counts nothing.
//! - `insert` and `remove` of a branch pass the value through a slot (`&mut Option<V>`): a local of the value's type
//!   would cost its size at each level of the recursion.
//!
//! It is a crate of its own outside the chain of crates: only tests name these maps, and `chunked_map` the laws of what
//! all maps have in common.
#![tactic(auto)]

mod flat;
mod radix;

pub use flat::Flat;
pub use radix::Radix;
