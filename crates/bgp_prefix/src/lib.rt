//! Prefixes, the keys of routes, and what a finite map from keys with longest-prefix match is, for IPv4 and IPv6.
//!
//! A family of addresses is the type of its addresses (`Family`, on `u32` and `Ipv6`). Contracts see an address as the
//! first bits of 128, so order, coverage and matching are defined once, for all families.
//!
//! A `Prefix` (RFC 4271, 4.3) has its host bits cleared when it is made, so all ways to write a prefix are one value. A
//! `RouteKey` is a prefix with a path identifier (RFC 7911, 3), 0 where there is none.
//!
//! `PrefixMap` is a trait whose one ghost member, `contents`, is its meaning: a finite map from keys. Everything above
//! is generic over it and proved once. The maps are in crates beside the chain of crates: `ChunkedMap`, that of the
//! program, in `chunked_map`, and two more in `prefix_maps`. A map takes the allocator at each call that allocates, and
//! an `insert` that fails leaves it as it was.
//!
//! - `Sequence<T>` is a `Vec<T>` that contracts see as a plain list. It is used wherever a type that contracts compare
//!   holds one; `from_vec`, `as_slice` and `into_vec` allocate nothing.
//! - `KeySet`, a sorted list of keys, answers which withdrawn keys of an UPDATE are announced in it too.
#![tactic(auto)]

mod family;
mod key;
mod key_set;
mod map;
mod memory;
mod prefix;
mod sequence;
mod v4;
mod v6;

pub use family::Family;
pub use key::RouteKey;
pub use key_set::KeySet;
pub use map::PrefixMap;
pub use memory::Memory;
pub use prefix::{Prefix, shared_len};
pub use sequence::Sequence;
pub use v6::Ipv6;
