//! `ChunkedMap`: a finite map from route keys to values, as a sorted list in leaves, for tables with many routes.
//!
//! A leaf has up to 128 routes, a branch up to 128 leaves, and a map is a list of branches: three binary searches find
//! a route, and each tries the end first, since the keys of a RIB dump come in order. The program keeps its tables in
//! maps: a look-up reads three short lists instead of a fork for each bit that tells prefixes apart, and a route takes
//! no forks.
//!
//! - A map has a bound that no key comes after. A key beyond it is appended to the last leaf after one comparison,
//!   if there is room: some 75 instructions instead of 300.
//! - A leaf has its prefixes, identifiers and values in three arrays. Identifiers are written out only once one isn't
//!   0.
//! - An insertion shifts at most a leaf and the lists of first keys. A leaf or branch with more than 128 is split after
//!   the route is in; if an allocation fails for that, it stays longer, and nothing is lost.
//! - The room of a list is doubled up to 16 items and then grows by 16, so that a table of one route is small: a dump
//!   may name a million peers. A leaf behind a full last one has room for 128 routes at once, since keys come in order
//!   then. It would grow eleven times otherwise.
//!
//! It is a crate of its own outside the chain of crates. Only the program and tests name it, and everything in between
//! is generic over `PrefixMap`: so nothing waits for its proof.
#![tactic(auto)]

mod branch;
mod chunked_map;
mod leaf;
mod level;
mod node;

pub use chunked_map::ChunkedMap;
