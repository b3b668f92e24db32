//! The keys of routes.

use crate::prefix::Prefix;

/// The key of a route: a prefix along with the path identifier (RFC 7911, 3), which is 0 if there is
/// none. Ordered by prefix, then by identifier.
#[derive(Clone, Copy, Debug, PartialEq, Eq, PartialOrd, Ord)]
pub struct RouteKey<P = Prefix> {
    /// The prefix.
    pub prefix: P,
    /// The path identifier.
    pub id: u32,
}
