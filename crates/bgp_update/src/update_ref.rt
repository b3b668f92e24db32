//! UPDATE messages whose keys and routes are borrowed.

ghost use Rattle.std.specs.Prelude.{◌≡◌, [], None};
ghost use Rattle.std.specs.Option.{ForSome};
ghost use Rattle.bgp_update.specs.Hops.{IsByHop};

use crate::decoded::HashedRoute;
use bgp_prefix::{Prefix, RouteKey};

/// An UPDATE whose keys and routes are borrowed.
#[derive(Drop)]
pub struct UpdateRef<'a, P = Prefix> {
    /// The keys of the field of withdrawn routes, and then those of MP_UNREACH_NLRI (RFC 4760, 4).
    pub withdrawn: &'a [RouteKey<P>],
    /// The keys of the NLRI field.
    pub announced: &'a [RouteKey<P>],
    /// The keys of MP_REACH_NLRI (RFC 4760, 3).
    pub reached: &'a [RouteKey<P>],
    /// The route of the keys that are announced.
    pub route: HashedRoute<'a>,
    /// The route of the keys of MP_REACH_NLRI, by its next hop, if that is there.
    pub reached_route: Option<HashedRoute<'a>>,
    ghost by_hop: { ForSome reached_route (λ reached. IsByHop route.route reached.route) },
    ghost none: { reached_route ≡ None → reached.now ≡ [] },
}
