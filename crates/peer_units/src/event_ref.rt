//! What payloads mean, with borrowed keys and routes.

use crate::state_rule::StateRule;
use bgp_prefix::{Prefix, RouteKey};
use bgp_update::{HashedRoute, Unicast, UpdateRef};
use mrt_frame::Fault;

/// What a payload means, as `Event` has it, or its first fault. A fault alone means that the unit is damaged and
/// changes no route.
#[derive(Drop)]
pub enum EventRef<'a, P = Prefix> {
    /// A state change: the old and the new state, and the rule by which it is taken.
    State(u16, u16, StateRule),
    /// An UPDATE.
    Change(UpdateRef<'a, P>),
    /// A RIB entry, which announces its key.
    Rib(RouteKey<P>, HashedRoute<'a>),
    /// A message of another type, which is not read.
    Other,
    /// A RIB dump begins that clears the peer's table.
    Clear,
    /// A damaged message or entry: its fault, and the update that is done about it (RFC 7606).
    Handled(Fault, UpdateRef<'a, P>),
    /// The payload is damaged.
    Damaged(Fault),
}

impl<F: Unicast> EventRef<'_, Prefix<F>> {
    ghost use Rattle.std.specs.Prelude.{◌≡◌};
    ghost use Rattle.peer_units.specs.DecodedEvents.{event_of, is_recorded_event};

    /// Whether it is what a record has of the peer, and not that a RIB dump clears its table.
    #[inline(always)]
    pub fn is_recorded(&self) -> bool
        ensures { result ≡ is_recorded_event (event_of self.now) }
    {
        match self {
            EventRef::Clear => false,
            _ => true,
        }
    }
}
