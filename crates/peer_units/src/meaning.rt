//! The events that payloads mean.

use crate::state_rule::StateRule;
use bgp_prefix::{Prefix, RouteKey};
use bgp_update::{Route, Update};
use mrt_frame::Fault;

/// What a payload means.
#[derive(Drop)]
pub enum Event<P = Prefix> {
    /// A state change: the old and the new state, and the rule by which it is taken.
    State(u16, u16, StateRule),
    /// An UPDATE.
    Change(Update<P>),
    /// A RIB entry, which announces its key.
    Rib(RouteKey<P>, Route),
    /// A message of another type, which is not read.
    Other,
    /// A RIB dump begins that clears the peer's table.
    Clear,
    /// A damaged message or entry: its fault, and the update that is done about it (RFC 7606).
    Handled(Fault, Update<P>),
}
