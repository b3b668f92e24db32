//! Units of peers, their payloads and places, and refusals.

use crate::payload_bytes::PayloadBytes;
use crate::state_rule::StateRule;
use bgp_prefix::{Prefix, RouteKey};
use bgp_update::{Rules, Width};
use mrt_frame::Fault;

/// The address of a peer.
#[derive(Clone, Copy, Debug, PartialEq, Eq, PartialOrd, Ord, Hash)]
pub enum PeerAddr {
    V4(u32),
    V6(u128),
}

/// A peer: its AS number as recorded and its address. AS 23456 is not resolved. Ordered by AS number, then by address,
/// IPv4 before IPv6.
#[derive(Clone, Copy, Debug, PartialEq, Eq, PartialOrd, Ord, Hash)]
pub struct PeerKey {
    pub asn: u32,
    pub addr: PeerAddr,
}

/// The place of a unit or a fault: the number of the file from 0, the offset of the record in it in
/// bytes, and for an entry of a RIB record its number from 1. Compared in this order.
#[derive(Clone, Copy, Debug, PartialEq, Eq, PartialOrd, Ord)]
pub struct Place {
    pub file: usize,
    pub offset: u64,
    pub entry: Option<u16>,
}

/// A fault, and its place.
#[derive(Clone, Copy, Debug, PartialEq, Eq)]
pub struct Damage {
    pub place: Place,
    pub fault: Fault,
}

/// What a unit says, as it appears in the record: its bytes are not yet interpreted. They are its own, or borrowed, or
/// only their place is told, by the type of `B`. A message and an entry have the rules by which they are read.
#[derive(Debug, Drop)]
pub enum Payload<B = PayloadBytes, P = Prefix, K = Rules> {
    /// A state change (RFC 6396, 4.4.1): the old and the new state, any numbers, and the rule by which it is taken,
    /// which is that of the selection.
    State {
        from: u16,
        to: u16,
        rule: StateRule,
    },
    /// A BGP message (RFC 6396, 4.4.2 and 4.4.3; with identifiers RFC 8050, 3).
    Message {
        bytes: B,
        width: Width,
        add_path: bool,
        rules: K,
    },
    /// An entry of a RIB record (RFC 6396, 4.3.4; with an identifier RFC 8050, 4.1).
    Entry {
        rules: K,
        key: RouteKey<P>,
        attrs: B,
    },
    /// Nothing that the peer said: a RIB dump begins that replaces what came before it, and clears the peer's table.
    Clear,
}

/// A message, a state change or a RIB entry of one peer, or that a dump clears the peer's table. Its time is in
/// microseconds since 1970 UTC.
#[derive(Debug, Drop)]
pub struct Unit<B = PayloadBytes, P = Prefix, K = Rules> {
    pub place: Place,
    pub time: u64,
    pub peer: PeerKey,
    pub payload: Payload<B, P, K>,
}

/// What comes next in the files: a unit, or a record that yields none.
#[derive(Debug, Drop)]
pub enum Found<P = Prefix, K = Rules> {
    Unit(Unit<PayloadBytes, P, K>),
    Refused(Damage),
}

/// A payload of a family.
pub type PayloadOf<F> = Payload<PayloadBytes, Prefix<F>, Rules<F>>;

/// A unit of a family.
pub type UnitOf<F> = Unit<PayloadBytes, Prefix<F>, Rules<F>>;

/// What comes next in files that are read for a family.
pub type FoundOf<F> = Found<Prefix<F>, Rules<F>>;
