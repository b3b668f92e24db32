//! Units of peers, by their numbers.

use bgp_prefix::{Prefix, RouteKey};
use bgp_update::{AttributeSet, Rules};
use peer_units::{Payload, PayloadBytes, PeerAddr, PeerKey, Place, Unit};

/// The peer of a number: 65000 192.0.2.1 and the next addresses.
pub fn peer_of(number: u32) -> PeerKey {
    PeerKey {
        asn: 65_000,
        addr: PeerAddr::V4(0xC000_0201u32.wrapping_add(number)),
    }
}

/// The unit of this payload, of the peer of a number, in second 1.
pub fn unit_of(number: u32, payload: Payload) -> Unit {
    Unit {
        place: Place {
            file: 0,
            offset: 56,
            entry: None,
        },
        time: 1_000_000,
        peer: peer_of(number),
        payload,
    }
}

/// The RIB entry of a prefix, by its address and its length, and of a path identifier. A length over 32 counts as 32.
pub fn entry_of(addr: u32, len: u8, id: u32, attributes: Vec<u8>) -> Payload {
    let Some(prefix) = Prefix::new(addr, len.min(32)) else {
        unreachable!()
    };
    Payload::Entry {
        key: RouteKey { prefix, id },
        attrs: PayloadBytes::from_vec(attributes),
        rules: Rules::new(AttributeSet::none()),
    }
}
