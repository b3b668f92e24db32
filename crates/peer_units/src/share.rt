//! Shares of the peers.

ghost use Rattle.std.specs.Prelude.{◌≡◌, ◌%◌, ◌^◌};
ghost use Rattle.peer_units.specs.Choices.{PeerShare, IsShare, addr_number, has_peer, peer_hash, share_from};

use crate::unit::{PeerAddr, PeerKey};
use std::marker::Model;

/// One of so many shares of the peers. A peer is in share
/// `((asn + address) * 2654435761 mod 2^32) / 65536 mod count`, where the address is a number of 32 or 128 bits.
/// The formula never changes, so that all shares together have all peers whatever version read each of them.
#[derive(Clone, Copy, Debug, PartialEq, Eq)]
pub struct Share {
    number: u32,
    count: u32,
}

impl Model for Share {
    ghost Value = { PeerShare };

    ghost view = { λ s. record { number = s.number; count = s.count } };

    ghost invariant = { λ s. IsShare (record { number = s.number; count = s.count }) };

    ghost inverse = { λ s. record { number = s.number; count = s.count } };
}

/// How many shares there can be.
const MOST_SHARES: u32 = 1 << 16;

/// The last 32 bits of an address.
fn low_bits(addr: &PeerAddr) -> u32
    ensures { result ≡ addr_number addr.now % 2 ^ 32 }
{
    match addr {
        PeerAddr::V4(addr) => *addr,
        PeerAddr::V6(addr) => (*addr % (1 << 32)) as u32,
    }
}

/// The hash of a peer, of 16 bits. The factor is a prime near 2^32 divided by the golden ratio: peers with neighbouring
/// numbers get hashes that are far apart.
fn peer_hash(peer: &PeerKey) -> u32
    ensures { result ≡ peer_hash peer.now }
{
    let sum = peer.asn.wrapping_add(low_bits(&peer.addr));
    sum.wrapping_mul(2_654_435_761) >> 16
}

impl Share {
    /// Returns the share of this number, counted from 0, of so many: at least 1 and at most 65,536. None if there is no
    /// such share.
    pub fn new(number: u32, count: u32) -> Option<Share>
        ensures { result ≡ share_from number count }
    {
        if number < count && count <= MOST_SHARES {
            Some(Share { number, count })
        } else {
            None
        }
    }

    /// Whether the peer is in this share.
    pub(crate) fn takes(&self, peer: &PeerKey) -> bool
        ensures { result ≡ has_peer self.now peer.now }
    {
        peer_hash(peer) % self.count == self.number
    }
}
