//! What a selection names.

ghost use Rattle.std.specs.Prelude.{◌≡◌};
ghost use Rattle.peer_units.specs.Choices.{addr_eq, is_chosen_peer, names_peer, takes_prefix};

use crate::unit::{PeerAddr, PeerKey};
use bgp_prefix::{Family, Prefix};

/// How the prefix of a route may stand to one that is named.
#[derive(Clone, Copy, Debug, PartialEq, Eq)]
pub enum Reach {
    /// It is the same prefix.
    Exact,
    /// It is the same or is covered by it: itself and more specifics.
    Inside,
    /// It is the same or covers it: itself and less specifics.
    Around,
}

/// Prefixes that stand in one way to one that is named.
#[derive(Clone, Copy, Debug, PartialEq, Eq)]
pub struct PrefixChoice<P = Prefix> {
    pub prefix: P,
    pub reach: Reach,
}

impl<F: Family> PrefixChoice<Prefix<F>> {
    /// Whether this prefix is chosen.
    pub fn takes(&self, prefix: &Prefix<F>) -> bool
        ensures { result ≡ takes_prefix self.now prefix.now }
    {
        match self.reach {
            Reach::Exact => self.prefix.is_same(prefix),
            Reach::Inside => self.prefix.covers(prefix),
            Reach::Around => prefix.covers(&self.prefix),
        }
    }
}

/// The peer of an AS number and an address, or all peers of an AS number.
#[derive(Clone, Copy, Debug, PartialEq, Eq)]
pub struct PeerChoice {
    /// As recorded. AS 23456 is not resolved.
    pub asn: u32,
    /// With `None` any address is taken.
    pub addr: Option<PeerAddr>,
}

/// Whether two addresses are the same.
fn addr_eq(named: &PeerAddr, addr: &PeerAddr) -> bool
    ensures { result ≡ addr_eq named.now addr.now }
{
    match (named, addr) {
        (PeerAddr::V4(a), PeerAddr::V4(b)) => *a == *b,
        (PeerAddr::V6(a), PeerAddr::V6(b)) => *a == *b,
        (PeerAddr::V4(_), PeerAddr::V6(_)) => false,
        (PeerAddr::V6(_), PeerAddr::V4(_)) => false,
    }
}

impl PeerChoice {
    /// Whether this peer is chosen.
    pub fn takes(&self, peer: &PeerKey) -> bool
        ensures { result ≡ names_peer self.now peer.now }
    {
        if self.asn != peer.asn {
            return false;
        }
        match &self.addr {
            Some(named) => addr_eq(named, &peer.addr),
            None => true,
        }
    }
}

/// Whether one of the choices takes this peer, or there is none.
pub(crate) fn is_chosen_peer(choices: &[PeerChoice], peer: &PeerKey) -> bool
    ensures { result ≡ is_chosen_peer choices.now peer.now }
{
    if choices.is_empty() {
        return true;
    }
    for choice in choices {
        if choice.takes(peer) {
            return true;
        }
    }
    false
}
