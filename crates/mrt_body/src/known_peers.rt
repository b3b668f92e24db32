//! Whose state a state change is.

ghost use Rattle.std.specs.Prelude.{◌≡◌, ◌∷◌, [], IfOk};
ghost use Rattle.mrt_body.specs.KnownPeers as peers_spec;
ghost use Rattle.mrt_body.specs.KnownPeers.{known_where};

use crate::bgp4mp::SessionEnds;
use bgp_prefix::Memory;
use peer_units::{PeerAddr, PeerKey, StatePeers};
use std::alloc::Global;
use std::collections::BTreeSet;

/// How many known peers a state change can be of at most.
const MOST_TOLD: usize = 65_535;

/// An AS number in place of one that doesn't fit in two bytes (RFC 6793, 9).
const AS_TRANS: u32 = 23_456;

/// Which of the known peers are meant.
#[derive(Clone, Copy)]
pub(crate) enum Meant {
    /// Those of an address.
    Address(PeerAddr),
    /// Those of an AS number.
    As(u32),
}

impl Meant {
    /// Whether a peer is one of them.
    fn takes(&self, peer: &PeerKey) -> bool
        ensures { result ≡ peers_spec.is_meant self.now peer.now }
    {
        match self {
            Meant::Address(addr) => peer.addr == *addr,
            Meant::As(asn) => peer.asn == *asn,
        }
    }
}

/// Whether an address is 0.0.0.0 or ::.
fn is_zero(addr: PeerAddr) -> bool
    ensures { result ≡ peers_spec.is_zero addr }
{
    match addr {
        PeerAddr::V4(addr) => addr == 0,
        PeerAddr::V6(addr) => addr == 0,
    }
}

/// Returns the known peers that are meant: of more than 65,535 the first ones.
fn known_peers(
    alloc: Global,
    known: &BTreeSet<PeerKey>,
    meant: Meant,
) -> Result<Vec<PeerKey>, Memory>
    ensures { IfOk result (λ told. told.items ≡ known_where (peers_spec.is_meant meant) known.now.keys) }
{
    let mut told = Vec::new(alloc);
    for peer in known.iter() {
        if MOST_TOLD <= told.len() {
            break;
        }
        if meant.takes(peer) {
            told.push(*peer)?;
        }
    }
    Ok(told)
}

/// Returns a list of one peer.
fn one_peer(alloc: Global, peer: PeerKey) -> Result<Vec<PeerKey>, Memory>
    ensures { IfOk result (λ told. told.items ≡ peer ∷ []) }
{
    let mut told = Vec::new(alloc);
    told.push(peer)?;
    Ok(told)
}

/// Returns the peers whose state a state change of this session is.
pub(crate) fn told_peers(
    alloc: Global,
    rule: StatePeers,
    known: &BTreeSet<PeerKey>,
    ends: &SessionEnds,
) -> Result<Vec<PeerKey>, Memory>
    ensures told { IfOk result (λ told. told.items ≡ peers_spec.told_peers rule known.now.keys ends.now) }
{
    let (peer, local) = (ends.peer, ends.local);
    let is_unnamed = local.asn == 0 && is_zero(local.addr);
    match rule {
        StatePeers::Local if !is_unnamed => {
            if local.asn == 0 || local.asn == AS_TRANS {
                known_peers(alloc, known, Meant::Address(local.addr))
            } else {
                one_peer(alloc, local)
            }
        }
        StatePeers::ByAs if !is_unnamed && is_zero(peer.addr) => {
            known_peers(alloc, known, Meant::As(peer.asn))
        }
        _ => one_peer(alloc, peer),
    }
}
