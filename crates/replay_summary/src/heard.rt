//! What came of the peers of a run, for notes.

use crate::peer_remarks::PeerRemarks;
use adj_rib::{Churn, RouteId};
use bgp_prefix::PrefixMap;
use bgp_update::Unicast;
use peer_tables::{Seated, Watched};
use peer_units::{PeerChoice, PeerKey};

/// What came of a peer.
#[derive(Clone, Copy, Debug, PartialEq, Eq)]
pub struct Heard {
    pub peer: PeerKey,
    /// What its units did, counted, whatever routes are chosen.
    pub churn: Churn,
    /// Whether its session is established, as far as state changes tell.
    pub is_established: bool,
}

/// A peer of which units came.
pub trait HeardPeer {
    /// What came of it.
    fn heard(&self) -> Heard;
}

impl<F: Unicast, M: PrefixMap<RouteId, Addr = F>> HeardPeer for Seated<M> {
    fn heard(&self) -> Heard {
        Heard {
            peer: self.key,
            churn: self.session.churn(),
            is_established: self.session.is_established(),
        }
    }
}

impl<F: Unicast, M: PrefixMap<RouteId, Addr = F>> HeardPeer for Watched<M> {
    fn heard(&self) -> Heard {
        Heard {
            peer: *self.key.key(),
            churn: self.watch.whole_churn(),
            is_established: self.watch.is_established(),
        }
    }
}

/// Whether one of these peers is chosen by this.
fn is_heard<P: HeardPeer>(peers: &[P], choice: &PeerChoice) -> bool {
    for peer in peers {
        if choice.takes(&peer.heard().peer) {
            return true;
        }
    }
    false
}

/// Returns what is remarkable about these peers, and about those that are chosen.
pub fn remarks_on<P: HeardPeer>(peers: &[P], chosen: &[PeerChoice]) -> PeerRemarks {
    let mut remarks = PeerRemarks::new();
    for peer in peers {
        remarks.see(&peer.heard());
    }
    for choice in chosen {
        if !is_heard(peers, choice) {
            remarks.miss(*choice);
        }
    }
    remarks
}
