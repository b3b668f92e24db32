//! What is remarkable about the peers of a run, for notes. No report depends on it, and nothing is proved of it.

use crate::heard::Heard;
use mrt_body::Few;
use peer_units::{PeerChoice, PeerKey};

/// What is remarkable about the peers of a run. Counts stop at their greatest values.
#[derive(Clone, Copy, Debug, PartialEq, Eq)]
pub struct PeerRemarks {
    /// How often a key was announced or withdrawn, and UPDATEs and RIB entries of peers that weren't up.
    pub keys: u64,
    /// Whole UPDATEs and RIB entries that changed nothing since their peers weren't up.
    pub idle_units: u64,
    /// These peers, by number, with how many such units are theirs.
    pub idle: Few<(PeerKey, u64)>,
    /// Peers whose session isn't established, and of which neither an UPDATE with keys nor a RIB entry came.
    pub silent: Few<PeerKey>,
    /// Peers that were chosen, and of which no unit came.
    pub unheard: Few<PeerChoice>,
}

impl PeerRemarks {
    /// Returns the remarks on no peer.
    pub(crate) fn new() -> PeerRemarks {
        PeerRemarks {
            keys: 0,
            idle_units: 0,
            idle: Few::new(),
            silent: Few::new(),
            unheard: Few::new(),
        }
    }

    /// Takes note of one more peer.
    pub(crate) fn see(&mut self, heard: &Heard) {
        let (keys, idle) = (heard.churn.keys(), heard.churn.idle);
        self.keys = self.keys.saturating_add(keys).saturating_add(idle);
        if idle > 0 {
            self.idle_units = self.idle_units.saturating_add(idle);
            self.idle.add((heard.peer, idle));
        }
        let is_silent = keys == 0 && idle == 0 && heard.churn.refused == 0;
        if is_silent && !heard.is_established {
            self.silent.add(heard.peer);
        }
    }

    /// Takes note of a peer that was chosen, and of which no unit came.
    pub(crate) fn miss(&mut self, chosen: PeerChoice) {
        self.unheard.add(chosen);
    }
}
