//! A peer with several owners.

ghost use Rattle.std.specs.Prelude.{◌≡◌, IfOk};

use bgp_prefix::Memory;
use peer_units::PeerKey;
use std::alloc::Global;
use std::marker::Model;
use std::sync::Arc;

/// A peer that is stored once for all the rows that name it, and that contracts see as the peer.
#[derive(Drop)]
pub struct SharedPeer {
    key: Arc<PeerKey>,
}

impl Model for SharedPeer {
    ghost use Rattle.std.specs.Arc.{arc_value};
    ghost use Rattle.peer_units.specs.declared.unit.PeerKey.{PeerKey};

    ghost Value = { PeerKey };

    ghost view = { λ s. arc_value s.key };
}

impl SharedPeer {
    /// Returns the peer with one owner.
    pub(crate) fn new(alloc: Global, key: PeerKey) -> Result<SharedPeer, Memory>
        ensures { IfOk result (λ shared. shared ≡ key) }
    {
        let key = Arc::new(alloc, key)?;
        Ok(SharedPeer { key })
    }

    /// Returns one more owner of the same peer, which allocates nothing; of an equal one if no further owner can be
    /// counted.
    pub(crate) fn share(&self, alloc: Global) -> Result<SharedPeer, Memory>
        ensures { IfOk result (λ shared. shared ≡ self.now) }
    {
        match Arc::try_clone(&self.key) {
            Ok(key) => Ok(SharedPeer { key }),
            Err(_) => SharedPeer::new(alloc, *self.key()),
        }
    }

    /// The peer itself.
    pub fn key(&self) -> &PeerKey
        ensures { result.now ≡ self.now }
    {
        &self.key
    }
}
