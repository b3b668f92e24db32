use peer_units::{PeerKey, Place};

/// All of a unit but its payload: whose it is, with the number of that peer, where its record is, and its time in
/// microseconds since 1970 UTC.
#[derive(Clone, Copy, Drop)]
pub struct UnitHead {
    pub number: usize,
    pub peer: PeerKey,
    pub place: Place,
    pub time: u64,
}
