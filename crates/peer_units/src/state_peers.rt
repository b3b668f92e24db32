//! Whose state a state change is.

/// Whose state a state change is. Daemons differ in what they write as its peer.
#[derive(Clone, Copy, Debug, PartialEq, Eq)]
pub enum StatePeers {
    /// That of the recorded peer.
    Recorded,
    /// That of the record's local AS and address: OpenBGPD puts itself in the peer's place. Where that AS number is 0 or
    /// 23456, of each known peer of that address.
    Local,
    /// That of the recorded peer; where its address is 0.0.0.0 or ::, of each known peer of its AS number. BIRD writes
    /// such state changes where the connection is gone.
    ByAs,
}
