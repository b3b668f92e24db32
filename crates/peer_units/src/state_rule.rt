//! Which state changes are breaks.

ghost use Rattle.std.specs.Prelude.{◌≡◌};
ghost use Rattle.peer_units.specs.States.{breaks, established_by, stays_up};

/// The state Established (RFC 4271, 8.2.2).
const ESTABLISHED_STATE: u16 = 6;

/// Which state changes are breaks, which end a peer's routes, and whether the peer is up after one. What is recorded
/// differs between daemons and collectors.
#[derive(Clone, Copy, Debug, PartialEq, Eq)]
pub enum StateRule {
    /// A state change is a break unless both its states are Established, and the peer is up exactly where the new one
    /// is. For records of one connection at a time.
    Recorded,
    /// A state change is a break where one of its states is Established and the other isn't, and the peer is up
    /// whatever its states are. For records of several connections with one peer, as FRR writes them: it records the
    /// end of the connection that lost a collision (RFC 4271, 6.8) after the Established of the one that stays.
    Established,
}

impl StateRule {
    /// Whether a change from one state to another is a break.
    pub fn breaks(self, from: u16, to: u16) -> bool
        ensures { result ≡ breaks self from to }
    {
        match self {
            StateRule::Recorded => from != ESTABLISHED_STATE || to != ESTABLISHED_STATE,
            StateRule::Established => (from == ESTABLISHED_STATE) != (to == ESTABLISHED_STATE),
        }
    }

    /// Whether the peer is up after a change to this state, so that its units are taken.
    pub fn stays_up(self, to: u16) -> bool
        ensures { result ≡ stays_up self to }
    {
        match self {
            StateRule::Recorded => to == ESTABLISHED_STATE,
            StateRule::Established => true,
        }
    }

    /// Whether the session is established after a change from one state to another, if the change tells.
    pub fn established_by(self, from: u16, to: u16) -> Option<bool>
        ensures { result ≡ established_by self from to }
    {
        match self {
            StateRule::Established if !self.breaks(from, to) => None,
            _ => Some(to == ESTABLISHED_STATE),
        }
    }
}
