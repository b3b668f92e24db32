//! The daemons that write dumps, and the rules that fit what each of them writes.

ghost use Rattle.std.specs.Prelude.{◌≡◌};
ghost use Rattle.command_line.specs.DumpRules.{rules_for, rules_of_none, rules_by};

use peer_units::{RibRule, StatePeers, StateRule};

/// A daemon that writes dumps.
#[derive(Clone, Copy, Debug, PartialEq, Eq)]
pub enum Daemon {
    Bird,
    Frr,
    Openbgpd,
    Gobgp,
}

/// The rules by which dumps are read that depend on who wrote them.
#[derive(Clone, Copy, Debug, PartialEq, Eq)]
pub struct DumpRules {
    /// By which rule state changes are taken.
    pub states: StateRule,
    /// Whose state a state change is.
    pub state_peers: StatePeers,
    /// What a RIB dump does to the routes before it.
    pub ribs: RibRule,
}

/// Those of these rules that options name.
#[derive(Clone, Copy, Debug, PartialEq, Eq)]
pub struct NamedRules {
    pub states: Option<StateRule>,
    pub state_peers: Option<StatePeers>,
    pub ribs: Option<RibRule>,
}

impl Daemon {
    /// Returns the daemon of a name, if there is one.
    pub(crate) fn named(name: &str) -> Option<Daemon> {
        match name {
            "bird" => Some(Daemon::Bird),
            "frr" => Some(Daemon::Frr),
            "openbgpd" => Some(Daemon::Openbgpd),
            "gobgp" => Some(Daemon::Gobgp),
            _ => None,
        }
    }

    /// Returns the rules that fit its dumps.
    fn rules(self) -> DumpRules
        ensures { result ≡ rules_for self }
    {
        let rules = DumpRules::of_none();
        match self {
            Daemon::Bird => DumpRules {
                states: StateRule::Established,
                state_peers: StatePeers::ByAs,
                ..rules
            },
            Daemon::Frr => DumpRules {
                states: StateRule::Established,
                ..rules
            },
            Daemon::Openbgpd => DumpRules {
                state_peers: StatePeers::Local,
                ..rules
            },
            Daemon::Gobgp => DumpRules {
                ribs: RibRule::Replace,
                ..rules
            },
        }
    }
}

impl DumpRules {
    /// Returns the rules where no daemon is named.
    fn of_none() -> DumpRules
        ensures { result ≡ rules_of_none }
    {
        DumpRules {
            states: StateRule::Recorded,
            state_peers: StatePeers::Recorded,
            ribs: RibRule::Add,
        }
    }

    /// Returns the rules that options name; of what they don't name, those of the daemon, if one is named.
    pub fn by(daemon: Option<Daemon>, named: &NamedRules) -> DumpRules
        ensures { result ≡ rules_by daemon named.now }
    {
        let rules = match daemon {
            Some(daemon) => daemon.rules(),
            None => DumpRules::of_none(),
        };
        DumpRules {
            states: named.states.unwrap_or(rules.states),
            state_peers: named.state_peers.unwrap_or(rules.state_peers),
            ribs: named.ribs.unwrap_or(rules.ribs),
        }
    }
}
