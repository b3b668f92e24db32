//! Which of the units of files are returned.

ghost use Rattle.std.specs.Prelude.{◌≡◌, IfOk, true};
ghost use Rattle.bgp_update.specs.Families.{by_errors, rules_of};
ghost use Rattle.bgp_update.specs.KeptAttributes.{no_attributes};
ghost use Rattle.peer_units.specs.Choices.{all_of, choices_of, is_in_share, is_open};
ghost use Rattle.peer_units.specs.Selections.{concerns, has_chosen, is_past, is_selected, speaks_of, takes_each_peer, takes_peer, takes_record};
ghost use Rattle.peer_units.specs.DecodedEvents.{event_of};

use crate::choice::{PeerChoice, is_chosen_peer};
use crate::chosen::Chosen;
use crate::chosen_prefixes::ChosenPrefixes;
use crate::decoded_events::DecodedEvents;
use crate::event_ref::EventRef;
use crate::rib_rule::RibRule;
use crate::share::Share;
use crate::state_peers::StatePeers;
use crate::state_rule::StateRule;
use crate::table_dump_rule::TableDumpRule;
use crate::unit::{Payload, PeerKey};
use crate::unit_ref::{PayloadRef, UnitRef};
use bgp_prefix::{Memory, Prefix, RouteKey};
use bgp_update::{AttributeSet, ErrorRule, Rules, Unicast};
use route_choice::ChosenRoutes;
use std::alloc::Global;
use std::marker::Model;

/// Which of the units that records give are returned: those that meet each criterion. Any other unit is
/// skipped, as if no record gave it. Refused records, index tables and the counts of records are the same
/// for each selection. It also says whose state changes are, by which rules these, further RIB dumps and TABLE_DUMP
/// records are taken, and messages and entries read; and which routes of the tables are chosen in the end.
#[derive(Debug, Drop)]
pub struct Selection<F: Unicast = u32> {
    /// The last second of which units are returned, in seconds since 1970 UTC. A unit is skipped if the
    /// whole second of its time is past it. With `None` no time is.
    until: Option<u64>,
    /// Which prefixes and routes are chosen. A unit that can't concern a chosen prefix is skipped: a RIB entry of another
    /// prefix, or an UPDATE that speaks of others only. Which routes are chosen makes no difference to which units are
    /// returned.
    chosen: Chosen<F>,
    /// Which peers are chosen: those that one of these takes, or all if there are none.
    peers: Vec<PeerChoice>,
    /// Of the chosen peers those in this share alone, or all with `None`.
    share: Option<Share>,
    /// The rule by which state changes are taken. It makes no difference to which units are returned.
    states: StateRule,
    /// Whose state a state change is.
    state_peers: StatePeers,
    /// What a further RIB dump does to the routes before it.
    ribs: RibRule,
    /// What is done with TABLE_DUMP records.
    table_dumps: TableDumpRule,
    /// By which rules messages and entries are read.
    rules: Rules<F>,
}

impl<F: Unicast> Model for Selection<F> {
    ghost use Rattle.peer_units.specs.Choices.{UnitSelection};

    ghost Value = { UnitSelection };

    ghost view = { λ s. record {
      until = s.until;
      prefixes = s.chosen.prefixes;
      peers = s.peers.items;
      share = s.share;
      states = s.states;
      state_peers = s.state_peers;
      ribs = s.ribs;
      table_dumps = s.table_dumps;
      rules = s.rules;
      routes = s.chosen.routes;
    } };
}

/// Whether one of the keys has a chosen prefix.
fn has_chosen<F: Unicast>(chosen: &ChosenPrefixes<F>, keys: &[RouteKey<Prefix<F>>]) -> bool
    ensures { result ≡ has_chosen chosen.now keys.now }
{
    for key in keys {
        if chosen.takes(&key.prefix) {
            return true;
        }
    }
    false
}

/// Whether a message speaks of a chosen prefix, or may: a damaged one does.
fn speaks_of<F: Unicast>(chosen: &ChosenPrefixes<F>, event: &EventRef<'_, Prefix<F>>) -> bool
    ensures { result ≡ speaks_of chosen.now (event_of event.now) }
{
    match event {
        EventRef::Change(update) => {
            has_chosen(chosen, update.withdrawn)
                || has_chosen(chosen, update.announced)
                || has_chosen(chosen, update.reached)
        }
        EventRef::Other => false,
        _ => true,
    }
}

/// Whether a payload can concern a chosen prefix. A message is decoded in place of what was decoded before.
fn concerns<F: Unicast>(
    alloc: Global,
    decoded: &mut DecodedEvents<F>,
    chosen: &ChosenPrefixes<F>,
    payload: &PayloadRef<'_, F>,
) -> Result<bool, Memory>
    ensures { IfOk result (λ concerned. concerned ≡ concerns chosen.now payload.now) }
{
    match payload {
        Payload::State { .. } | Payload::Clear => Ok(true),
        Payload::Entry { key, .. } => Ok(chosen.takes(&key.prefix)),
        Payload::Message { .. } => {
            if chosen.is_open() {
                return Ok(true);
            }
            decoded.clear();
            decoded.push(alloc, payload)?;
            Ok(speaks_of(chosen, &decoded.at(0)))
        }
    }
}

/// Whether a peer is in the share, or no share is named.
fn is_in_share(share: Option<Share>, peer: &PeerKey) -> bool
    ensures { result ≡ is_in_share share peer.now }
{
    match share {
        Some(share) => share.takes(peer),
        None => true,
    }
}

impl<F: Unicast> Selection<F> {
    /// Returns the selection of all units, with state changes taken as they are recorded and RIB dumps added.
    pub fn all(alloc: Global) -> Selection<F>
        ensures { result ≡ all_of (rules_of F.family no_attributes) }
    {
        Selection {
            until: None,
            chosen: Chosen::all(alloc),
            peers: Vec::new(alloc),
            share: None,
            states: StateRule::Recorded,
            state_peers: StatePeers::Recorded,
            ribs: RibRule::Add,
            table_dumps: TableDumpRule::Aside,
            rules: Rules::new(AttributeSet::none()),
        }
    }

    /// Returns the same selection up to the end of this second since 1970 UTC, or of all times with `None`.
    pub fn up_to(mut self, until: Option<u64>) -> Selection<F>
        ensures { result ≡ record self { until = until } }
    {
        self.until = until;
        self
    }

    /// Returns the same selection of what can concern the chosen prefixes.
    pub fn of_prefixes(mut self, prefixes: ChosenPrefixes<F>) -> Selection<F>
        ensures { result ≡ record self { prefixes = prefixes } }
    {
        self.chosen = self.chosen.of_prefixes(prefixes);
        self
    }

    /// Returns the same selection of the peers that these take, or of all peers if there are none.
    pub fn of_peers(mut self, peers: Vec<PeerChoice>) -> Selection<F>
        ensures { result ≡ record self { peers = peers.items } }
    {
        self.peers = peers;
        self
    }

    /// Returns the same selection of the peers in this share, or in any with `None`.
    pub fn of_share(mut self, share: Option<Share>) -> Selection<F>
        ensures { result ≡ record self { share = share } }
    {
        self.share = share;
        self
    }

    /// Returns the same selection, with state changes taken by this rule.
    pub fn by_states(mut self, states: StateRule) -> Selection<F>
        ensures { result ≡ record self { states = states } }
    {
        self.states = states;
        self
    }

    /// Returns the same selection, with state changes of the peers of this rule.
    pub fn by_state_peers(mut self, state_peers: StatePeers) -> Selection<F>
        ensures { result ≡ record self { state_peers = state_peers } }
    {
        self.state_peers = state_peers;
        self
    }

    /// Returns the same selection, with further RIB dumps taken by this rule.
    pub fn by_ribs(mut self, ribs: RibRule) -> Selection<F>
        ensures { result ≡ record self { ribs = ribs } }
    {
        self.ribs = ribs;
        self
    }

    /// Returns the same selection, with TABLE_DUMP records taken by this rule.
    pub fn by_table_dumps(mut self, table_dumps: TableDumpRule) -> Selection<F>
        ensures { result ≡ record self { table_dumps = table_dumps } }
    {
        self.table_dumps = table_dumps;
        self
    }

    /// Returns the same selection, with these further attributes of routes kept, and damage skipped.
    pub fn keeping(mut self, kept: AttributeSet) -> Selection<F>
        ensures { result ≡ record self { rules = rules_of F.family kept } }
    {
        self.rules = Rules::new(kept);
        self
    }

    /// Returns the same selection, where this is done about damage. `Internal` and `External` are one here: each
    /// message tells of which kind its peer is.
    pub fn by_errors(mut self, errors: ErrorRule) -> Selection<F>
        ensures { result ≡ record self { rules = by_errors errors self.rules } }
    {
        self.rules = self.rules.with_errors(errors);
        self
    }

    /// Returns the same selection, of whose tables these routes are chosen.
    pub fn of_routes(mut self, routes: ChosenRoutes) -> Selection<F>
        ensures { result ≡ record self { routes = routes } }
    {
        self.chosen = self.chosen.of_routes(routes);
        self
    }

    /// By which rules messages and entries are read.
    #[inline(always)]
    pub fn rules(&self) -> Rules<F>
        ensures rules { result ≡ self.now.rules }
        ensures family { self.now.rules.family ≡ F.family }
    {
        // A hint for the proof: what holds of rules is known once they are read.
        let _kept = self.rules.kept();
        self.rules
    }

    /// The rule by which further RIB dumps are taken.
    pub fn ribs(&self) -> RibRule
        ensures { result ≡ self.now.ribs }
    {
        self.ribs
    }

    /// What is done with TABLE_DUMP records.
    pub fn table_dumps(&self) -> TableDumpRule
        ensures { result ≡ self.now.table_dumps }
    {
        self.table_dumps
    }

    /// The rule by which state changes are taken.
    pub fn states(&self) -> StateRule
        ensures { result ≡ self.now.states }
    {
        self.states
    }

    /// Whose state a state change is.
    pub fn state_peers(&self) -> StatePeers
        ensures { result ≡ self.now.state_peers }
    {
        self.state_peers
    }

    /// The peers that are chosen: those that one of these takes, or all if there are none.
    pub fn peers(&self) -> &[PeerChoice]
        ensures { result.now ≡ self.now.peers }
    {
        self.peers.as_slice()
    }

    /// The prefixes that are chosen.
    pub fn prefixes(&self) -> &ChosenPrefixes<F>
        ensures { result.now ≡ self.now.prefixes }
    {
        self.chosen.prefixes()
    }

    /// What is chosen of the tables that the units leave, and of what they do to them.
    pub fn chosen(&self) -> &Chosen<F>
        ensures { result.now ≡ choices_of self.now }
    {
        &self.chosen
    }

    /// Whether no prefix is named, so that all are chosen.
    pub fn is_open(&self) -> bool
        ensures { result ≡ is_open self.now.prefixes }
    {
        self.prefixes().is_open()
    }

    /// Whether neither peers nor a share are named, so that each peer is taken.
    #[inline(always)]
    pub fn takes_each_peer(&self) -> bool
        ensures { result ≡ takes_each_peer self.now }
    {
        self.peers.is_empty() && self.share.is_none()
    }

    /// Whether the units of a peer are selected, as far as it decides.
    #[inline(always)]
    pub fn takes_peer(&self, peer: &PeerKey) -> bool
        ensures { result ≡ takes_peer self.now peer.now }
    {
        if self.takes_each_peer() {
            return true;
        }
        self.takes_named_peer(peer)
    }

    /// The same, where peers or a share are named.
    #[inline(never)]
    fn takes_named_peer(&self, peer: &PeerKey) -> bool
        ensures { result ≡ takes_peer self.now peer.now }
    {
        is_chosen_peer(&self.peers, peer) && is_in_share(self.share, peer)
    }

    /// Whether a unit is selected. A message is decoded in place of what was decoded before.
    pub fn selects(
        &self,
        alloc: Global,
        decoded: &mut DecodedEvents<F>,
        unit: &UnitRef<'_, F>,
    ) -> Result<bool, Memory>
        ensures { IfOk result (λ selected. selected ≡ is_selected self.now unit.now) }
    {
        if self.is_past(unit.time) || !self.takes_peer(&unit.peer) {
            return Ok(false);
        }
        concerns(alloc, decoded, self.prefixes(), &unit.payload)
    }

    /// Whether the entries of a RIB record of this time and prefix are selected, as far as these decide.
    pub fn takes_record(&self, time: u64, prefix: &Prefix<F>) -> bool
        ensures { result ≡ takes_record self.now time prefix.now }
    {
        if self.is_past(time) {
            return false;
        }
        self.prefixes().takes(prefix)
    }

    /// Whether all units of this time, in microseconds since 1970 UTC, are skipped.
    pub fn is_past(&self, time: u64) -> bool
        ensures { result ≡ is_past self.now.until time }
    {
        match self.until {
            Some(until) => time / 1_000_000 > until,
            None => false,
        }
    }
}
