//! The RIB dumps that replace what came before them.

ghost use Rattle.std.specs.Prelude.{◌≡◌, [], IfOk, OnOk, false, true};
ghost use Rattle.std.specs.List.{fold};
ghost use Rattle.mrt_body.specs.KnownPeers.{known_with};
ghost use Rattle.mrt_body.specs.RibDumps.{hear, heard_peers, may_begin, no_dumps};

use bgp_prefix::Memory;
use bgp_update::Unicast;
use peer_units::{PeerKey, RibRule, Selection, StatePeers};
use std::alloc::Global;
use std::collections::{BTreeSet, VecDeque};
use std::marker::Model;

/// Which peers' tables the next RIB dump clears, and which peers are known.
#[derive(Drop)]
pub(crate) struct RibDumps {
    /// The peers of the units since the last dump that cleared the tables. Of other peers there is nothing to clear.
    heard: BTreeSet<PeerKey>,
    /// Whether a record of the index table in force began a dump.
    is_begun: bool,
    /// The peers that an index table has named or that a unit was of, where state changes may be theirs.
    known: BTreeSet<PeerKey>,
    alloc: Global,
}

impl Model for RibDumps {
    ghost use Rattle.mrt_body.specs.RibDumps.{DumpsState};

    ghost Value = { DumpsState };

    ghost view = { λ d. record { heard = d.heard.keys; begun = d.is_begun; known = d.known.keys } };
}

/// Inserts a peer.
fn insert(set: &mut BTreeSet<PeerKey>, peer: PeerKey) -> Result<(), Memory>
    ensures { OnOk result (set.new.keys ≡ hear set.old.keys peer) }
{
    set.insert(peer)?;
    Ok(())
}

/// Inserts these peers.
fn insert_all(set: &mut BTreeSet<PeerKey>, peers: &[PeerKey]) -> Result<(), Memory>
    ensures { OnOk result (set.new.keys ≡ fold hear set.old.keys peers.now) }
{
    for peer in peers {
        insert(set, *peer)?;
    }
    Ok(())
}

/// Returns these peers as a list, in their order.
fn listed(alloc: Global, peers: BTreeSet<PeerKey>) -> Result<VecDeque<PeerKey>, Memory>
    ensures { IfOk result (λ list. list.items ≡ peers.keys) }
{
    let mut left = peers;
    let mut list = VecDeque::new(alloc);
    while let Some(peer) = left.pop_first() {
        list.push_back(peer)?;
    }
    Ok(list)
}

impl RibDumps {
    /// Returns those of no unit. Allocates nothing.
    pub(crate) fn new(alloc: Global) -> RibDumps
        ensures { result ≡ no_dumps }
    {
        RibDumps {
            heard: BTreeSet::new(alloc),
            is_begun: false,
            known: BTreeSet::new(alloc),
            alloc,
        }
    }

    /// Takes note of an index table, which begins no dump.
    pub(crate) fn see_index(&mut self)
        ensures { self.new ≡ record self.old { begun = false } }
    {
        self.is_begun = false;
    }

    /// Whether a RIB record of this time begins a dump that clears the tables, if it isn't refused.
    #[inline(always)]
    pub(crate) fn may_begin<F: Unicast>(&self, selection: &Selection<F>, time: u64) -> bool
        ensures { result ≡ may_begin selection.now self.now.begun time }
    {
        match selection.ribs() {
            RibRule::Add => false,
            RibRule::Replace => !self.is_begun && !selection.is_past(time),
        }
    }

    /// Begins a dump, and returns the peers whose tables it clears.
    #[inline(never)]
    pub(crate) fn begin(&mut self) -> Result<VecDeque<PeerKey>, Memory>
        ensures begun { OnOk result (self.new ≡ record self.old { heard = []; begun = true }) }
        ensures cleared { IfOk result (λ peers. peers.items ≡ self.old.heard) }
    {
        self.is_begun = true;
        let heard = std::mem::replace(&mut self.heard, BTreeSet::new(self.alloc));
        listed(self.alloc, heard)
    }

    /// Takes note of a unit of this peer.
    #[inline(never)]
    pub(crate) fn hear(&mut self, peer: PeerKey) -> Result<(), Memory>
        ensures { OnOk result (self.new ≡ record self.old { heard = hear self.old.heard peer }) }
    {
        insert(&mut self.heard, peer)
    }

    /// Takes note of units of these peers.
    #[inline(never)]
    pub(crate) fn hear_all(&mut self, rule: RibRule, peers: &[PeerKey]) -> Result<(), Memory>
        ensures { OnOk result (self.new ≡ record self.old { heard = heard_peers rule self.old.heard peers.now }) }
    {
        match rule {
            RibRule::Add => Ok(()),
            RibRule::Replace => insert_all(&mut self.heard, peers),
        }
    }

    /// The known peers.
    pub(crate) fn known(&self) -> &BTreeSet<PeerKey>
        ensures { result.now.keys ≡ self.now.known }
    {
        &self.known
    }

    /// Takes note of peers that a record names, where state changes may be those of known peers.
    #[inline(never)]
    pub(crate) fn know(&mut self, rule: StatePeers, named: &[PeerKey]) -> Result<(), Memory>
        ensures { OnOk result (self.new ≡ record self.old { known = known_with rule self.old.known named.now }) }
    {
        match rule {
            StatePeers::Recorded => Ok(()),
            StatePeers::Local | StatePeers::ByAs => insert_all(&mut self.known, named),
        }
    }
}
