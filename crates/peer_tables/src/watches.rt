//! The watches on all peers.

ghost use Rattle.std.specs.Prelude.{◌≡◌, [], ◌∷◌, ◌++◌, IfOk, List, OnErr, OnOk, Some, false, map, slice_get};
ghost use Rattle.std.specs.List.{list_any};
ghost use Rattle.peer_units.specs.DecodedEvents.{event_of};
ghost use Rattle.peer_units.specs.Events.{event_in};
ghost use Rattle.peer_units.specs.Choices.{Choices as AnyChoices};
ghost use Rattle.peer_tables.specs.Peers.{peer_eq};
ghost use Rattle.peer_tables.specs.Histories.{watches_of};
ghost use Rattle.peer_tables.specs.Watching.{TakesUnit, keys_in, watch_in};

use crate::history::{HistoryRows, Listing};
use crate::peer_numbers::Peers;
use crate::shared_peer::SharedPeer;
use adj_rib::{RouteId, Watch};
use bgp_prefix::{Memory, Prefix, PrefixMap};
use bgp_update::Unicast;
use peer_units::{Chosen, DecodedEvents, EventRef, UnitRef};
use std::alloc::Global;
use std::marker::Model;

/// A watch on a peer.
#[derive(Drop)]
pub struct Watched<M: PrefixMap<RouteId>> {
    pub key: SharedPeer,
    pub watch: Watch<M>,
}

/// Passes the unit to the watch at this position, and adds the rows of what it did.
fn take_known<F: Unicast, M: PrefixMap<RouteId, Addr = F> + Drop>(
    alloc: Global,
    chosen: &Chosen<F>,
    listing: Listing,
    peers: &mut Vec<Watched<M>>,
    at: usize,
    unit: &UnitRef<'_, F>,
    event: EventRef<'_, Prefix<F>>,
    rows: &mut HistoryRows<F>,
) -> Result<(), Memory>
    requires peer { slice_get (keys_in (map watch_in peers.old.items)) at ≡ Some unit.now.peer }
    requires event { event_of event ≡ event_in unit.now.payload }
    ensures takes { OnOk result (TakesUnit listing chosen.now (map watch_in peers.old.items)
        (map watch_in peers.new.items) rows.old.listed rows.new.listed unit.now) }
    ensures keys { keys_in (map watch_in peers.new.items) ≡ keys_in (map watch_in peers.old.items) }
{
    let watched = &mut peers[at];
    rows.begin(alloc, listing, &watched.key, unit)?;
    watched
        .watch
        .take(alloc, chosen, listing.since, unit, event, rows)?;
    Ok(())
}

/// Passes the unit to a new watch, and adds the rows of what it did. An `Err` leaves the watches as they were.
fn take_new<F: Unicast, M: PrefixMap<RouteId, Addr = F> + Drop>(
    alloc: Global,
    chosen: &Chosen<F>,
    listing: Listing,
    numbers: &mut Peers,
    peers: &mut Vec<Watched<M>>,
    unit: &UnitRef<'_, F>,
    event: EventRef<'_, Prefix<F>>,
    rows: &mut HistoryRows<F>,
) -> Result<(), Memory>
    requires numbered { keys_in (map watch_in peers.old.items) ≡ numbers.old }
    requires new { list_any (peer_eq unit.now.peer) numbers.old ≡ false }
    requires event { event_of event ≡ event_in unit.now.payload }
    ensures numbered { keys_in (map watch_in peers.new.items) ≡ numbers.new }
    ensures takes { OnOk result (TakesUnit listing chosen.now (map watch_in peers.old.items)
        (map watch_in peers.new.items) rows.old.listed rows.new.listed unit.now) }
    ensures left { OnErr result (map watch_in peers.new.items ≡ map watch_in peers.old.items) }
{
    let key = SharedPeer::new(alloc, unit.peer)?;
    rows.begin(alloc, listing, &key, unit)?;
    let mut watch = Watch::new(alloc);
    watch.take(alloc, chosen, listing.since, unit, event, rows)?;
    peers.reserve(1)?;
    numbers.add(&unit.peer)?;
    peers.push_reserved(Watched { key, watch });
    Ok(())
}

/// The watches on all peers, by first appearance, and what they are passed units by.
#[derive(Drop)]
pub struct Watches<M: PrefixMap<RouteId>>
where
    M::Addr: Unicast,
{
    peers: Vec<Watched<M>>,
    /// The peers that they are on, by position.
    numbers: Peers,
    /// Where units are decoded. What is there means nothing.
    events: DecodedEvents<M::Addr>,
}

impl<M: PrefixMap<RouteId>> Model for Watches<M>
where
    M::Addr: Unicast,
{
    ghost use Rattle.std.specs.Prelude.{◌≡◌, List, map};
    ghost use Rattle.peer_tables.specs.Histories.{PeerWatch};
    ghost use Rattle.peer_tables.specs.Watching.{keys_in, watch_in};

    ghost Value = { List PeerWatch };

    ghost view = { λ w. map watch_in w.peers.items };

    ghost invariant = { λ w. keys_in (map watch_in w.peers.items) ≡ w.numbers };
}

impl<F: Unicast, M: PrefixMap<RouteId, Addr = F> + Drop> Watches<M> {
    ghost use Rattle.std.specs.Prelude.{◌≡◌, [], IfOk, Option, ℕ};

    /// Returns no watch.
    pub fn new(alloc: Global) -> Result<Watches<M>, Memory>
        ensures { IfOk result (λ watches. (since : Option ℕ) (choices : AnyChoices) → watches ≡ watches_of since choices []) }
    {
        Ok(Watches {
            peers: Vec::new(alloc),
            numbers: Peers::new(alloc)?,
            events: DecodedEvents::new(alloc),
        })
    }

    /// Takes the next unit, and adds the rows of what it did to keys of chosen prefixes and their chosen
    /// routes. After an `Err` the watches no
    /// longer stand for units, and some of the unit's rows may have been added.
    pub fn take(
        &mut self,
        alloc: Global,
        chosen: &Chosen<F>,
        listing: Listing,
        unit: &UnitRef<'_, F>,
        rows: &mut HistoryRows<F>,
    ) -> Result<(), Memory>
        ensures { OnOk result (TakesUnit listing chosen.now self.old self.new rows.old.listed rows.new.listed unit.now) }
    {
        self.events.clear();
        self.events.push(alloc, &unit.payload)?;
        let (numbers, peers) = (&mut self.numbers, &mut self.peers);
        let event = self.events.at(0);
        match numbers.find(&unit.peer, None) {
            Some(at) => take_known(alloc, chosen, listing, peers, at, unit, event, rows),
            None => take_new(alloc, chosen, listing, numbers, peers, unit, event, rows),
        }
    }
}

impl<M: PrefixMap<RouteId>> Watches<M>
where
    M::Addr: Unicast,
{
    /// The watches, by first appearance of their peers.
    pub fn watched(&self) -> &[Watched<M>]
        ensures { map watch_in result.now ≡ self.now }
    {
        self.peers.as_slice()
    }
}
