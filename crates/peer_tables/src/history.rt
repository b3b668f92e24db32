//! Rows of what happened.

ghost use Rattle.std.specs.Prelude.{◌≡◌, ◌<◌, IfOk, List, OnOk, Option, Some, length, slice_get};
ghost use Rattle.bgp_update.specs.declared.route.Route.{Route};
ghost use Rattle.adj_rib.specs.Routes.{StaysNamed};
ghost use Rattle.peer_tables.specs.Histories.{by_of, is_asked, is_change, row_state};
ghost use Rattle.peer_tables.specs.Watching.{IsStored, row_in, row_unit};

use crate::shared_peer::SharedPeer;
use adj_rib::{Notes, RouteId, Routes, What, is_before};
use bgp_prefix::{Family, Memory, Prefix, RouteKey};
use bgp_update::{HashedRoute, RouteRef, Unicast};
use peer_units::{Payload, PayloadRef, PeerKey, UnitRef};
use std::alloc::Global;
use std::marker::Model;

/// What brought about that something happened to a key.
#[derive(Clone, Copy, Debug, PartialEq, Eq)]
pub enum By {
    /// An entry of a RIB record.
    Rib,
    /// A message.
    Update,
    /// A state change.
    State,
}

/// One thing that happened to a key of a peer.
#[derive(Drop)]
pub struct HistoryRow<'a, P = Prefix> {
    /// In microseconds since 1970 UTC.
    pub time: u64,
    pub peer: PeerKey,
    /// What brought it about.
    pub by: By,
    pub what: What,
    pub key: RouteKey<P>,
    /// The route that the key has from then on, or the one that went; none of a withdrawal of a key without one.
    pub route: Option<RouteRef<'a>>,
}

/// A row as it is kept. Whole dumps have as many rows as routes, so that of an IPv4 key takes 40 bytes: the fields lie
/// in an order that leaves no gap, and a row without a route has none.
#[derive(Drop)]
enum StoredRow<P = Prefix> {
    Routed {
        by: By,
        what: What,
        key: RouteKey<P>,
        route: RouteId,
        time: u64,
        peer: SharedPeer,
    },
    Routeless {
        by: By,
        what: What,
        key: RouteKey<P>,
        time: u64,
        peer: SharedPeer,
    },
}

/// Which of the things that happened have rows.
#[derive(Clone, Copy, Debug, PartialEq, Eq)]
pub enum Listed {
    /// None of them: they are counted alone.
    Nothing,
    /// All but announcements of the route that was there.
    Changes,
    /// All.
    All,
}

/// From when on what happened is listed and counted, and what of it has rows.
#[derive(Clone, Copy, Debug, PartialEq, Eq)]
pub struct Listing {
    /// The second from which on it is listed and counted, since 1970 UTC. With `None` all is.
    pub since: Option<u64>,
    /// What has rows.
    pub listed: Listed,
}

/// Returns what brings about what a unit does.
fn by_of<F: Unicast>(payload: &PayloadRef<'_, F>) -> By
    ensures { result ≡ by_of payload.now }
{
    match payload {
        Payload::Entry { .. } | Payload::Clear => By::Rib,
        Payload::Message { .. } => By::Update,
        Payload::State { .. } => By::State,
    }
}

/// Whether it is more than an announcement of the route that was there.
fn is_change(what: What) -> bool
    ensures { result ≡ is_change what }
{
    match what {
        What::Same => false,
        What::New | What::Changed | What::Gone | What::Void | What::Lost => true,
    }
}

/// Whether what happened is asked for.
fn is_asked(listed: Listed, what: What) -> bool
    ensures { result ≡ is_asked listed what }
{
    match listed {
        Listed::Nothing => false,
        Listed::Changes => is_change(what),
        Listed::All => true,
    }
}

/// A unit whose notes have rows, if they are asked for.
#[derive(Drop)]
struct RowUnit {
    time: u64,
    by: By,
    listed: Listed,
    peer: SharedPeer,
}

/// Returns the row of a note on a unit of this peer, at this time. Its route is put among these, if they don't have it.
fn stored_row<F: Unicast>(
    alloc: Global,
    routes: &mut Routes,
    unit: &RowUnit,
    what: What,
    key: &RouteKey<Prefix<F>>,
    route: &Option<RouteRef<'_>>,
) -> Result<StoredRow<Prefix<F>>, Memory>
    ensures row { IfOk result (λ row. row_in routes.new row ≡ record {
      time = unit.now.time;
      peer = unit.now.peer;
      by = unit.now.by;
      what = what;
      key = key.now;
      route = route.now;
    }) }
    ensures stored { IfOk result (IsStored routes.new) }
    ensures stays { StaysNamed routes.old routes.new }
{
    let peer = unit.peer.share(alloc)?;
    let (time, by, key) = (unit.time, unit.by, *key);
    match route {
        Some(route) => {
            let route = routes.intern(alloc, &HashedRoute::new(route.same()))?;
            Ok(StoredRow::Routed {
                by,
                what,
                key,
                route,
                time,
                peer,
            })
        }
        None => Ok(StoredRow::Routeless {
            by,
            what,
            key,
            time,
            peer,
        }),
    }
}

/// Rows of what happened, with the routes that they name.
#[derive(Drop)]
pub struct HistoryRows<F: Family = u32> {
    rows: Vec<StoredRow<Prefix<F>>>,
    routes: Routes,
    /// The unit of which notes come, if any of them may have a row.
    unit: Option<RowUnit>,
}

impl<F: Family> Model for HistoryRows<F> {
    ghost use Rattle.std.specs.Prelude.{map};
    ghost use Rattle.std.specs.List.{All};
    ghost use Rattle.peer_tables.specs.Watching.{IsStored, RowsState, row_in};

    ghost Value = { RowsState };

    ghost view = { λ r. record { listed = map (row_in r.routes) r.rows.items; unit = r.unit } };

    ghost invariant = { λ r. All (IsStored r.routes) r.rows.items };
}

impl<F: Unicast> HistoryRows<F> {
    ghost use Rattle.std.specs.Prelude.{[], None};

    /// Returns no row. Allocates nothing.
    pub fn new(alloc: Global) -> HistoryRows<F>
        ensures { result ≡ record { listed = []; unit = None } }
    {
        HistoryRows {
            rows: Vec::new(alloc),
            routes: Routes::new(alloc),
            unit: None,
        }
    }

    /// The notes that come from now on are of this unit of a peer: those that are asked for have a row.
    pub(crate) fn begin(
        &mut self,
        alloc: Global,
        listing: Listing,
        peer: &SharedPeer,
        unit: &UnitRef<'_, F>,
    ) -> Result<(), Memory>
        requires { peer.now ≡ unit.now.peer }
        ensures listed { self.new.listed ≡ self.old.listed }
        ensures unit { OnOk result (self.new.unit ≡ row_unit listing unit.now) }
    {
        if is_before(listing.since, unit.time) {
            self.unit = None;
            return Ok(());
        }
        self.unit = Some(RowUnit {
            time: unit.time,
            by: by_of(&unit.payload),
            listed: listing.listed,
            peer: peer.share(alloc)?,
        });
        Ok(())
    }

    /// How many rows there are.
    pub fn len(&self) -> usize
        ensures { result ≡ length self.now.listed }
    {
        self.rows.len()
    }

    /// The row at an index.
    pub fn at(&self, index: usize) -> HistoryRow<'_, Prefix<F>>
        requires { index < length self.now.listed }
        ensures { slice_get self.now.listed index ≡ Some (row_state result) }
    {
        match &self.rows[index] {
            StoredRow::Routed {
                by,
                what,
                key,
                route,
                time,
                peer,
            } => HistoryRow {
                time: *time,
                peer: *peer.key(),
                by: *by,
                what: *what,
                key: *key,
                route: Some(self.routes.route(*route)),
            },
            StoredRow::Routeless {
                by,
                what,
                key,
                time,
                peer,
            } => HistoryRow {
                time: *time,
                peer: *peer.key(),
                by: *by,
                what: *what,
                key: *key,
                route: None,
            },
        }
    }
}

impl<F: Unicast> Notes<F> for HistoryRows<F> {
    ghost use Rattle.peer_tables.specs.Watching.{RowsState, keep_row};

    ghost Kept = { RowsState };

    ghost kept = { λ r. r };

    ghost keep = { keep_row };

    fn keeps_losses(&self) -> bool {
        match &self.unit {
            Some(unit) => unit.listed != Listed::Nothing,
            None => false,
        }
    }

    fn note(
        &mut self,
        alloc: Global,
        what: What,
        key: &RouteKey<Prefix<F>>,
        route: &Option<RouteRef<'_>>,
        _before: &Option<RouteRef<'_>>,
    ) -> Result<(), Memory> {
        let Some(unit) = &self.unit else {
            return Ok(());
        };
        if !is_asked(unit.listed, what) {
            return Ok(());
        }
        let row = stored_row(alloc, &mut self.routes, unit, what, key, route)?;
        self.rows.push(row)?;
        Ok(())
    }
}
