//! The report `peers`: the peers as their units leave them. A line holds a peer, whether it is up, its numbers of
//! routes and units, the times of its first and last unit, and the place of the first one. Peers are numbered by these
//! places, so the lines of several runs on different peers can be put in the order of one run.

ghost use Rattle.std.specs.Prelude.{◌≡◌, IfOk};
ghost use Rattle.peer_tables.specs.Seats.{seat_of};
ghost use Rattle.rib_report.specs.Reports.{peer_row, peer_rows};
ghost use Rattle.rib_report.specs.Lines.{entry_of, file_of, offset_of, peer_line};

use crate::line::Line;
use adj_rib::RouteId;
use bgp_prefix::{Memory, PrefixMap};
use bgp_update::Unicast;
use peer_tables::{Seated, Tables};
use peer_units::{PeerKey, Place};
use report_lines::{
    SessionUp, Text, columns, entry_field, if_any, number, put_line, time_field, word,
};
use report_request::{Key, LayoutOf};
use std::alloc::Global;

/// A peer as its units leave it.
#[derive(Drop)]
pub struct PeerRow {
    pub peer: PeerKey,
    /// Whether the last state change that tells led to Established, or none does: then it is shown as up.
    pub is_established: bool,
    /// The routes in its table.
    pub routes: usize,
    /// Its units of every kind.
    pub units: u64,
    /// The time of its first unit, in microseconds since 1970 UTC.
    pub first: Option<u64>,
    /// The time of its last unit.
    pub last: Option<u64>,
    /// The place of its first unit.
    pub place: Option<Place>,
}

/// Returns the row of a peer.
fn row_of<F: Unicast, M: PrefixMap<RouteId, Addr = F>>(seat: &Seated<M>) -> PeerRow
    ensures { result ≡ peer_row (seat_of seat.now) }
{
    let churn = seat.session.churn();
    let arrivals = seat.session.arrivals();
    PeerRow {
        peer: seat.key,
        is_established: seat.session.is_established(),
        routes: seat.session.table().len(),
        units: arrivals.units,
        first: churn.first,
        last: churn.last,
        place: arrivals.first,
    }
}

/// Returns the peers, by number.
pub fn peers<F: Unicast, M: PrefixMap<RouteId, Addr = F>>(
    alloc: Global,
    tables: &Tables<M>,
) -> Result<Vec<PeerRow>, Memory>
    ensures { IfOk result (λ rows. rows.items ≡ peer_rows tables.now) }
{
    let mut rows = Vec::new(alloc);
    for seat in tables.seats() {
        rows.push(row_of(seat))?;
    }
    Ok(rows)
}

/// Returns the number of a place's file, from 1.
fn file_field(place: Option<Place>) -> Option<u128>
    ensures { result ≡ file_of place }
{
    place.map(|place| place.file as u128 + 1)
}

/// Returns the offset of a place's record, in bytes.
fn offset_field(place: Option<Place>) -> Option<u128>
    ensures { result ≡ offset_of place }
{
    place.map(|place| place.offset as u128)
}

/// Returns the number of a place's entry, if it is that of an entry.
fn place_entry_field(place: Option<Place>) -> Option<u32>
    ensures { result ≡ entry_of place }
{
    place.and_then(|place| entry_field(place.entry))
}

impl<F: Unicast> Line<F> for PeerRow {
    ghost line = { peer_line };

    fn put<T: Text>(&self, text: &mut T, layout: &LayoutOf<F>) {
        let cells = columns!(
            peer(layout, self.peer),
            word!(Key::State, SessionUp(self.is_established)),
            number!(Key::Routes, self.routes),
            number!(Key::Units, self.units),
            if_any!(Key::First, time_field(self.first)),
            if_any!(Key::Last, time_field(self.last)),
            if_any!(Key::File, file_field(self.place)),
            if_any!(Key::Offset, offset_field(self.place)),
            if_any!(Key::Entry, place_entry_field(self.place))
        );
        put_line(text, layout.format, cells);
    }
}
