//! The report `tables`: every entry of every peer's table. A line holds a peer, a key and its route: path, next hop,
//! origin, MED, LOCAL_PREF, whether it is an atomic aggregate, and its aggregator.

mod line_block;
mod parallel;

ghost use Rattle.std.specs.Prelude.{◌≡◌, ◌<◌, ◌≤◌, ◌⊎◌, ◌++◌, IfOk, IfErr, OnOk, OnErr, Err, map, vec_capacity};
ghost use Rattle.std.specs.List.{flat_map};
ghost use Rattle.std.specs.Io.KnownBytes.{Appends};
ghost use Rattle.mrt_frame.specs.Devices.{HasFailed};
ghost use Rattle.mrt_frame.specs.Writes.{WritesFront};
ghost use Rattle.mrt_frame.specs.declared.error.ReplayError.TheVariants as errors;
ghost use Rattle.peer_tables.specs.Seats.{seat_of};
ghost use Rattle.rib_report.specs.Rows.{table_row};
ghost use Rattle.rib_report.specs.Reports.{rows_of_seat, route_rows};
ghost use Rattle.rib_report.specs.Listings.{reached_lines, seat_lines, most_entries};
ghost use Rattle.rib_report.specs.Lines.{route_line};
ghost use Rattle.report_lines.specs.Texts.{Adds};

use crate::line::Line;
use crate::write::{NEAR_ROWS, next_rows};
use adj_rib::RouteId;
use bgp_prefix::{Family, Memory, Prefix, PrefixMap, RouteKey};
use bgp_update::{RouteRef, Unicast};
use ip_text::WrittenAddress;
use mrt_frame::{ReplayError, Sink};
use parallel::{LineBlocks, put_all_entries};
use peer_tables::{Seated, Tables};
use peer_units::PeerKey;
use report_lines::{
    AsJson, AsText, PeerText, RowFormat, ShownPeer, ShownPeerOf, Text, TextBuffer, TextWriter,
    finish, put_row,
};
use report_request::{Format, LayoutOf};
use std::alloc::Global;
use std::marker::Sync;
use std::thread::Threads;

/// An entry of a peer's table.
#[derive(Drop)]
pub struct TableRow<'a, P = Prefix> {
    pub peer: PeerKey,
    pub key: RouteKey<P>,
    pub route: RouteRef<'a>,
}

/// Adds the entries of one peer's table.
fn add_entries<'a, F: Unicast, M: PrefixMap<RouteId, Addr = F>>(
    alloc: Global,
    rows: &mut Vec<TableRow<'a, Prefix<F>>>,
    seat: &'a Seated<M>,
) -> Result<(), Memory>
    ensures { OnOk result (map table_row rows.new.items ≡ map table_row rows.old.items
        ++ rows_of_seat (seat_of seat.now)) }
{
    let peer = seat.key;
    let entries = seat.session.table().entries(alloc)?;
    rows.reserve(entries.len())?;
    for entry in entries.as_slice() {
        let (key, route) = (entry.0, entry.1.same());
        let Ok(()) = rows.push(TableRow { peer, key, route }) else {
            return Err(Memory);
        };
    }
    Ok(())
}

/// Returns every entry of every table: peers by number, keys in order.
pub fn table_rows<F: Unicast, M: PrefixMap<RouteId, Addr = F>>(
    alloc: Global,
    tables: &Tables<M>,
) -> Result<Vec<TableRow<'_, Prefix<F>>>, Memory>
    ensures { IfOk result (λ rows. map table_row rows.items ≡ route_rows tables.now) }
{
    let mut rows = Vec::new(alloc);
    for seat in tables.seats() {
        add_entries(alloc, &mut rows, seat)?;
    }
    Ok(rows)
}

/// Returns the greatest number of entries in the table of any of these peers.
fn max_entries<F: Unicast, M: PrefixMap<RouteId, Addr = F>>(seats: &[Seated<M>]) -> usize
    ensures { result ≡ most_entries (map seat_of seats.now) }
{
    let mut most = 0usize;
    for seat in seats {
        most = most.max(seat.session.table().len());
    }
    most
}

/// Prefetches a little of what each entry refers to, and returns how many entries to prefetch next.
pub(crate) fn prefetch_entries<F: Family>(entries: &[(RouteKey<Prefix<F>>, RouteRef<'_>)]) -> usize
    ensures { 0 < result }
{
    let mut bytes = 0usize;
    for entry in entries {
        bytes = bytes.saturating_add(prefetch_route(&entry.1));
    }
    next_rows(bytes)
}

/// Adds the lines of some entries of one peer in a format.
fn put_block_as<R: RowFormat, T: Text, F: WrittenAddress>(
    text: &mut T,
    peer: &PeerText<F>,
    block: &[(RouteKey<Prefix<F>>, RouteRef<'_>)],
)
    requires { peer.now.layout.format ≡ R.format }
    ensures { Adds (T.state text.old) (T.state text.new) (reached_lines peer.now block.now) }
{
    for entry in block {
        R::put_row(text, peer, &entry.0, &entry.1);
    }
}

/// Adds the lines of some entries of one peer. The format is asked once, and not at each line.
fn put_block<T: Text, F: WrittenAddress>(
    text: &mut T,
    peer: &PeerText<F>,
    block: &[(RouteKey<Prefix<F>>, RouteRef<'_>)],
)
    ensures { Adds (T.state text.old) (T.state text.new) (reached_lines peer.now block.now) }
{
    match peer.layout().format {
        Format::Text => put_block_as::<AsText, T, F>(text, peer, block),
        Format::Json => put_block_as::<AsJson, T, F>(text, peer, block),
    }
}

/// Adds the lines of the entries of one peer. After a failed write, no more lines are made.
pub(crate) fn put_entries<T: Text, F: WrittenAddress>(
    text: &mut T,
    peer: &ShownPeerOf<F>,
    entries: &[(RouteKey<Prefix<F>>, RouteRef<'_>)],
)
    ensures { Adds (T.state text.old) (T.state text.new) (reached_lines peer.now entries.now) }
{
    let peer_text = text.buffer().peer_text(peer);
    let mut done = 0;
    let mut near = NEAR_ROWS;
    while done < entries.len() {
        if text.buffer().has_failed() {
            return;
        }
        let end = entries.len().min(done.saturating_add(near));
        let block = &entries[done..end];
        near = prefetch_entries(block);
        put_block(text, &peer_text, block);
        done = end;
    }
}

/// Adds the lines of every table, in order. The entries of each replace the contents of a list, by way of one of their
/// numbers; both have room for the entries of any table.
fn put_tables<
    'a,
    F: WrittenAddress + Sync,
    M: PrefixMap<RouteId, Addr = F>,
    R: Threads + Sync,
    T: Text,
>(
    rt: &R,
    line_blocks: &mut LineBlocks,
    text: &mut T,
    layout: &LayoutOf<F>,
    mut ids: Vec<(RouteKey<Prefix<F>>, &'a RouteId)>,
    mut all: Vec<(RouteKey<Prefix<F>>, RouteRef<'a>)>,
    seats: &'a [Seated<M>],
)
    requires ids { most_entries (map seat_of seats.now) ≤ vec_capacity ids }
    requires all { most_entries (map seat_of seats.now) ≤ vec_capacity all }
    ensures { Adds (T.state text.old) (T.state text.new) (flat_map (seat_lines layout.now) (map seat_of seats.now)) }
{
    for seat in seats {
        seat.session.table().list(&mut ids, &mut all);
        let peer = ShownPeer {
            key: seat.key,
            layout: *layout,
        };
        put_all_entries(rt, line_blocks, text, &peer, all.as_slice());
    }
}

/// Writes the lines of `table_rows`, without a list of all rows. The lines of large tables are made in
/// up to as many threads as are asked for, while the calling thread writes those before. All memory is allocated
/// before anything is written: if it returns `Memory`, nothing has been written. If it returns `Write`, a leading
/// part of the text has been written.
pub fn list_tables<
    F: WrittenAddress + Sync,
    M: PrefixMap<RouteId, Addr = F>,
    T: Threads + Sync,
    W: Sink,
>(
    rt: &T,
    alloc: Global,
    threads: usize,
    out: &mut W,
    layout: LayoutOf<F>,
    tables: &Tables<M>,
) -> Result<(), ReplayError>
    ensures ok { OnOk result (Appends (W.contents out.old) (W.contents out.new)
        (flat_map (route_line layout) (route_rows tables.now))) }
    ensures front { OnErr result (WritesFront (W.contents out.old) (W.contents out.new)
        (flat_map (route_line layout) (route_rows tables.now))) }
    ensures errors { IfErr result (λ e. (e ≡ errors.Memory) ⊎ (e ≡ errors.Write)) }
    ensures untouched { result ≡ Err errors.Memory → out.new ≡ out.old }
    ensures sound { OnOk result (W.failure_count out.new ≡ W.failure_count out.old) }
    ensures risen { result ≡ Err errors.Write → HasFailed (W.failure_count out.old) (W.failure_count out.new) }
{
    let seats = tables.seats();
    let most = max_entries(seats);
    let ids = Vec::with_capacity(alloc, most)?;
    let all = Vec::with_capacity(alloc, most)?;
    let mut line_blocks = LineBlocks::new(alloc, threads, most)?;
    let mut text = TextWriter {
        buffer: TextBuffer::new(),
        out,
    };
    put_tables(rt, &mut line_blocks, &mut text, &layout, ids, all, seats);
    finish(&mut text)
}

/// Prefetches a route by reading its first and its last byte, and returns about how many bytes it has.
fn prefetch_route(route: &RouteRef<'_>) -> usize {
    let bytes = route.as_bytes();
    let last = match bytes.last() {
        Some(byte) => *byte >= 128,
        None => false,
    };
    bytes
        .len()
        .saturating_add((route.atomic() != last) as usize)
}

impl<F: WrittenAddress> Line<F> for TableRow<'_, Prefix<F>> {
    ghost line = { λ layout row. route_line layout (table_row row) };

    fn prefetch(&self) -> usize {
        prefetch_route(&self.route)
    }

    fn put<T: Text>(&self, text: &mut T, layout: &LayoutOf<F>)
        ensures { Adds (T.state text.old) (T.state text.new) (route_line layout.now (table_row self.now)) }
    {
        let peer = ShownPeer {
            key: self.peer,
            layout: *layout,
        };
        let peer_text = text.buffer().peer_text(&peer);
        put_row(text, &peer_text, &self.key, &self.route);
    }
}
