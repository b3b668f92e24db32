//! A checkpoint of all tables.

ghost use Rattle.std.specs.Prelude.{◌≡◌, ◌^◌, ◌<◌, length, map, IfOk, OnOk};
ghost use Rattle.std.specs.List.{flat_map};
ghost use Rattle.std.specs.Io.KnownBytes.{Appends};
ghost use Rattle.peer_tables.specs.Seats.{seat_of};
ghost use Rattle.checkpoint_writing.specs.Dumping.{Grows};
ghost use Rattle.checkpoint_writing.specs.Leaving.{left_entries, written_checkpoint};

use crate::listing::{Attributes, list_seats};
use crate::peer_records::{put_index, put_states, put_updates};
use crate::prefix_records::PrefixRecords;
use crate::prefixes::put_prefixes;
use crate::waiting::send;
use adj_rib::RouteId;
use bgp_prefix::{Prefix, PrefixMap, RouteKey};
use mrt_frame::{ReplayError, Sink};
use mrt_writing::WideAddress;
use peer_tables::{Seated, Tables};
use peer_units::{PeerKey, StateRule};
use std::alloc::Global;

/// Adds the records of a checkpoint of these peers. Returns the routes that are left out.
fn put_checkpoint<F: WideAddress, M: PrefixMap<RouteId, Addr = F>, W: Sink>(
    alloc: Global,
    out: &mut W,
    records: &mut PrefixRecords,
    rule: StateRule,
    seats: &[Seated<M>],
) -> Result<Vec<(PeerKey, RouteKey<Prefix<F>>)>, ReplayError>
    requires few { length seats.now < 256 ^ 2 }
    requires first { records.old.sequence ≡ 0 }
    ensures written { OnOk result (Grows (W.contents out.old) records.old.waiting.items (W.contents out.new) records.new.waiting.items
        (written_checkpoint rule F.family records.old.seconds (map (λ s. seat_of s) seats.now))) }
    ensures left { IfOk result (λ left. left.items ≡ flat_map (λ s. left_entries F.family (seat_of s)) seats.now) }
{
    let mut attributes = Attributes::new(alloc);
    let mut left = Vec::new(alloc);
    let seconds = records.seconds;
    put_index(alloc, out, &mut records.waiting, seconds, seats)?;
    put_states(alloc, out, &mut records.waiting, seconds, rule, seats)?;
    let mut merge = list_seats(alloc, &mut attributes, seats, &mut left)?;
    put_prefixes(alloc, out, records, &mut merge)?;
    put_updates(
        alloc,
        out,
        &mut records.waiting,
        &mut attributes,
        seconds,
        seats,
    )?;
    Ok(left)
}

/// Writes a checkpoint of the tables: an index table of their peers, by number, a state change of each, the records of
/// all prefixes, and the UPDATEs of IPv4 routes whose next hop is an IPv6 address, which RIB entries can't have. The
/// time of each record is in seconds since 1970 UTC.
///
/// A peer counts as up if it is by its rule or, where state changes are taken by `Established`, if its session is.
/// Returns the routes whose attributes are too long to be written, each with its peer: they are left out. After an
/// error (`Write` or `Memory`) a part of the records may have been written.
pub fn write_checkpoint<F: WideAddress, M: PrefixMap<RouteId, Addr = F>, W: Sink>(
    alloc: Global,
    tables: &Tables<M>,
    rule: StateRule,
    seconds: u32,
    out: &mut W,
) -> Result<Vec<(PeerKey, RouteKey<Prefix<F>>)>, ReplayError>
    requires { length tables.now.seats < 256 ^ 2 }
    ensures written { OnOk result (Appends (W.contents out.old) (W.contents out.new)
        (written_checkpoint rule F.family seconds tables.now.seats)) }
    ensures left { IfOk result (λ left. left.items ≡ flat_map (left_entries F.family) tables.now.seats) }
{
    let mut records = PrefixRecords::new(alloc, seconds);
    let left = put_checkpoint(alloc, out, &mut records, rule, tables.seats())?;
    send(out, &mut records.waiting)?;
    Ok(left)
}
