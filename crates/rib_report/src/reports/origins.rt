//! The report `origins`: the prefixes whose routes have two or more origin ASes. A line holds a prefix and these ASes.

ghost use Rattle.std.specs.Prelude.{◌≡◌, ◌≢◌, ◌<◌, ◌≤◌, ◌++◌, [], ◌∷◌, IfOk, OnOk, map, length};
ghost use Rattle.std.specs.List.{AllWithin, HoldsAt, filter, filter_map};
ghost use Rattle.std.specs.List.Sorted.{IsStrictlySortedBy};
ghost use Rattle.rib_report.specs.Reports.{route_origin, origin_pair, seat_origins, origins_in_order, has_several, grouped_origins, origin_rows, pair_cmp};
ghost use Rattle.rib_report.specs.Lines.{origin_line};
ghost use Rattle.peer_tables.specs.Seats.{seat_of};

use crate::line::Line;
use crate::merge::{Listed, Mergeable, list_peers};
use adj_rib::RouteId;
use bgp_prefix::{Family, Memory, Prefix, PrefixMap, RouteKey, Sequence};
use bgp_update::{RouteRef, Unicast};
use ip_text::WrittenAddress;
use peer_tables::{Seated, Tables};
use report_lines::{Byte, Joined, Text, prefix, put, put_numbers};
use report_request::{Format, LayoutOf};
use std::alloc::Global;
use std::cmp::Ordering;
use std::marker::{Send, Sync};
use std::thread::Threads;

/// The origin ASes of a prefix, ascending (RFC 6811, 2).
#[derive(Drop)]
pub struct OriginRow<P = Prefix> {
    pub prefix: P,
    pub origins: Sequence<u32>,
}

impl<F: WrittenAddress> Line<F> for OriginRow<Prefix<F>> {
    ghost line = { origin_line };

    fn put<T: Text>(&self, text: &mut T, layout: &LayoutOf<F>) {
        let prefix = prefix!(layout, self.prefix);
        match layout.format {
            Format::Text => {
                put(text, Joined(prefix.text, Byte(b'|')));
                put_numbers(text, b' ', self.origins.as_slice());
                put(text, Byte(b'\n'));
            }
            Format::Json => {
                put(text, Joined(Byte(b'{'), prefix.json));
                text.put_text(b",\"origin_asns\":[");
                put_numbers(text, b',', self.origins.as_slice());
                text.put_text(b"]}\n");
            }
        }
    }
}

/// Pairs are merged by prefix and number. A pair of both lists is once.
impl<F: Family> Mergeable for (Prefix<F>, u32) {
    ghost order = { pair_cmp };

    ghost both = { λ x _. x };

    #[inline(always)]
    fn compare(self, other: (Prefix<F>, u32)) -> Ordering {
        self.cmp(&other)
    }

    #[inline(always)]
    fn unite(self, _other: (Prefix<F>, u32)) -> (Prefix<F>, u32) {
        self
    }
}

/// Returns the origin AS of a route (RFC 6811, 2).
fn origin_of(route: &RouteRef<'_>) -> Option<u32>
    ensures { result ≡ route_origin route.now }
{
    route.origin_as()
}

/// Adds the prefix and the origin AS of a route, if it has one.
fn add_origin<F: Family>(
    pairs: &mut Vec<(Prefix<F>, u32)>,
    key: &RouteKey<Prefix<F>>,
    route: &RouteRef<'_>,
) -> Result<(), Memory>
    ensures { OnOk result (pairs.new.items ≡ pairs.old.items ++ filter_map origin_pair ((key.now, route.now) ∷ [])) }
{
    if let Some(origin) = origin_of(route) {
        pairs.push((key.prefix, origin))?;
    }
    Ok(())
}

/// Adds the prefix and the origin AS of each route of one peer that has an origin AS.
fn add_origins<F: Unicast, M: PrefixMap<RouteId, Addr = F>>(
    alloc: Global,
    pairs: &mut Vec<(Prefix<F>, u32)>,
    seat: &Seated<M>,
) -> Result<(), Memory>
    ensures { OnOk result (pairs.new.items ≡ pairs.old.items ++ seat_origins (seat_of seat.now)) }
{
    let entries = seat.session.table().entries(alloc)?;
    for entry in entries.as_slice() {
        add_origin(pairs, &entry.0, &entry.1)?;
    }
    Ok(())
}

/// What is listed of peers: the prefixes and origin ASes of their routes in order, each pair once.
impl<F: Unicast, M: PrefixMap<RouteId, Addr = F>> Listed<Seated<M>> for (Prefix<F>, u32) {
    ghost seen = { seat_of };

    ghost list_of = { origins_in_order };

    fn list_of_seat(alloc: Global, seat: &Seated<M>) -> Result<Vec<(Prefix<F>, u32)>, Memory> {
        let mut pairs = Vec::with_capacity(alloc, seat.session.table().len())?;
        add_origins(alloc, &mut pairs, seat)?;
        pairs.sort()?;
        pairs.dedup();
        Ok(pairs)
    }

    fn lists_merge() {}
}

/// Returns how many pairs at the front have this prefix.
fn run_length<F: Family>(pairs: &[(Prefix<F>, u32)], first: &Prefix<F>) -> usize
    ensures within { result ≤ length pairs.now }
    ensures same { AllWithin (λ e. e.0 ≡ first.now) pairs.now 0 result }
    ensures other { result < length pairs.now → HoldsAt (λ e. e.0 ≢ first.now) pairs.now result }
{
    for i in 0..pairs.len() {
        if pairs[i].0 != *first {
            return i;
        }
    }
    pairs.len()
}

/// Makes the row of a prefix from its pairs of prefix and origin AS.
fn row_of_run<F: Family>(
    alloc: Global,
    prefix: Prefix<F>,
    run: &[(Prefix<F>, u32)],
) -> Result<OriginRow<Prefix<F>>, Memory>
    ensures { IfOk result (λ row. row ≡ record { prefix = prefix; origins = map (λ e. e.1) run.now }) }
{
    let origins = run.iter().map(|pair| pair.1).collect(alloc)?;
    Ok(OriginRow {
        prefix,
        origins: Sequence::from_vec(origins),
    })
}

/// Makes a row for each run of at least two pairs with the same prefix.
fn group_runs<F: Family>(
    alloc: Global,
    pairs: &[(Prefix<F>, u32)],
) -> Result<Vec<OriginRow<Prefix<F>>>, Memory>
    requires { IsStrictlySortedBy pair_cmp pairs.now }
    ensures { IfOk result (λ rows. rows.items ≡ filter has_several (grouped_origins pairs.now)) }
{
    let mut rows = Vec::new(alloc);
    let mut rest = pairs;
    while let [first, ..] = rest {
        let (run, later) = rest.split_at(run_length(rest, &first.0));
        if run.len() >= 2 {
            rows.push(row_of_run(alloc, first.0, run)?)?;
        }
        rest = later;
    }
    Ok(rows)
}

/// Returns the prefixes whose routes have at least two different origin ASes, by prefix, each with its origin
/// ASes in ascending order. With two threads or more, two of them share the work; below that, or if none can be
/// started, the calling thread does all of it.
pub fn origins<M: PrefixMap<RouteId, Addr: Unicast + Send> + Sync, T: Threads>(
    rt: &T,
    alloc: Global,
    threads: usize,
    tables: &Tables<M>,
) -> Result<Vec<OriginRow<Prefix<M::Addr>>>, Memory>
    ensures { IfOk result (λ rows. rows.items ≡ origin_rows tables.now) }
{
    let pairs: Vec<(Prefix<M::Addr>, u32)> = list_peers(rt, alloc, threads, tables.seats())?;
    group_runs(alloc, pairs.as_slice())
}
