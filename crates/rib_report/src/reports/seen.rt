//! The report `seen`: the prefixes that are in any table, and the origin ASes of their routes. A line holds a prefix,
//! an origin AS, and the number of peers that have a route of the prefix with that origin AS.

ghost use Rattle.std.specs.Prelude.{◌≡◌, IfOk, ◌++◌, map};
ghost use Rattle.bgp_prefix.specs.Ordered.{in_order};
ghost use Rattle.rib_report.specs.Merges.{by_key, counted_both};
ghost use Rattle.rib_report.specs.Reports.{origin_cmp, prefix_origin_cmp, seat_prefix_origins, seen_among, seen_rows};
ghost use Rattle.rib_report.specs.Lines.{seen_line};
ghost use Rattle.peer_tables.specs.Seats.{seat_of};

use crate::line::Line;
use crate::merge::{Listed, Mergeable, count_once, list_peers};
use adj_rib::RouteId;
use bgp_prefix::{Family, Memory, Prefix, PrefixMap};
use bgp_update::Unicast;
use ip_text::WrittenAddress;
use peer_tables::{Seated, Tables};
use report_lines::{Text, columns, if_any, number, prefix, put_line};
use report_request::{Key, LayoutOf};
use std::alloc::Global;
use std::cmp::Ordering;
use std::marker::{Send, Sync};
use std::thread::Threads;

/// A prefix, an origin AS of its routes, or none, and the number of peers that have such a route.
#[derive(Drop)]
pub struct SeenRow<P = Prefix> {
    pub prefix: P,
    pub origin: Option<u32>,
    pub peers: usize,
}

impl<F: WrittenAddress> Line<F> for SeenRow<Prefix<F>> {
    ghost line = { seen_line };

    fn put<T: Text>(&self, text: &mut T, layout: &LayoutOf<F>) {
        let cells = columns!(
            prefix!(layout, self.prefix),
            if_any!(Key::OriginAsn, self.origin),
            number!(Key::Peers, self.peers)
        );
        put_line(text, layout.format, cells);
    }
}

/// The prefix and the origin AS of a route, which may have none (RFC 6811, 2).
type PrefixOrigin<F> = (Prefix<F>, Option<u32>);

/// Compares two origin ASes by number. A route without one comes last.
fn compare_origins(one: Option<u32>, other: Option<u32>) -> Ordering
    ensures { result ≡ origin_cmp one other }
{
    match one {
        Some(one) => match other {
            Some(other) => one.cmp(&other),
            None => Ordering::Less,
        },
        None => match other {
            Some(_) => Ordering::Greater,
            None => Ordering::Equal,
        },
    }
}

/// Compares by prefix, and then by origin AS.
fn compare_pairs<F: Family>(one: &PrefixOrigin<F>, other: &PrefixOrigin<F>) -> Ordering
    ensures { result ≡ prefix_origin_cmp one.now other.now }
{
    one.0.cmp(&other.0).then(compare_origins(one.1, other.1))
}

/// Prefixes and origin ASes with counts are merged by both. Counts are added, and saturate.
impl<F: Family> Mergeable for (PrefixOrigin<F>, usize) {
    ghost order = { by_key prefix_origin_cmp };

    ghost both = { counted_both };

    #[inline(always)]
    fn compare(self, other: (PrefixOrigin<F>, usize)) -> Ordering {
        compare_pairs(&self.0, &other.0)
    }

    #[inline(always)]
    fn unite(self, other: (PrefixOrigin<F>, usize)) -> (PrefixOrigin<F>, usize) {
        (self.0, self.1.saturating_add(other.1))
    }
}

/// Returns the prefix and the origin AS of each route of one peer, keys in order.
fn pairs_of_routes<F: Unicast, M: PrefixMap<RouteId, Addr = F>>(
    alloc: Global,
    seat: &Seated<M>,
) -> Result<Vec<PrefixOrigin<F>>, Memory>
    ensures { IfOk result (λ pairs. pairs.items ≡ seat_prefix_origins (seat_of seat.now)) }
{
    let entries = seat.session.table().entries(alloc)?;
    let pairs = entries
        .iter()
        .map(|entry| (entry.0.prefix, entry.1.origin_as()));
    Ok(pairs.collect(alloc)?)
}

/// Returns the prefixes and origin ASes of one peer's routes in order, each pair once, whatever the path identifiers.
fn pairs_of_seat<F: Unicast, M: PrefixMap<RouteId, Addr = F>>(
    alloc: Global,
    seat: &Seated<M>,
) -> Result<Vec<PrefixOrigin<F>>, Memory>
    ensures { IfOk result (λ pairs. pairs.items ≡ in_order prefix_origin_cmp (seat_prefix_origins (seat_of seat.now))) }
{
    let mut pairs = pairs_of_routes(alloc, seat)?;
    pairs.sort_by(compare_pairs)?;
    pairs.dedup();
    Ok(pairs)
}

/// What is listed of peers: the prefixes and origin ASes of their routes in order, each pair with the number of peers
/// that have such a route.
impl<F: Unicast, M: PrefixMap<RouteId, Addr = F>> Listed<Seated<M>> for (PrefixOrigin<F>, usize) {
    ghost seen = { seat_of };

    ghost list_of = { seen_among };

    fn list_of_seat(
        alloc: Global,
        seat: &Seated<M>,
    ) -> Result<Vec<(PrefixOrigin<F>, usize)>, Memory> {
        let pairs = pairs_of_seat(alloc, seat)?;
        count_once(alloc, pairs.as_slice())
    }

    fn lists_merge() {}
}

/// Makes the rows of counted prefixes and origin ASes.
fn rows_of<F: Family>(
    alloc: Global,
    counts: &[(PrefixOrigin<F>, usize)],
) -> Result<Vec<SeenRow<Prefix<F>>>, Memory>
    ensures { IfOk result (λ rows. rows.items ≡
        map (λ e. record { prefix = e.0.0; origin = e.0.1; peers = e.1 }) counts.now) }
{
    let row = |&((prefix, origin), peers)| SeenRow {
        prefix,
        origin,
        peers,
    };
    Ok(counts.iter().map(row).collect(alloc)?)
}

/// Returns, for each prefix and each origin AS of its routes at any peer, the number of peers that have a route of
/// this prefix with this origin AS: by prefix, then by origin AS, and the routes without one last. A peer counts once
/// per row, whatever the identifiers of its routes. With two threads or more, two of them share the work; below that,
/// or if none can be started, the calling thread does all of it.
pub fn seen<M: PrefixMap<RouteId, Addr: Unicast + Send> + Sync, T: Threads>(
    rt: &T,
    alloc: Global,
    threads: usize,
    tables: &Tables<M>,
) -> Result<Vec<SeenRow<Prefix<M::Addr>>>, Memory>
    ensures { IfOk result (λ rows. rows.items ≡ seen_rows tables.now) }
{
    let seats = tables.seats();
    let counts: Vec<(PrefixOrigin<M::Addr>, usize)> = list_peers(rt, alloc, threads, seats)?;
    rows_of(alloc, counts.as_slice())
}
