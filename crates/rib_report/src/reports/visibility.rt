//! The report `visibility`: the prefixes that are in any table. A line holds a prefix and the number of peers at which
//! it is visible.

ghost use Rattle.std.specs.Prelude.{◌≡◌, IfOk, map};
ghost use Rattle.std.specs.FinMap as finite;
ghost use Rattle.bgp_prefix.specs.Ordered.{in_order};
ghost use Rattle.bgp_prefix.specs.Prefixes.{prefix_cmp};
ghost use Rattle.peer_tables.specs.Seats.{seat_of};
ghost use Rattle.rib_report.specs.Merges.{by_key, counted_both};
ghost use Rattle.rib_report.specs.Reports.{seat_prefixes, visible_among, visibility_rows};
ghost use Rattle.rib_report.specs.Lines.{visibility_line};

use crate::line::Line;
use crate::merge::{Listed, Mergeable, count_once, list_peers};
use adj_rib::{RouteId, RouteTable};
use bgp_prefix::{Family, Memory, Prefix, PrefixMap};
use bgp_update::Unicast;
use ip_text::WrittenAddress;
use peer_tables::{Seated, Tables};
use report_lines::{Text, columns, number, prefix, put_line};
use report_request::{Key, LayoutOf};
use std::alloc::Global;
use std::cmp::Ordering;
use std::marker::{Send, Sync};
use std::thread::Threads;

/// In how many tables a prefix is.
#[derive(Drop)]
pub struct VisibilityRow<P = Prefix> {
    pub prefix: P,
    pub peers: usize,
}

impl<F: WrittenAddress> Line<F> for VisibilityRow<Prefix<F>> {
    ghost line = { visibility_line };

    fn put<T: Text>(&self, text: &mut T, layout: &LayoutOf<F>) {
        let cells = columns!(
            prefix!(layout, self.prefix),
            number!(Key::Peers, self.peers)
        );
        put_line(text, layout.format, cells);
    }
}

/// Prefixes with counts are merged by prefix. Counts are added, and saturate.
impl<F: Family> Mergeable for (Prefix<F>, usize) {
    ghost order = { by_key prefix_cmp };

    ghost both = { counted_both };

    #[inline(always)]
    fn compare(self, other: (Prefix<F>, usize)) -> Ordering {
        self.0.cmp(&other.0)
    }

    #[inline(always)]
    fn unite(self, other: (Prefix<F>, usize)) -> (Prefix<F>, usize) {
        (self.0, self.1.saturating_add(other.1))
    }
}

/// Returns the prefix of each entry of a table.
fn prefixes_of_table<F: Unicast, M: PrefixMap<RouteId, Addr = F>>(
    alloc: Global,
    table: &RouteTable<M>,
) -> Result<Vec<Prefix<F>>, Memory>
    ensures { IfOk result (λ prefixes. prefixes.items ≡ map (λ e. e.0.prefix) (finite.entries table.now)) }
{
    let entries = table.entries(alloc)?;
    let prefixes = entries.iter().map(|entry| entry.0.prefix);
    Ok(prefixes.collect(alloc)?)
}

/// Returns the prefixes of one peer's table in order, each once, whatever its path identifiers.
fn prefixes_of_seat<F: Unicast, M: PrefixMap<RouteId, Addr = F>>(
    alloc: Global,
    seat: &Seated<M>,
) -> Result<Vec<Prefix<F>>, Memory>
    ensures { IfOk result (λ prefixes. prefixes.items ≡ in_order prefix_cmp (seat_prefixes (seat_of seat.now))) }
{
    let mut prefixes = prefixes_of_table(alloc, seat.session.table())?;
    prefixes.dedup();
    Ok(prefixes)
}

/// What is listed of peers: the prefixes of their tables in order, each with the number of peers at which it is
/// visible.
impl<F: Unicast, M: PrefixMap<RouteId, Addr = F>> Listed<Seated<M>> for (Prefix<F>, usize) {
    ghost seen = { seat_of };

    ghost list_of = { visible_among };

    fn list_of_seat(alloc: Global, seat: &Seated<M>) -> Result<Vec<(Prefix<F>, usize)>, Memory> {
        let prefixes = prefixes_of_seat(alloc, seat)?;
        count_once(alloc, prefixes.as_slice())
    }

    fn lists_merge() {}
}

/// Makes the rows of counted prefixes.
fn rows_of<F: Family>(
    alloc: Global,
    counts: &[(Prefix<F>, usize)],
) -> Result<Vec<VisibilityRow<Prefix<F>>>, Memory>
    ensures { IfOk result (λ rows. rows.items ≡ map (λ e. record { prefix = e.0; peers = e.1 }) counts.now) }
{
    let row = |&(prefix, peers)| VisibilityRow { prefix, peers };
    Ok(counts.iter().map(row).collect(alloc)?)
}

/// Returns, for each prefix visible at any peer, the number of peers at which it is visible, by prefix. A peer
/// counts once per prefix, whatever the identifiers of its routes. With two threads or more, two of them share the
/// work; below that, or if none can be started, the calling thread does all of it.
pub fn visibility<M: PrefixMap<RouteId, Addr: Unicast + Send> + Sync, T: Threads>(
    rt: &T,
    alloc: Global,
    threads: usize,
    tables: &Tables<M>,
) -> Result<Vec<VisibilityRow<Prefix<M::Addr>>>, Memory>
    ensures { IfOk result (λ rows. rows.items ≡ visibility_rows tables.now) }
{
    let counts: Vec<(Prefix<M::Addr>, usize)> = list_peers(rt, alloc, threads, tables.seats())?;
    rows_of(alloc, counts.as_slice())
}
