//! The report `match`: for each peer, the entries of the longest prefix in its table that contains an address. A line
//! is one of `tables`.

ghost use Rattle.std.specs.Prelude.{◌≡◌, ◌++◌, IfOk, OnOk, map};
ghost use Rattle.bgp_prefix.specs.Maps.{paths_of};
ghost use Rattle.rib_report.specs.Rows.{table_row};
ghost use Rattle.rib_report.specs.Reports.{path_row, matches_of_seat, match_rows};
ghost use Rattle.peer_tables.specs.Seats.{seat_of};

use crate::reports::tables::TableRow;
use adj_rib::RouteId;
use bgp_prefix::{Memory, Prefix, PrefixMap, RouteKey};
use bgp_update::Unicast;
use peer_tables::{Seated, Tables};
use std::alloc::Global;

/// Adds the entries of a prefix in one peer's table.
fn add_paths<'a, F: Unicast, M: PrefixMap<RouteId, Addr = F>>(
    alloc: Global,
    rows: &mut Vec<TableRow<'a, Prefix<F>>>,
    seat: &'a Seated<M>,
    prefix: Prefix<F>,
) -> Result<(), Memory>
    ensures { OnOk result (map table_row rows.new.items ≡ map table_row rows.old.items
        ++ map (path_row seat.now.key prefix) (paths_of prefix (seat_of seat.now).session.table)) }
{
    let peer = seat.key;
    let paths = seat.session.table().paths(alloc, &prefix)?;
    for path in paths.as_slice() {
        let key = RouteKey { prefix, id: path.0 };
        let route = path.1.same();
        let Ok(()) = rows.push(TableRow { peer, key, route }) else {
            return Err(Memory);
        };
    }
    Ok(())
}

/// Adds the entries of the longest-prefix match in one peer's table, if there is one.
fn add_matches<'a, F: Unicast, M: PrefixMap<RouteId, Addr = F>>(
    alloc: Global,
    rows: &mut Vec<TableRow<'a, Prefix<F>>>,
    seat: &'a Seated<M>,
    addr: F,
) -> Result<(), Memory>
    ensures { OnOk result (map table_row rows.new.items ≡ map table_row rows.old.items
        ++ matches_of_seat (F.bits addr) (seat_of seat.now)) }
{
    match seat.session.table().longest(addr) {
        Some(prefix) => add_paths(alloc, rows, seat, prefix),
        None => Ok(()),
    }
}

/// Returns, for each peer by number, all entries of the longest prefix that contains the address, by identifier
/// (RFC 1812, 5.2.4.3). A peer with no such prefix has none.
pub fn matches<F: Unicast, M: PrefixMap<RouteId, Addr = F>>(
    alloc: Global,
    tables: &Tables<M>,
    addr: F,
) -> Result<Vec<TableRow<'_, Prefix<F>>>, Memory>
    ensures { IfOk result (λ rows. map table_row rows.items ≡ match_rows tables.now (F.bits addr)) }
{
    let mut rows = Vec::new(alloc);
    for seat in tables.seats() {
        add_matches(alloc, &mut rows, seat, addr)?;
    }
    Ok(rows)
}
