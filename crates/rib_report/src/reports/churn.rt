//! The report `churn`: what each peer's units did to its table. A line holds a peer, eight counts, and the times of its
//! first and last unit.

ghost use Rattle.std.specs.Prelude.{◌≡◌, IfOk, map};
ghost use Rattle.peer_tables.specs.Watching.{watch_in};
ghost use Rattle.rib_report.specs.Reports.{churn_rows, watch_churns};
ghost use Rattle.rib_report.specs.Lines.{churn_line};

use crate::line::Line;
use adj_rib::{Churn, RouteId};
use bgp_prefix::{Memory, PrefixMap};
use bgp_update::Unicast;
use peer_tables::{Tables, Watched};
use peer_units::PeerKey;
use report_lines::{Text, columns, if_any, number, put_line, time_field};
use report_request::{Key, LayoutOf};
use std::alloc::Global;

/// What a peer's units did.
#[derive(Drop)]
pub struct ChurnRow {
    pub peer: PeerKey,
    pub churn: Churn,
}

/// Returns the churn of each peer, by number.
pub fn churn<F: Unicast, M: PrefixMap<RouteId, Addr = F>>(
    alloc: Global,
    tables: &Tables<M>,
) -> Result<Vec<ChurnRow>, Memory>
    ensures { IfOk result (λ rows. rows.items ≡ churn_rows tables.now) }
{
    let mut rows = Vec::new(alloc);
    for seat in tables.seats() {
        rows.push(ChurnRow {
            peer: seat.key,
            churn: seat.session.churn(),
        })?;
    }
    Ok(rows)
}

/// Returns the churn that each watch counted, in the order of the watches.
pub fn watched_churn<F: Unicast, M: PrefixMap<RouteId, Addr = F>>(
    alloc: Global,
    watches: &[Watched<M>],
) -> Result<Vec<ChurnRow>, Memory>
    ensures { IfOk result (λ rows. rows.items ≡ watch_churns (map watch_in watches.now)) }
{
    let mut rows = Vec::new(alloc);
    for watched in watches {
        rows.push(ChurnRow {
            peer: *watched.key.key(),
            churn: watched.watch.churn(),
        })?;
    }
    Ok(rows)
}

impl<F: Unicast> Line<F> for ChurnRow {
    ghost line = { churn_line };

    fn put<T: Text>(&self, text: &mut T, layout: &LayoutOf<F>) {
        let churn = self.churn;
        let cells = columns!(
            peer(layout, self.peer),
            number!(Key::New, churn.added),
            number!(Key::Changed, churn.changed),
            number!(Key::Same, churn.same),
            number!(Key::Gone, churn.gone),
            number!(Key::Void, churn.void),
            number!(Key::Resets, churn.resets),
            number!(Key::Idle, churn.idle),
            number!(Key::Refused, churn.refused),
            if_any!(Key::First, time_field(churn.first)),
            if_any!(Key::Last, time_field(churn.last))
        );
        put_line(text, layout.format, cells);
    }
}
