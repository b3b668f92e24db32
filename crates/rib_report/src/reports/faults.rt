//! The report `faults`: the records and units that are damaged. A line holds the place of one, by file, offset and
//! entry, and the number and name of its fault.

ghost use Rattle.std.specs.Prelude.{◌≡◌, ◌+◌, ◌++◌, IfOk};
ghost use Rattle.peer_tables.specs.Tables.{all_faults};
ghost use Rattle.rib_report.specs.Reports.{fault_rows};
ghost use Rattle.rib_report.specs.Lines.{fault_line};

use crate::line::Line;
use adj_rib::RouteId;
use bgp_prefix::{Memory, PrefixMap};
use bgp_update::Unicast;
use peer_tables::Tables;
use peer_units::Damage;
use report_lines::{
    Byte, Field, Joined, Text, columns, entry_field, if_any, number, plain, put_line, word,
};
use report_request::{Key, LayoutOf};
use std::alloc::Global;

/// The refusals, and then each peer's faults.
fn gather_faults<F: Unicast, M: PrefixMap<RouteId, Addr = F>>(
    alloc: Global,
    tables: &Tables<M>,
) -> Result<Vec<Damage>, Memory>
    ensures { IfOk result (λ rows. rows.items ≡ all_faults tables.now) }
{
    let mut rows = Vec::from_slice(alloc, tables.refused())?;
    for seat in tables.seats() {
        rows.extend_from_slice(seat.session.faults())?;
    }
    Ok(rows)
}

/// Returns all faults in place order; where places are equal, the refusals come first, then the peers' by number.
pub fn faults<F: Unicast, M: PrefixMap<RouteId, Addr = F>>(
    alloc: Global,
    tables: &Tables<M>,
) -> Result<Vec<Damage>, Memory>
    ensures { IfOk result (λ rows. rows.items ≡ fault_rows tables.now) }
{
    let mut rows = gather_faults(alloc, tables)?;
    rows.sort_by_key(|damage| damage.place)?;
    Ok(rows)
}

impl<F: Unicast> Line<F> for Damage {
    ghost line = { fault_line };

    fn put<T: Text>(&self, text: &mut T, layout: &LayoutOf<F>) {
        let cells = columns!(
            number!(Key::File, self.place.file as u128 + 1),
            number!(Key::Offset, self.place.offset),
            if_any!(Key::Entry, entry_field(self.place.entry)),
            plain!(Key::Number, self.fault.number() as u32),
            word!(Key::Fault, self.fault)
        );
        put_line(text, layout.format, cells);
    }
}
