//! The report `history`: what happened to each key, in the order in which it did. A line holds the time, the peer, what
//! happened, what brought it about, the key and its route.

ghost use Rattle.std.specs.Prelude.{◌≡◌};
ghost use Rattle.peer_tables.specs.Histories.{RowState, row_state};
ghost use Rattle.rib_report.specs.HistoryLines.{by_text, event_cells, history_line, what_text};
ghost use Rattle.report_lines.specs.LineParts.{line_front, listed_behind};
ghost use Rattle.report_request.specs.declared.format.Format.TheVariants.{Text, Json};
ghost use Rattle.report_lines.specs.Texts.{Adds};

use crate::line::{Line, RowList};
use adj_rib::What;
use bgp_prefix::Prefix;
use bgp_update::{KeptValues, RouteRef, Unicast};
use ip_text::{DecimalTable, WrittenAddress, format_text};
use peer_tables::{By, HistoryRow, HistoryRows};
use report_lines::{
    Field, Microseconds, Text, columns, plain, put_front, put_json_route, put_line_end,
    put_no_route, put_text_route, route_key, word,
};
use report_request::{Format, Key, LayoutOf};

/// What happened to a key.
#[derive(Clone, Copy)]
struct Happened(What);

impl Field for Happened {
    ghost text_of = { λ h. what_text h.0 };

    ghost longest = { 7 };

    fn format(self, bytes: &mut [u8], at: usize, _shorts: &DecimalTable) -> usize {
        match self.0 {
            What::New => format_text(bytes, at, b"new"),
            What::Changed => format_text(bytes, at, b"changed"),
            What::Same => format_text(bytes, at, b"same"),
            What::Gone => format_text(bytes, at, b"gone"),
            What::Void => format_text(bytes, at, b"void"),
            What::Lost => format_text(bytes, at, b"lost"),
        }
    }
}

/// What brought it about.
#[derive(Clone, Copy)]
struct BroughtBy(By);

impl Field for BroughtBy {
    ghost text_of = { λ b. by_text b.0 };

    ghost longest = { 6 };

    fn format(self, bytes: &mut [u8], at: usize, _shorts: &DecimalTable) -> usize {
        let word: &[u8] = match self.0 {
            By::Rib => b"rib",
            By::Update => b"update",
            By::State => b"state",
        };
        format_text(bytes, at, word)
    }
}

/// Adds the fields of a route, or `-` in each, and the end of the line.
fn put_text_listed<T: Text, F: Unicast>(
    text: &mut T,
    layout: LayoutOf<F>,
    route: &Option<RouteRef<'_>>,
)
    ensures { Adds (T.state text.old) (T.state text.new) (listed_behind Text layout route.now) }
{
    match route {
        Some(route) => put_text_route(text, layout, route),
        None => {
            text.put_text(b"|-|-|-|-|-|-|-");
            put_line_end(text, Format::Text, layout.attributes, &KeptValues::none());
        }
    }
}

/// Adds the members of a route, or `null` in each, and the end of the line.
fn put_json_listed<T: Text, F: Unicast>(
    text: &mut T,
    layout: LayoutOf<F>,
    route: &Option<RouteRef<'_>>,
)
    ensures { Adds (T.state text.old) (T.state text.new) (listed_behind Json layout route.now) }
{
    match route {
        Some(route) => put_json_route(text, layout, route),
        None => put_no_route(text, layout),
    }
}

/// Adds the columns before those of the route.
fn put_event<T: Text, F: WrittenAddress>(
    text: &mut T,
    layout: &LayoutOf<F>,
    row: &HistoryRow<'_, Prefix<F>>,
)
    ensures { Adds (T.state text.old) (T.state text.new)
        (line_front layout.now.format (event_cells layout.now (row_state row.now))) }
{
    let cells = columns!(
        plain!(Key::Timestamp, Microseconds(row.time)),
        peer(layout, row.peer),
        word!(Key::What, Happened(row.what)),
        word!(Key::By, BroughtBy(row.by)),
        route_key!(layout, row.key)
    );
    put_front(text, layout.format, cells);
}

impl<F: WrittenAddress> Line<F> for HistoryRow<'_, Prefix<F>> {
    ghost line = { λ layout row. history_line layout (row_state row) };

    fn prefetch(&self) -> usize {
        match &self.route {
            Some(route) => route.as_bytes().len(),
            None => 0,
        }
    }

    fn put<T: Text>(&self, text: &mut T, layout: &LayoutOf<F>) {
        put_event(text, layout, self);
        match layout.format {
            Format::Text => put_text_listed(text, *layout, &self.route),
            Format::Json => put_json_listed(text, *layout, &self.route),
        }
    }
}

impl<F: WrittenAddress> RowList<F> for &HistoryRows<F> {
    ghost Row = { RowState };

    ghost rows = { λ rows. rows.now.listed };

    ghost line_of = { history_line };

    fn len(self) -> usize {
        HistoryRows::len(self)
    }

    fn prefetch(self, at: usize) -> usize {
        self.at(at).prefetch()
    }

    fn put<T: Text>(self, at: usize, text: &mut T, layout: &LayoutOf<F>) {
        self.at(at).put(text, layout);
    }
}
