//! The line of a route in JSON.

ghost use Rattle.std.specs.Prelude.{◌≡◌, ◌≤◌, ◌+◌, ◌<◌, [], ◌∷◌, ◌++◌, decimal};
ghost use Rattle.ip_text.specs.Digits.{ipv4_text};
ghost use Rattle.report_request.specs.declared.format.Format.TheVariants.{Json};
ghost use Rattle.report_request.specs.declared.column.Key.TheVariants.{AsPath, OriginAsns};
ghost use Rattle.report_lines.specs.Cells.{line_by, listed, member, one_or_none, or_null, quoted};
ghost use Rattle.report_lines.specs.RouteLines.{entry_cells, no_route, attribute_cells, key_cell, next_hop_text, path_cell, path_text, peer_cell};
ghost use Rattle.report_lines.specs.LineParts.{cells_behind, line_end, line_front};
ghost use Rattle.report_lines.specs.Texts.{Adds};

use crate::buffer::put;
use crate::cells::{Comma, Truth, put_front, quoted_if_any};
use crate::field::{Byte, Field, Joined, PeerText, format_next_hop};
use crate::kept_columns::{Dotted, put_line_end, put_route_end};
use crate::route_line::put_segments;
use crate::text::Text;
use crate::{columns, if_any, plain, route_key};
use bgp_prefix::{Prefix, RouteKey};
use bgp_update::{Aggregator, FamilyMark, KeptValues, NextHop, PackedSegments, RouteRef, Unicast};
use ip_text::{DecimalTable, WrittenAddress, format_byte, format_text};
use peer_units::PeerKey;
use report_request::{Format, Key, Layout, LayoutOf};

/// A next hop in quotes, or `null`.
#[derive(Clone, Copy)]
struct HopOrNull<K = FamilyMark> {
    hop: Option<NextHop>,
    layout: Layout<K>,
}

impl<F: Unicast> Field for HopOrNull<FamilyMark<F>> {
    ghost text_of = { λ h. or_null (λ hop. quoted (next_hop_text h.layout hop)) h.hop };

    ghost longest = { 82 };

    #[inline(always)]
    #[tactic(auto, using(ip_text::proofs::FormatLaws::Formats_trans))]
    fn format(self, bytes: &mut [u8], at: usize, shorts: &DecimalTable) -> usize {
        match self.hop {
            None => format_text(bytes, at, b"null"),
            Some(hop) => {
                let at = format_byte(bytes, at, b'"');
                let at = format_next_hop(bytes, at, shorts, self.layout, Some(hop));
                format_byte(bytes, at, b'"')
            }
        }
    }
}

/// Returns the AS number of an aggregator.
fn asn_field(aggregator: Option<Aggregator>) -> Option<u32>
    ensures { or_null decimal result ≡ or_null (λ a. decimal a.asn) aggregator }
{
    aggregator.map(|aggregator| aggregator.asn)
}

/// Returns the address of an aggregator.
fn addr_field(aggregator: Option<Aggregator>) -> Option<Dotted>
    ensures { or_null (λ d. quoted (ipv4_text d.0)) result ≡ or_null (λ a. quoted (ipv4_text a.addr)) aggregator }
{
    aggregator.map(|aggregator| Dotted(aggregator.addr))
}

/// Adds a path in quotes.
fn put_quoted_path<T: Text>(text: &mut T, path: PackedSegments<'_>)
    ensures { Adds (T.state text.old) (T.state text.new) (quoted (path_text path.entry)) }
{
    put_segments(text, b'"', path);
    put(text, Byte(b'"'));
}

/// Adds a comma and the member of a path.
fn put_path_member<T: Text>(text: &mut T, path: Option<PackedSegments<'_>>)
    ensures { Adds (T.state text.old) (T.state text.new)
        (44 ∷ member AsPath (or_null (λ p. quoted (path_text p)) path.entry)) }
{
    text.put_text(b",\"as_path\":");
    match path {
        Some(path) => put_quoted_path(text, path),
        None => text.put_text(b"null"),
    }
}

/// Adds a comma and the member of the origin AS of a path.
fn put_origin_member<T: Text>(text: &mut T, origin: Option<u32>)
    ensures { Adds (T.state text.old) (T.state text.new) (44 ∷ member OriginAsns (listed (one_or_none origin))) }
{
    text.put_text(b",\"origin_asns\":[");
    match origin {
        Some(origin) => put(text, Joined(origin, Byte(b']'))),
        None => put(text, Byte(b']')),
    }
}

/// Adds the members of a path.
fn put_path_members<T: Text>(text: &mut T, route: &RouteRef<'_>)
    ensures { Adds (T.state text.old) (T.state text.new) (cells_behind Json (path_cell route.now.path ∷ [])) }
{
    put_path_member(text, route.path());
    put_origin_member(text, route.origin_as());
}

/// Adds the members that each route has behind those of its path.
fn put_attribute_members<T: Text, F: Unicast>(
    text: &mut T,
    layout: LayoutOf<F>,
    route: &RouteRef<'_>,
)
    ensures { Adds (T.state text.old) (T.state text.new) (cells_behind Json (attribute_cells layout route.now)) }
{
    let hop = HopOrNull {
        hop: route.next_hop(),
        layout,
    };
    let aggregator = route.aggregator();
    let later = Comma(
        if_any!(Key::LocalPref, route.local_pref()).json,
        Comma(
            plain!(Key::Atomic, Truth(route.atomic())).json,
            Comma(
                if_any!(Key::AggrAsn, asn_field(aggregator)).json,
                if_any!(Key::AggrIp, quoted_if_any(addr_field(aggregator))).json,
            ),
        ),
    );
    let members = Comma(
        plain!(Key::NextHop, hop).json,
        Comma(
            if_any!(Key::Origin, quoted_if_any(route.origin())).json,
            Comma(if_any!(Key::Med, route.med()).json, later),
        ),
    );
    put(text, Joined(Byte(b','), members));
}

/// Adds the members of a route and the end of the line.
pub fn put_json_route<T: Text, F: Unicast>(text: &mut T, layout: LayoutOf<F>, route: &RouteRef<'_>)
    ensures { Adds (T.state text.old) (T.state text.new)
        (cells_behind Json (path_cell route.now.path ∷ attribute_cells layout route.now)
        ++ line_end Json layout.attributes route.now.kept) }
{
    let asked = layout.attributes;
    put_path_members(text, route);
    put_attribute_members(text, layout, route);
    if asked.is_empty() {
        text.put_text(b"}\n");
    } else {
        put_route_end(text, Format::Json, asked, route);
    }
}

/// Adds the members of an absent route and the end of the line.
pub fn put_no_route<T: Text, F: Unicast>(text: &mut T, layout: LayoutOf<F>)
    ensures { Adds (T.state text.old) (T.state text.new)
        (cells_behind Json no_route ++ line_end Json layout.attributes []) }
{
    text.put_text(b",\"as_path\":null,\"origin_asns\":[],\"next_hop\":null,\"origin\":null");
    text.put_text(b",\"med\":null,\"local_pref\":null,\"atomic\":null");
    text.put_text(b",\"aggr_asn\":null,\"aggr_ip\":null");
    put_line_end(text, Format::Json, layout.attributes, &KeptValues::none());
}

/// Adds an opening brace and the members of a peer and a key.
fn put_json_front<T: Text, F: WrittenAddress>(
    text: &mut T,
    layout: &LayoutOf<F>,
    peer: PeerKey,
    key: &RouteKey<Prefix<F>>,
)
    ensures { Adds (T.state text.old) (T.state text.new)
        (line_front Json (peer_cell layout.now peer ∷ key_cell layout.now key.now ∷ [])) }
{
    let cells = columns!(peer(layout, peer), route_key!(layout, *key));
    put_front(text, Format::Json, cells);
}

/// Adds the line of a route.
pub(crate) fn put_json_row<T: Text, F: WrittenAddress>(
    text: &mut T,
    peer_text: &PeerText<F>,
    key: &RouteKey<Prefix<F>>,
    route: &RouteRef<'_>,
)
    ensures { Adds (T.state text.old) (T.state text.new) (line_by Json
        (entry_cells peer_text.now.layout peer_text.now.key key.now route.now)) }
{
    let shown = *peer_text.peer();
    put_json_front(text, &shown.layout, shown.key, key);
    put_json_route(text, shown.layout, route);
}
