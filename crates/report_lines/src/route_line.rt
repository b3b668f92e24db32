//! The line of a route.

ghost use Rattle.std.specs.Prelude.{◌≡◌, ◌≤◌, ◌+◌, ◌<◌, [], ◌∷◌, ◌++◌, length};
ghost use Rattle.report_lines.specs.Texts.{Adds};
ghost use Rattle.ip_text.specs.Formats.{Formats};
ghost use Rattle.report_lines.specs.Fields.{field, numbers_text};
ghost use Rattle.report_request.specs.declared.format.Format.{Format as LineFormat};
ghost use Rattle.report_request.specs.declared.format.Format.TheVariants.{Text, Json};
ghost use Rattle.report_lines.specs.RouteLines.{entry_line, kind_text, path_text};
ghost use Rattle.report_lines.specs.LineParts.{attribute_fields, line_beginning, line_end};

use crate::buffer::{put, put_attributes, put_peer_and_key};
use crate::field::{Atomic, Byte, Field, PeerText, ShownKey, format_next_hop};
use crate::json_line::put_json_row;
use crate::numbers::put_segment_numbers;
use crate::text::Text;
use bgp_prefix::{Prefix, RouteKey};
use bgp_update::{PackedSegment, PackedSegments, RouteRef, SegmentKind, Unicast};
use ip_text::{DecimalTable, WrittenAddress, format_byte};
use report_request::{Format, LayoutOf};

/// Writes what a line begins with: a peer, a bar and a key.
#[inline(always)]
#[tactic(auto, using(ip_text::proofs::FormatLaws::Formats_trans))]
pub(crate) fn format_beginning<F: WrittenAddress>(
    bytes: &mut [u8],
    at: usize,
    shorts: &DecimalTable,
    peer: &PeerText<F>,
    key: &RouteKey<Prefix<F>>,
) -> usize
    requires { at + (54 + (F.MOST_BYTES + 4 + 13)) < length bytes.old }
    ensures { Formats bytes.old at bytes.new result (54 + (F.MOST_BYTES + 4 + 13)) (line_beginning peer.now key.now) }
{
    let at = peer.format(bytes, at);
    let shown = ShownKey {
        key: *key,
        layout: peer.layout(),
    };
    shown.format(bytes, at, shorts)
}

/// Writes the fields that each route has after the path, a bar before each. Each field is written as soon as it is
/// read, so that none of them is stored in between.
#[inline(always)]
pub(crate) fn format_attributes<F: Unicast>(
    bytes: &mut [u8],
    at: usize,
    shorts: &DecimalTable,
    layout: LayoutOf<F>,
    route: &RouteRef<'_>,
) -> usize
    requires { at + 158 < length bytes.old }
    ensures { Formats bytes.old at bytes.new result 158 (attribute_fields layout route.now) }
{
    let at = format_byte(bytes, at, b'|');
    let at = format_next_hop(bytes, at, shorts, layout, route.next_hop());
    let at = format_byte(bytes, at, b'|');
    let at = route.origin().format(bytes, at, shorts);
    let at = format_byte(bytes, at, b'|');
    let at = route.med().format(bytes, at, shorts);
    let at = format_byte(bytes, at, b'|');
    let at = route.local_pref().format(bytes, at, shorts);
    let at = format_byte(bytes, at, b'|');
    let at = Atomic(route.atomic()).format(bytes, at, shorts);
    let at = format_byte(bytes, at, b'|');
    route.aggregator().format(bytes, at, shorts)
}

/// Adds a byte and a segment that is no sequence.
#[inline(never)]
fn put_enclosed<T: Text>(
    text: &mut T,
    before: u8,
    opening: u8,
    separator: u8,
    segment: &PackedSegment<'_>,
    closing: u8,
)
    ensures { Adds (T.state text.old) (T.state text.new)
        (before ∷ opening ∷ numbers_text separator segment.now.numbers ++ closing ∷ []) }
{
    put(text, Byte(before));
    put_segment_numbers(text, opening, separator, segment);
    put(text, Byte(closing));
}

/// Adds a byte and a segment.
#[inline(always)]
fn put_segment<T: Text>(text: &mut T, before: u8, segment: &PackedSegment<'_>)
    ensures { Adds (T.state text.old) (T.state text.new) (before ∷ kind_text segment.now.kind segment.now.numbers) }
{
    match segment.kind() {
        SegmentKind::AsSequence => put_segment_numbers(text, before, b' ', segment),
        SegmentKind::AsSet => put_enclosed(text, before, b'{', b',', segment, b'}'),
        SegmentKind::ConfedSequence => put_enclosed(text, before, b'(', b' ', segment, b')'),
        SegmentKind::ConfedSet => put_enclosed(text, before, b'[', b',', segment, b']'),
    }
}

/// Adds a space and a segment.
#[inline(never)]
fn put_later_segment<T: Text>(text: &mut T, segment: &PackedSegment<'_>)
    ensures { Adds (T.state text.old) (T.state text.new) (32 ∷ kind_text segment.now.kind segment.now.numbers) }
{
    put_segment(text, b' ', segment);
}

/// Adds a byte and the segments of a path. Most paths have one.
#[inline(always)]
pub(crate) fn put_segments<T: Text>(text: &mut T, before: u8, path: PackedSegments<'_>)
    ensures { Adds (T.state text.old) (T.state text.new) (before ∷ path_text path.entry) }
{
    let mut rest = path;
    let Some(first) = rest.next() else {
        return put(text, Byte(before));
    };
    put_segment(text, before, &first);
    while let Some(segment) = rest.next() {
        put_later_segment(text, &segment);
    }
}

/// Adds a bar and a path.
#[inline(always)]
fn put_path<T: Text>(text: &mut T, path: Option<PackedSegments<'_>>)
    ensures { Adds (T.state text.old) (T.state text.new) (124 ∷ field path_text path.entry) }
{
    match path {
        Some(path) => put_segments(text, b'|', path),
        None => text.put_text(b"|-"),
    }
}

/// Adds what a line has after the key: the fields of a route, each behind a bar, and the end of the line.
pub fn put_text_route<T: Text, F: Unicast>(text: &mut T, layout: LayoutOf<F>, route: &RouteRef<'_>)
    ensures { Adds (T.state text.old) (T.state text.new)
        ((124 ∷ field path_text route.now.path)
        ++ (attribute_fields layout route.now ++ line_end Text layout.attributes route.now.kept)) }
{
    put_path(text, route.path());
    put_attributes(text, layout, route);
}

/// A format, chosen before the lines of many routes are made.
pub trait RowFormat {
    ghost format: { LineFormat };

    /// Adds the line of a route.
    fn put_row<T: Text, F: WrittenAddress>(
        text: &mut T,
        peer: &PeerText<F>,
        key: &RouteKey<Prefix<F>>,
        route: &RouteRef<'_>,
    )
        requires { peer.now.layout.format ≡ format }
        ensures { Adds (T.state text.old) (T.state text.new)
            (entry_line peer.now.layout peer.now.key key.now route.now) };
}

/// Fields with `|` between them.
pub struct AsText;

impl RowFormat for AsText {
    ghost format = { Text };

    #[inline(always)]
    fn put_row<T: Text, F: WrittenAddress>(
        text: &mut T,
        peer: &PeerText<F>,
        key: &RouteKey<Prefix<F>>,
        route: &RouteRef<'_>,
    ) {
        put_peer_and_key(text, peer, key);
        put_path(text, route.path());
        put_attributes(text, peer.layout(), route);
    }
}

/// A JSON object.
pub struct AsJson;

impl RowFormat for AsJson {
    ghost format = { Json };

    fn put_row<T: Text, F: WrittenAddress>(
        text: &mut T,
        peer: &PeerText<F>,
        key: &RouteKey<Prefix<F>>,
        route: &RouteRef<'_>,
    ) {
        put_json_row(text, peer, key, route);
    }
}

/// Adds the line of a route.
pub fn put_row<T: Text, F: WrittenAddress>(
    text: &mut T,
    peer: &PeerText<F>,
    key: &RouteKey<Prefix<F>>,
    route: &RouteRef<'_>,
)
    ensures { Adds (T.state text.old) (T.state text.new)
        (entry_line peer.now.layout peer.now.key key.now route.now) }
{
    match peer.layout().format {
        Format::Text => AsText::put_row(text, peer, key, route),
        Format::Json => AsJson::put_row(text, peer, key, route),
    }
}
