//! The buffer by way of which text is made, and what is added to it.

ghost use Rattle.std.specs.Prelude.{◌≡◌, ◌+◌, ◌-◌, ◌*◌, ◌<◌, ◌≤◌, [], ◌∷◌, ◌++◌, true, length};
ghost use Rattle.std.specs.List.{between};
ghost use Rattle.report_request.specs.declared.format.Format.TheVariants.{Text};
ghost use Rattle.report_lines.specs.Fields.{numbers_text};
ghost use Rattle.report_lines.specs.LineParts.{attribute_fields, line_beginning, line_end};
ghost use Rattle.report_lines.specs.Texts.{empty_buffer, Adds};

use crate::field::{Field, PeerText, ShownPeerOf};
use crate::kept_columns::put_route_end;
use crate::numbers::{NUMBERS_AT_ONCE, format_numbers};
use crate::route_line::{format_attributes, format_beginning};
use crate::text::Text;
use bgp_prefix::{Prefix, RouteKey};
use bgp_update::{PackedSegment, RouteRef, Unicast};
use ip_text::{DecimalTable, WrittenAddress, format_byte};
use report_request::{Format, LayoutOf};
use std::marker::Model;

/// The maximum number of pending bytes.
pub const CAPACITY: usize = 65_536;

/// Pending bytes, and whether those before them were lost.
#[derive(Drop)]
pub struct TextBuffer {
    bytes: [u8; CAPACITY],
    len: usize,
    failed: bool,
    shorts: DecimalTable,
}

impl Model for TextBuffer {
    ghost use Rattle.std.specs.Prelude.{◌≤◌, take};
    ghost use Rattle.report_lines.specs.Texts.{BufferState};
    ghost use Rattle.report_lines.specs.declared.buffer.TheConstants.{CAPACITY};

    ghost Value = { BufferState };

    ghost view = { λ b. record { waiting = take b.len b.bytes; failed = b.failed } };

    ghost invariant = { λ b. b.len ≤ CAPACITY };
}

impl TextBuffer {
    /// Makes an empty buffer, before any write.
    pub fn new() -> TextBuffer
        ensures { result ≡ empty_buffer }
    {
        TextBuffer {
            bytes: [0; CAPACITY],
            len: 0,
            failed: false,
            shorts: DecimalTable::new(),
        }
    }

    /// Drops the pending bytes, and forgets that any were lost.
    pub fn clear(&mut self)
        ensures { self.new ≡ empty_buffer }
    {
        self.len = 0;
        self.failed = false;
    }

    /// Drops the pending bytes: they are lost.
    pub(crate) fn fail(&mut self)
        ensures { self.new ≡ record { waiting = []; failed = true } }
    {
        self.len = 0;
        self.failed = true;
    }

    /// The pending bytes.
    pub fn as_slice(&self) -> &[u8]
        ensures { result.now ≡ self.now.waiting }
    {
        &self.bytes[..self.len]
    }

    /// The number of bytes that may still be appended.
    #[inline]
    pub fn room(&self) -> usize
        ensures { result + length self.now.waiting ≡ CAPACITY }
    {
        CAPACITY - self.len
    }

    /// Whether bytes were lost.
    #[inline]
    pub fn has_failed(&self) -> bool
        ensures { result ≡ self.now.failed }
    {
        self.failed
    }

    /// Copies the bytes after the pending ones.
    pub(crate) fn append(&mut self, bytes: &[u8])
        requires { length self.old.waiting + length bytes.now ≤ CAPACITY }
        ensures { self.new ≡ record { waiting = self.old.waiting ++ bytes.now; failed = self.old.failed } }
    {
        let end = self.len + bytes.len();
        self.bytes[self.len..end].copy_from_slice(bytes);
        self.len = end;
    }

    /// Makes a peer's text, which `put_peer_and_key` then adds to many lines.
    pub fn peer_text<F: Unicast>(&self, peer: &ShownPeerOf<F>) -> PeerText<F>
        ensures { result ≡ peer.now }
    {
        PeerText::new(peer, &self.shorts)
    }
}

/// The most bytes that are placed after one check for room, and one more.
pub const PIECE_BYTES: usize = 1_024;

/// Adds the text of a field.
pub fn put<T: Text, A: Field>(text: &mut T, field: A)
    requires { A.longest < PIECE_BYTES }
    ensures { Adds (T.state text.old) (T.state text.new) (A.text_of field) }
{
    text.make_room(PIECE_BYTES);
    let buffer = text.buffer_mut();
    buffer.len = field.format(&mut buffer.bytes, buffer.len, &buffer.shorts);
}

/// Adds what a line begins with: a peer, a bar and a key.
#[inline(always)]
pub(crate) fn put_peer_and_key<T: Text, F: WrittenAddress>(
    text: &mut T,
    peer: &PeerText<F>,
    key: &RouteKey<Prefix<F>>,
)
    ensures { Adds (T.state text.old) (T.state text.new) (line_beginning peer.now key.now) }
{
    text.make_room(PIECE_BYTES);
    let buffer = text.buffer_mut();
    buffer.len = format_beginning(&mut buffer.bytes, buffer.len, &buffer.shorts, peer, key);
}

/// Adds what a line has after the path of its route. It is told that further attributes are seldom asked for.
#[inline(always)]
pub(crate) fn put_attributes<T: Text, F: Unicast>(
    text: &mut T,
    layout: LayoutOf<F>,
    route: &RouteRef<'_>,
)
    ensures { Adds (T.state text.old) (T.state text.new)
        (attribute_fields layout route.now ++ line_end Text layout.attributes route.now.kept) }
{
    let asked = layout.attributes;
    text.make_room(PIECE_BYTES);
    let buffer = text.buffer_mut();
    let at = format_attributes(&mut buffer.bytes, buffer.len, &buffer.shorts, layout, route);
    if asked.is_empty() {
        buffer.len = format_byte(&mut buffer.bytes, at, b'\n');
    } else {
        buffer.len = at;
        put_route_end(text, Format::Text, asked, route);
    }
}

/// Adds `segment[from..to]` in decimal, `before` in front of the first number and `separator` in front of each other.
/// They are few, so that one check for room covers them.
#[inline(always)]
pub(crate) fn put_some_numbers<T: Text>(
    text: &mut T,
    before: u8,
    separator: u8,
    segment: &PackedSegment<'_>,
    from: usize,
    to: usize,
)
    requires { (from < to) × (to ≤ from + NUMBERS_AT_ONCE) × (to ≤ length segment.now.numbers) }
    ensures { Adds (T.state text.old) (T.state text.new)
        (before ∷ numbers_text separator (between from to segment.now.numbers)) }
{
    text.make_room(13 * (to - from) + 1);
    let buffer = text.buffer_mut();
    buffer.len = format_numbers(
        &mut buffer.bytes,
        buffer.len,
        &buffer.shorts,
        before,
        separator,
        segment,
        from,
        to,
    );
}
