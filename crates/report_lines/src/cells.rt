//! The columns of a line, in both formats: a field of text, and members of JSON (RFC 8259).

ghost use Rattle.std.specs.Prelude.{◌≡◌, ◌+◌, ◌≤◌, ◌<◌, ◌++◌, [], ◌∷◌};
ghost use Rattle.report_lines.specs.Cells.{line_as, member, or_null, quoted};
ghost use Rattle.report_lines.specs.LineParts.{front_as};
ghost use Rattle.report_lines.specs.RouteLines.{identifier, truth};
ghost use Rattle.report_lines.specs.Texts.{Adds};

use crate::buffer::put;
use crate::field::{Byte, Field, Joined};
use crate::text::Text;
use ip_text::{DecimalTable, format_byte, format_text};
use report_request::{Format, Key};

// ---- values

/// A text in quotes.
#[derive(Clone, Copy)]
pub struct Quoted<A>(pub A);

impl<A: Field> Field for Quoted<A> {
    ghost text_of = { λ q. quoted (A.text_of q.0) };

    ghost longest = { A.longest + 2 };

    #[inline(always)]
    #[tactic(auto, using(ip_text::proofs::FormatLaws::Formats_trans))]
    fn format(self, bytes: &mut [u8], at: usize, shorts: &DecimalTable) -> usize {
        let at = format_byte(bytes, at, b'"');
        let at = self.0.format(bytes, at, shorts);
        format_byte(bytes, at, b'"')
    }
}

/// `null` where there is none.
#[derive(Clone, Copy)]
pub struct OrNull<A>(pub Option<A>);

impl<A: Field> Field for OrNull<A> {
    ghost text_of = { λ o. or_null A.text_of o.0 };

    ghost longest = { 4 + A.longest };

    #[inline(always)]
    fn format(self, bytes: &mut [u8], at: usize, shorts: &DecimalTable) -> usize {
        match self.0 {
            Some(value) => value.format(bytes, at, shorts),
            None => format_text(bytes, at, b"null"),
        }
    }
}

/// Returns a text that may be absent, in quotes.
pub(crate) fn quoted_if_any<A: Field>(text: Option<A>) -> Option<Quoted<A>>
    ensures { or_null (λ q. quoted (A.text_of q.0)) result ≡ or_null (λ t. quoted (A.text_of t)) text }
{
    text.map(Quoted)
}

/// `true` or `false`.
#[derive(Clone, Copy)]
pub(crate) struct Truth(pub(crate) bool);

impl Field for Truth {
    ghost text_of = { λ t. truth t.0 };

    ghost longest = { 5 };

    #[inline(always)]
    fn format(self, bytes: &mut [u8], at: usize, _shorts: &DecimalTable) -> usize {
        if self.0 {
            format_text(bytes, at, b"true")
        } else {
            format_text(bytes, at, b"false")
        }
    }
}

/// Returns a path identifier, if it isn't 0.
pub fn identifier_if_any(id: u32) -> Option<u32>
    ensures { result ≡ identifier id }
{
    if id == 0 { None } else { Some(id) }
}

// ---- members

/// A member of an object: a key, and its value.
#[derive(Clone, Copy)]
pub struct Member<A> {
    pub key: Key,
    pub value: A,
}

impl<A: Field> Field for Member<A> {
    ghost text_of = { λ m. member m.key (A.text_of m.value) };

    ghost longest = { 19 + A.longest };

    #[inline(always)]
    #[tactic(auto, using(ip_text::proofs::FormatLaws::Formats_trans))]
    fn format(self, bytes: &mut [u8], at: usize, shorts: &DecimalTable) -> usize {
        let at = format_byte(bytes, at, b'"');
        let at = format_text(bytes, at, self.key.name().as_bytes());
        let at = format_text(bytes, at, b"\":");
        self.value.format(bytes, at, shorts)
    }
}

/// Members, with a comma between them.
#[derive(Clone, Copy)]
pub struct Comma<A, B>(pub A, pub B);

impl<A: Field, B: Field> Field for Comma<A, B> {
    ghost text_of = { λ f. A.text_of f.0 ++ 44 ∷ B.text_of f.1 };

    ghost longest = { A.longest + (1 + B.longest) };

    #[inline(always)]
    #[tactic(auto, using(ip_text::proofs::FormatLaws::Formats_trans))]
    fn format(self, bytes: &mut [u8], at: usize, shorts: &DecimalTable) -> usize {
        let at = self.0.format(bytes, at, shorts);
        let at = format_byte(bytes, at, b',');
        self.1.format(bytes, at, shorts)
    }
}

/// A whole line in JSON.
#[derive(Clone, Copy)]
struct Object<A>(A);

impl<A: Field> Field for Object<A> {
    ghost text_of = { λ o. 123 ∷ A.text_of o.0 ++ 125 ∷ 10 ∷ [] };

    ghost longest = { A.longest + 3 };

    #[inline(always)]
    #[tactic(auto, using(ip_text::proofs::FormatLaws::Formats_trans))]
    fn format(self, bytes: &mut [u8], at: usize, shorts: &DecimalTable) -> usize {
        let at = format_byte(bytes, at, b'{');
        let at = self.0.format(bytes, at, shorts);
        format_text(bytes, at, b"}\n")
    }
}

// ---- columns

/// Columns: their fields of text, and their members.
#[derive(Clone, Copy)]
pub struct Cells<A, B> {
    pub text: A,
    pub json: B,
}

/// A value in a column that has the name of its member.
#[macro_export]
macro_rules! plain {
    ($key:expr, $value:expr) => {{
        let value = $value;
        $crate::Cells {
            text: value,
            json: $crate::Member { key: $key, value },
        }
    }};
}

/// A number in a column that has the name of its member.
#[macro_export]
macro_rules! number {
    ($key:expr, $value:expr) => {
        $crate::plain!($key, $value as u128)
    };
}

/// A value that may be absent, in a column that has the name of its member.
#[macro_export]
macro_rules! if_any {
    ($key:expr, $value:expr) => {{
        let value = $value;
        $crate::Cells {
            text: value,
            json: $crate::Member {
                key: $key,
                value: $crate::OrNull(value),
            },
        }
    }};
}

/// A text in a column that has the name of its member.
#[macro_export]
macro_rules! word {
    ($key:expr, $value:expr) => {{
        let value = $value;
        $crate::Cells {
            text: value,
            json: $crate::Member {
                key: $key,
                value: $crate::Quoted(value),
            },
        }
    }};
}

/// The column of a prefix.
#[macro_export]
macro_rules! prefix {
    ($layout:expr, $prefix:expr) => {
        $crate::word!(
            report_request::Key::Prefix,
            $crate::ShownPrefix {
                prefix: $prefix,
                layout: *$layout,
            }
        )
    };
}

/// The column of a route's key.
#[macro_export]
macro_rules! route_key {
    ($layout:expr, $key:expr) => {{
        let layout = *$layout;
        let key = $key;
        let prefix = $crate::prefix!(&layout, key.prefix);
        let id = $crate::identifier_if_any(key.id);
        let id = $crate::if_any!(report_request::Key::PathId, id);
        $crate::Cells {
            text: $crate::ShownKey { key, layout },
            json: $crate::Comma(prefix.json, id.json),
        }
    }};
}

/// Columns, one before the other. That of a peer, which has two members, stands before others.
#[macro_export]
macro_rules! columns {
    (peer($layout:expr, $key:expr), $($rest:tt)+) => {{
        let layout = *$layout;
        let key = $key;
        let addr = $crate::ShownAddr {
            addr: key.addr,
            form: layout.peer_addresses,
        };
        let asn = $crate::plain!(report_request::Key::PeerAsn, key.asn);
        let ip = $crate::word!(report_request::Key::PeerIp, addr);
        let rest = $crate::columns!($($rest)+);
        $crate::Cells {
            text: ($crate::ShownPeer { key, layout }, rest.text),
            json: $crate::Comma(asn.json, $crate::Comma(ip.json, rest.json)),
        }
    }};
    ($last:expr) => { $last };
    ($first:expr, $($rest:tt)+) => {{
        let first = $first;
        let rest = $crate::columns!($($rest)+);
        $crate::Cells {
            text: (first.text, rest.text),
            json: $crate::Comma(first.json, rest.json),
        }
    }};
}

// ---- lines

/// Adds these columns at the beginning of a line.
#[inline(always)]
pub fn put_front<T: Text, A: Field, B: Field>(text: &mut T, format: Format, cells: Cells<A, B>)
    requires { (A.longest ≤ 1000) × (B.longest ≤ 1000) }
    ensures { Adds (T.state text.old) (T.state text.new)
        (front_as format (A.text_of cells.text) (B.text_of cells.json)) }
{
    match format {
        Format::Text => put(text, cells.text),
        Format::Json => put(text, Joined(Byte(b'{'), cells.json)),
    }
}

/// Adds a line of these columns.
#[inline(always)]
pub fn put_line<T: Text, A: Field, B: Field>(text: &mut T, format: Format, cells: Cells<A, B>)
    requires { (A.longest ≤ 1000) × (B.longest ≤ 1000) }
    ensures { Adds (T.state text.old) (T.state text.new)
        (line_as format (A.text_of cells.text) (B.text_of cells.json)) }
{
    match format {
        Format::Text => put(text, Joined(cells.text, Byte(b'\n'))),
        Format::Json => put(text, Object(cells.json)),
    }
}
