//! The columns of the attributes that a route keeps where they are asked for.

ghost use Rattle.std.specs.Prelude.{◌≡◌, ◌≤◌, ◌∷◌, ◌++◌, [], decimal, length};
ghost use Rattle.std.specs.List.{flat_map};
ghost use Rattle.bgp_update.specs.KeptAttributes.{kept_form};
ghost use Rattle.report_request.specs.declared.format.Format.TheVariants.{Text, Json};
ghost use Rattle.report_lines.specs.KeptTexts.{administrated_text, byte_digits, cell_if_asked, extended_text, hexadecimal_text, kept_cell, kept_cells, kept_json, kept_text, member_text, shown_member};
ghost use Rattle.report_lines.specs.LineParts.{cells_behind, line_end};
ghost use Rattle.report_lines.specs.Texts.{Adds};
ghost use Rattle.ip_text.specs.Digits.{ipv4_text};

use crate::buffer::put;
use crate::field::{Byte, Field, Joined};
use crate::text::Text;
use bgp_update::{AttributeSet, KeptAttribute, KeptValues, RouteRef};
use byteorder::{BigEndian, ByteOrder};
use ip_text::{DecimalTable, format_byte, format_ipv4, hexadecimal_digit};
use report_request::{Format, attribute_name};

/// An IPv4 address.
#[derive(Clone, Copy)]
pub(crate) struct Dotted(pub(crate) u32);

impl Field for Dotted {
    ghost text_of = { λ d. ipv4_text d.0 };

    ghost longest = { 15 };

    fn format(self, bytes: &mut [u8], at: usize, shorts: &DecimalTable) -> usize {
        format_ipv4(bytes, at, shorts, self.0)
    }
}

/// A byte as two hexadecimal digits.
#[derive(Clone, Copy)]
struct TwoDigits(u8);

impl Field for TwoDigits {
    ghost text_of = { λ b. byte_digits b.0 };

    ghost longest = { 2 };

    #[tactic(auto, using(ip_text::proofs::FormatLaws::Formats_trans))]
    fn format(self, bytes: &mut [u8], at: usize, _shorts: &DecimalTable) -> usize {
        let at = format_byte(bytes, at, hexadecimal_digit(self.0 / 16));
        format_byte(bytes, at, hexadecimal_digit(self.0 % 16))
    }
}

/// Adds a field, a colon and a number.
fn put_pair<T: Text, A: Field>(text: &mut T, first: A, second: u32)
    requires { A.longest ≤ 100 }
    ensures { Adds (T.state text.old) (T.state text.new) (A.text_of first ++ 58 ∷ decimal second) }
{
    put(text, Joined(first, Joined(Byte(b':'), second)));
}

/// Adds bytes in hexadecimal.
fn put_hexadecimal<T: Text>(text: &mut T, bytes: &[u8])
    ensures { Adds (T.state text.old) (T.state text.new) (hexadecimal_text bytes.now) }
{
    text.put_text(b"0x");
    for byte in bytes {
        put(text, TwoDigits(*byte));
    }
}

/// Adds an extended community of this name.
fn put_administrated<T: Text>(text: &mut T, name: &[u8], member: &[u8])
    requires { length member.now ≡ 8 }
    ensures { Adds (T.state text.old) (T.state text.new) (administrated_text name.now member.now) }
{
    match member[0] {
        0 => {
            text.put_text(name);
            let asn = BigEndian::read_u16(&member[2..]) as u32;
            put_pair(text, asn, BigEndian::read_u32(&member[4..]));
        }
        1 => {
            text.put_text(name);
            let addr = Dotted(BigEndian::read_u32(&member[2..]));
            put_pair(text, addr, BigEndian::read_u16(&member[6..]) as u32);
        }
        2 => {
            text.put_text(name);
            let asn = BigEndian::read_u32(&member[2..]);
            put_pair(text, asn, BigEndian::read_u16(&member[6..]) as u32);
        }
        _ => put_hexadecimal(text, member),
    }
}

/// Adds an extended community.
fn put_extended<T: Text>(text: &mut T, member: &[u8])
    requires { length member.now ≡ 8 }
    ensures { Adds (T.state text.old) (T.state text.new) (extended_text member.now) }
{
    match member[1] {
        2 => put_administrated(text, b"rt:", member),
        3 => put_administrated(text, b"ro:", member),
        _ => put_hexadecimal(text, member),
    }
}

/// Adds a member of an attribute's value.
#[tactic(auto, using(std::proofs::lemmas::List::take_rest))]
fn put_member<T: Text>(text: &mut T, attribute: KeptAttribute, member: &[u8])
    requires { length member.now ≡ (kept_form attribute).size }
    ensures { Adds (T.state text.old) (T.state text.new) (member_text attribute member.now) }
{
    match attribute {
        KeptAttribute::Communities => {
            let asn = BigEndian::read_u16(member) as u32;
            put_pair(text, asn, BigEndian::read_u16(&member[2..]) as u32);
        }
        KeptAttribute::ExtendedCommunities => put_extended(text, member),
        KeptAttribute::LargeCommunities => {
            let asn = BigEndian::read_u32(member);
            let data = Joined(
                BigEndian::read_u32(&member[4..]),
                Joined(Byte(b':'), BigEndian::read_u32(&member[8..])),
            );
            put(text, Joined(asn, Joined(Byte(b':'), data)));
        }
        KeptAttribute::OriginatorId => put(text, Dotted(BigEndian::read_u32(member))),
        KeptAttribute::ClusterList => put(text, Dotted(BigEndian::read_u32(member))),
        KeptAttribute::OnlyToCustomer => put(text, BigEndian::read_u32(member)),
    }
}

/// Adds a member of an attribute's value, in quotes or plain.
fn put_shown_member<T: Text>(text: &mut T, quotes: bool, attribute: KeptAttribute, member: &[u8])
    requires { length member.now ≡ (kept_form attribute).size }
    ensures { Adds (T.state text.old) (T.state text.new) (shown_member quotes attribute member.now) }
{
    if !quotes {
        return put_member(text, attribute, member);
    }
    put(text, Byte(b'"'));
    put_member(text, attribute, member);
    put(text, Byte(b'"'));
}

/// Adds the members of a value, with a byte between them.
fn put_value<T: Text>(
    text: &mut T,
    quotes: bool,
    separator: u8,
    attribute: KeptAttribute,
    value: &[u8],
)
    ensures { Adds (T.state text.old) (T.state text.new) (kept_text quotes separator attribute value.now) }
{
    let size = attribute.member_size();
    let count = value.len() / size;
    if count == 0 {
        return;
    }
    put_shown_member(text, quotes, attribute, &value[..size]);
    let mut rest = &value[size..];
    for i in 1..count {
        put(text, Byte(separator));
        put_shown_member(text, quotes, attribute, &rest[..size]);
        rest = &rest[size..];
    }
}

/// Adds a value in JSON.
fn put_json_value<T: Text>(text: &mut T, attribute: KeptAttribute, value: &[u8])
    ensures { Adds (T.state text.old) (T.state text.new) (kept_json attribute value.now) }
{
    match attribute {
        KeptAttribute::OriginatorId => put_value(text, true, b',', attribute, value),
        KeptAttribute::OnlyToCustomer => put_value(text, false, b',', attribute, value),
        _ => {
            put(text, Byte(b'['));
            put_value(text, true, b',', attribute, value);
            put(text, Byte(b']'));
        }
    }
}

/// Adds a bar and the column of an attribute.
fn put_column<T: Text>(text: &mut T, kept: &KeptValues<'_>, attribute: KeptAttribute)
    ensures { Adds (T.state text.old) (T.state text.new) (cells_behind Text (kept_cell kept.now attribute ∷ [])) }
{
    put(text, Byte(b'|'));
    match kept.value(attribute) {
        Some(value) => put_value(text, false, b' ', attribute, value),
        None => put(text, Byte(b'-')),
    }
}

/// Adds a comma and the member of an attribute.
fn put_kept_member<T: Text>(text: &mut T, kept: &KeptValues<'_>, attribute: KeptAttribute)
    ensures { Adds (T.state text.old) (T.state text.new) (cells_behind Json (kept_cell kept.now attribute ∷ [])) }
{
    text.put_text(b",\"");
    text.put_text(attribute_name(attribute).as_bytes());
    text.put_text(b"\":");
    match kept.value(attribute) {
        Some(value) => put_json_value(text, attribute, value),
        None => text.put_text(b"null"),
    }
}

/// Adds the column of an attribute, if it is asked for.
fn put_if_asked<T: Text>(
    text: &mut T,
    format: Format,
    asked: AttributeSet,
    kept: &KeptValues<'_>,
    attribute: KeptAttribute,
)
    ensures { Adds (T.state text.old) (T.state text.new)
        (cells_behind format (cell_if_asked asked kept.now attribute)) }
{
    if !asked.has(attribute) {
        return;
    }
    match format {
        Format::Text => put_column(text, kept, attribute),
        Format::Json => put_kept_member(text, kept, attribute),
    }
}

/// Adds the columns of those of these attributes that are asked for.
fn put_each_column<T: Text>(
    text: &mut T,
    format: Format,
    asked: AttributeSet,
    kept: &KeptValues<'_>,
    attributes: &[KeptAttribute],
)
    ensures { Adds (T.state text.old) (T.state text.new)
        (flat_map (λ a. cells_behind format (cell_if_asked asked kept.now a)) attributes.now) }
{
    for attribute in attributes {
        put_if_asked(text, format, asked, kept, *attribute);
    }
}

/// Adds the columns of the attributes that are asked for.
fn put_columns<T: Text>(text: &mut T, format: Format, asked: AttributeSet, kept: &KeptValues<'_>)
    ensures { Adds (T.state text.old) (T.state text.new) (cells_behind format (kept_cells asked kept.now)) }
{
    put_each_column(text, format, asked, kept, &KeptAttribute::ALL);
}

/// Adds what a line has after the fields that each route has: the columns of the attributes that are asked for, and the
/// end of the line.
pub fn put_line_end<T: Text>(
    text: &mut T,
    format: Format,
    asked: AttributeSet,
    kept: &KeptValues<'_>,
)
    ensures { Adds (T.state text.old) (T.state text.new) (line_end format asked kept.now) }
{
    put_columns(text, format, asked, kept);
    match format {
        Format::Text => put(text, Byte(b'\n')),
        Format::Json => text.put_text(b"}\n"),
    }
}

/// The same of a route.
#[cold]
pub(crate) fn put_route_end<T: Text>(
    text: &mut T,
    format: Format,
    asked: AttributeSet,
    route: &RouteRef<'_>,
)
    ensures { Adds (T.state text.old) (T.state text.new) (line_end format asked route.now.kept) }
{
    match route.kept() {
        Some(kept) => put_line_end(text, format, asked, &kept),
        None => put_line_end(text, format, asked, &KeptValues::none()),
    }
}
