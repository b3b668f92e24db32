//! IPv6 addresses that are written into a block of bytes, in full or short: each call returns the position after what
//! it wrote.

ghost use Rattle.std.specs.Prelude.{◌≡◌, ◌+◌, ◌-◌, ◌*◌, ◌<◌, ◌≤◌, [], ◌∷◌, false, length, take};
ghost use Rattle.std.specs.Fmt.{digit_glyph};
ghost use Rattle.ip_text.specs.Formats.{Formats};
ghost use Rattle.ip_text.specs.Digits.{digits_in, groups_of};
ghost use Rattle.ip_text.specs.Ipv6Texts.{full_ipv6_text, groups_text, hexadecimal, ipv6_text, short_ipv6_text};

use crate::address_form::AddressForm;
use crate::format::{format_byte, format_front, format_text};
use crate::hexadecimal::{HexTexts, hexadecimal_digit};
use crate::short::DecimalTable;

// ---- in full

/// Writes four hexadecimal digits.
fn format_full_group(bytes: &mut [u8], at: usize, group: u16) -> usize
    requires { at + 4 ≤ length bytes.old }
    ensures { Formats bytes.old at bytes.new result 4 (digits_in (digit_glyph false) 16 4 group) }
{
    let digits = [
        hexadecimal_digit((group / 4_096 % 16) as u8),
        hexadecimal_digit((group / 256 % 16) as u8),
        hexadecimal_digit((group / 16 % 16) as u8),
        hexadecimal_digit((group % 16) as u8),
    ];
    format_text(bytes, at, &digits)
}

/// Writes an address as eight groups of four digits.
#[inline(never)]
fn format_ipv6_full(bytes: &mut [u8], at: usize, addr: u128) -> usize
    requires { at + 39 ≤ length bytes.old }
    ensures { Formats bytes.old at bytes.new result 39 (full_ipv6_text addr) }
{
    let at = format_full_group(bytes, at, ((addr >> 112) % 65_536) as u16);
    let at = format_byte(bytes, at, b':');
    let at = format_full_group(bytes, at, ((addr >> 96) % 65_536) as u16);
    let at = format_byte(bytes, at, b':');
    let at = format_full_group(bytes, at, ((addr >> 80) % 65_536) as u16);
    let at = format_byte(bytes, at, b':');
    let at = format_full_group(bytes, at, ((addr >> 64) % 65_536) as u16);
    let at = format_byte(bytes, at, b':');
    let at = format_full_group(bytes, at, ((addr >> 48) % 65_536) as u16);
    let at = format_byte(bytes, at, b':');
    let at = format_full_group(bytes, at, ((addr >> 32) % 65_536) as u16);
    let at = format_byte(bytes, at, b':');
    let at = format_full_group(bytes, at, ((addr >> 16) % 65_536) as u16);
    let at = format_byte(bytes, at, b':');
    format_full_group(bytes, at, (addr % 65_536) as u16)
}

// ---- short

/// Writes a byte in hexadecimal.
#[inline(always)]
fn format_hexadecimal(bytes: &mut [u8], at: usize, texts: &HexTexts, byte: u8) -> usize
    requires { at + 2 ≤ length bytes.old }
    ensures { Formats bytes.old at bytes.new result 2 (hexadecimal byte) }
{
    let text = texts.text(byte);
    format_front(bytes, at, &text.bytes, text.len as usize)
}

/// Writes a group in hexadecimal.
#[inline(always)]
fn format_group(bytes: &mut [u8], at: usize, texts: &HexTexts, group: u16) -> usize
    requires { at + 4 ≤ length bytes.old }
    ensures { Formats bytes.old at bytes.new result 4 (hexadecimal group) }
{
    if group < 256 {
        return format_hexadecimal(bytes, at, texts, group as u8);
    }
    let high = format_hexadecimal(bytes, at, texts, (group / 256) as u8);
    let low = texts.text((group % 256) as u8);
    format_text(bytes, high, &low.digits)
}

/// Writes groups with colons between them.
fn format_groups(bytes: &mut [u8], at: usize, texts: &HexTexts, groups: &[u16]) -> usize
    requires { at + (5 * length groups.now - 1) ≤ length bytes.old }
    ensures { Formats bytes.old at bytes.new result (5 * length groups.now - 1) (groups_text groups.now) }
{
    match groups {
        [] => at,
        [last] => format_group(bytes, at, texts, *last),
        [first, rest @ ..] => {
            let at = format_group(bytes, at, texts, *first);
            let at = format_byte(bytes, at, b':');
            format_groups(bytes, at, texts, rest)
        }
    }
}

/// The eight groups of an address.
#[inline(always)]
fn groups_of_address(addr: u128) -> [u16; 8]
    ensures { result ≡ groups_of 65536 8 addr }
{
    [
        ((addr >> 112) % 65_536) as u16,
        ((addr >> 96) % 65_536) as u16,
        ((addr >> 80) % 65_536) as u16,
        ((addr >> 64) % 65_536) as u16,
        ((addr >> 48) % 65_536) as u16,
        ((addr >> 32) % 65_536) as u16,
        ((addr >> 16) % 65_536) as u16,
        (addr % 65_536) as u16,
    ]
}

/// Writes an address in the short form.
#[inline(never)]
fn format_ipv6_short(bytes: &mut [u8], at: usize, texts: &HexTexts, addr: u128) -> usize
    requires { at + 39 ≤ length bytes.old }
    ensures { Formats bytes.old at bytes.new result 39 (short_ipv6_text addr) }
{
    let groups = groups_of_address(addr);
    let run = texts.runs.longest(&groups);
    let start = run.start as usize;
    let len = run.len as usize;
    if len < 2 {
        return format_groups(bytes, at, texts, &groups);
    }
    let at = format_groups(bytes, at, texts, &groups[..start]);
    let at = format_text(bytes, at, b"::");
    format_groups(bytes, at, texts, &groups[start + len..])
}

/// Writes an address in a form.
#[inline(always)]
pub fn format_ipv6(
    bytes: &mut [u8],
    at: usize,
    shorts: &DecimalTable,
    form: AddressForm,
    addr: u128,
) -> usize
    requires { at + 39 ≤ length bytes.old }
    ensures { Formats bytes.old at bytes.new result 39 (ipv6_text form addr) }
{
    match form {
        AddressForm::Full => format_ipv6_full(bytes, at, addr),
        AddressForm::Short => format_ipv6_short(bytes, at, &shorts.hexadecimal, addr),
    }
}
