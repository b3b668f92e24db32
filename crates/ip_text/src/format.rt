//! Bytes, numbers and addresses that are written into a block of bytes: each call returns the position after what it
//! wrote. The position is a separate value, so it stays in a register.

ghost use Rattle.std.specs.Prelude.{◌≡◌, ◌+◌, ◌<◌, ◌≤◌, [], ◌∷◌, decimal, length, take};
ghost use Rattle.ip_text.specs.Formats.{Formats};
ghost use Rattle.ip_text.specs.Digits.{decimal_glyph, digits_in, ipv4_text};

use crate::short::DecimalTable;

/// Writes a byte.
#[inline(always)]
pub fn format_byte(bytes: &mut [u8], at: usize, byte: u8) -> usize
    requires { at < length bytes.old }
    ensures { Formats bytes.old at bytes.new result 1 (byte ∷ []) }
{
    bytes[at] = byte;
    at + 1
}

/// Writes a text.
#[inline(always)]
pub fn format_text(bytes: &mut [u8], at: usize, text: &[u8]) -> usize
    requires { at + length text.now ≤ length bytes.old }
    ensures { Formats bytes.old at bytes.new result (length text.now) text.now }
{
    let end = at + text.len();
    bytes[at..end].copy_from_slice(text);
    end
}

/// Writes the first bytes of a block, where the whole block fits. Copying a block of known length is faster
/// than copying its leading part.
#[inline(always)]
pub fn format_front(bytes: &mut [u8], at: usize, block: &[u8], count: usize) -> usize
    requires { (count ≤ length block.now) × (at + length block.now ≤ length bytes.old) }
    ensures { Formats bytes.old at bytes.new result count (take count block.now) }
{
    let end = at + block.len();
    bytes[at..end].copy_from_slice(block);
    at + count
}

/// Writes a number of at most three digits.
#[inline(always)]
pub fn format_short(bytes: &mut [u8], at: usize, shorts: &DecimalTable, number: u32) -> usize
    requires { (number < 1000) × (at + 4 ≤ length bytes.old) }
    ensures { Formats bytes.old at bytes.new result 3 (decimal number) }
{
    let text = shorts.text(number);
    format_front(bytes, at, &text.bytes, text.len as usize)
}

/// Writes the three digits of a number that has no more.
#[inline(always)]
pub fn format_three(bytes: &mut [u8], at: usize, shorts: &DecimalTable, number: u32) -> usize
    requires { (number < 1000) × (at + 3 ≤ length bytes.old) }
    ensures { Formats bytes.old at bytes.new result 3 (digits_in decimal_glyph 10 3 number) }
{
    let text = shorts.text(number);
    format_text(bytes, at, &text.digits)
}

/// Writes a number of at most six digits.
#[inline(always)]
pub fn format_six(bytes: &mut [u8], at: usize, shorts: &DecimalTable, number: u32) -> usize
    requires { (number < 1000000) × (at + 7 ≤ length bytes.old) }
    ensures { Formats bytes.old at bytes.new result 6 (decimal number) }
{
    if number < 1_000 {
        return format_short(bytes, at, shorts, number);
    }
    let high = format_short(bytes, at, shorts, number / 1_000);
    format_three(bytes, high, shorts, number % 1_000)
}

/// Writes a number of more than six digits.
#[inline(never)]
fn format_long(bytes: &mut [u8], at: usize, shorts: &DecimalTable, number: u32) -> usize
    requires { (1000000 ≤ number) × (at + 13 ≤ length bytes.old) }
    ensures { Formats bytes.old at bytes.new result 12 (decimal number) }
{
    let high = format_six(bytes, at, shorts, number / 1_000_000);
    let middle = format_three(bytes, high, shorts, number / 1_000 % 1_000);
    format_three(bytes, middle, shorts, number % 1_000)
}

/// Writes a number in decimal.
#[inline(always)]
pub fn format_number(bytes: &mut [u8], at: usize, shorts: &DecimalTable, number: u32) -> usize
    requires { at + 13 ≤ length bytes.old }
    ensures { Formats bytes.old at bytes.new result 12 (decimal number) }
{
    if number < 1_000_000 {
        return format_six(bytes, at, shorts, number);
    }
    format_long(bytes, at, shorts, number)
}

/// Writes an address in dotted decimal.
#[inline(always)]
pub fn format_ipv4(bytes: &mut [u8], at: usize, shorts: &DecimalTable, addr: u32) -> usize
    requires { at + 16 ≤ length bytes.old }
    ensures { Formats bytes.old at bytes.new result 15 (ipv4_text addr) }
{
    let first = format_short(bytes, at, shorts, addr / 16_777_216 % 256);
    let first = format_byte(bytes, first, b'.');
    let second = format_short(bytes, first, shorts, addr / 65_536 % 256);
    let second = format_byte(bytes, second, b'.');
    let third = format_short(bytes, second, shorts, addr / 256 % 256);
    let third = format_byte(bytes, third, b'.');
    format_short(bytes, third, shorts, addr % 256)
}
