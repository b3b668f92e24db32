//! A number by its leading octets.

ghost use Rattle.std.specs.Prelude.{◌≡◌, ℕ, ◌≤◌, length, slice_index};
ghost use Rattle.byteorder.specs.Endian.{big_number};

/// Returns the number whose leading bytes these are, at most four.
#[inline]
pub fn leading_octets_number(octets: &[u8]) -> u32
    requires { length octets.now ≤ 4 }
    ensures { result ≡ big_number 4 octets.now }
{
    match octets {
        [] => 0,
        [a] => u32::from_be_bytes([*a, 0, 0, 0]),
        [a, b] => u32::from_be_bytes([*a, *b, 0, 0]),
        [a, b, c] => u32::from_be_bytes([*a, *b, *c, 0]),
        [a, b, c, d] => u32::from_be_bytes([*a, *b, *c, *d]),
        _ => unreachable!(),
    }
}

/// Returns the number of 16 bytes whose leading ones these are. Most prefixes have at most eight.
#[tactic(auto, using(crate::proofs::WideNumbers::of_four, crate::proofs::WideNumbers::of_eight))]
#[inline]
pub fn leading_octets_wide(octets: &[u8]) -> u128
    ensures { result ≡ big_number 16 octets.now }
{
    if octets.len() <= 4 {
        return (leading_octets_number(octets) as u128) << 96;
    }
    if octets.len() <= 8 {
        let high = leading_octets_number(&octets[..4]) as u128;
        let low = leading_octets_number(&octets[4..]) as u128;
        return (high << 96) + (low << 64);
    }
    each_octet(octets)
}

/// The octet at a position, 0 past the end.
#[inline]
fn octet_at(octets: &[u8], at: usize) -> u8
    ensures { result ≡ slice_index octets.now at }
{
    if at < octets.len() { octets[at] } else { 0 }
}

/// The same, octet by octet.
fn each_octet(octets: &[u8]) -> u128
    ensures { result ≡ big_number 16 octets.now }
{
    let mut number = 0u128;
    let mut at = 0usize;
    while at < 16 {
        number = number * 256 + octet_at(octets, at) as u128;
        at += 1;
    }
    number
}
