//! IPv4 addresses as text.

ghost use Rattle.std.specs.Prelude.{◌≡◌, ◌+◌, ◌<◌, ◌≤◌, ◌∷◌, [], ℕ, List, IfSome, IfNone, position, ◌==◌};
ghost use Rattle.command_line.specs.Addresses.{IsOctet, IsNoOctet, StartsWithOctet, IsAddress, IsNoAddress};

/// Returns the value of a digit that is at least `least`.
fn digit(byte: u8, least: u8) -> Option<u8>
    requires { 48 ≤ least }
    ensures some { IfSome result (λ n. (byte ≡ 48 + n) × (least ≤ byte) × (n < 10)) }
    ensures none { IfNone result ((n : ℕ) → byte ≡ 48 + n → least ≤ byte → n < 10 → ⊥) }
{
    if byte >= least && byte <= b'9' {
        Some(byte - b'0')
    } else {
        None
    }
}

fn one_digit(ones: u8) -> Option<u8>
    ensures some { IfSome result (IsOctet (ones ∷ [])) }
    ensures none { IfNone result (IsNoOctet (ones ∷ [])) }
{
    digit(ones, b'0')
}

fn two_digits(tens: u8, ones: u8) -> Option<u8>
    ensures some { IfSome result (IsOctet (tens ∷ ones ∷ [])) }
    ensures none { IfNone result (IsNoOctet (tens ∷ ones ∷ [])) }
{
    let tens = digit(tens, b'1')?;
    let ones = digit(ones, b'0')?;
    Some(tens * 10 + ones)
}

fn three_digits(hundreds: u8, tens: u8, ones: u8) -> Option<u8>
    ensures some { IfSome result (IsOctet (hundreds ∷ tens ∷ ones ∷ [])) }
    ensures none { IfNone result (IsNoOctet (hundreds ∷ tens ∷ ones ∷ [])) }
{
    let hundreds = u16::from(digit(hundreds, b'1')?);
    let tens = u16::from(digit(tens, b'0')?);
    let ones = u16::from(digit(ones, b'0')?);
    let number = hundreds * 100 + tens * 10 + ones;
    if number < 256 {
        Some(number as u8)
    } else {
        None
    }
}

/// Returns the value of a decimal octet: 0 to 255, without a sign and, except for 0 itself, without a
/// leading zero.
pub fn octet(text: &[u8]) -> Option<u8>
    ensures some { IfSome result (IsOctet text.now) }
    ensures none { IfNone result (IsNoOctet text.now) }
{
    match text {
        [ones] => one_digit(*ones),
        [tens, ones] => two_digits(*tens, *ones),
        [hundreds, tens, ones] => three_digits(*hundreds, *tens, *ones),
        _ => None,
    }
}

/// Returns the position of the first point.
fn first_point(text: &[u8]) -> Option<usize>
    ensures { result ≡ position (λ byte. byte == 46) text.now }
{
    text.iter().position(|byte| *byte == b'.')
}

/// Returns the octet before the first point, and the text after it.
fn octet_and_rest(text: &[u8]) -> Option<(u8, &[u8])>
    ensures some { IfSome result (λ r. StartsWithOctet text.now r.0 r.1.now) }
    ensures rest { IfSome result (λ r. (n : ℕ) (rest : List ℕ) → StartsWithOctet text.now n rest → rest ≡ r.1.now) }
    ensures none { IfNone result ((n : ℕ) (rest : List ℕ) → StartsWithOctet text.now n rest → ⊥) }
{
    let point = first_point(text)?;
    let number = octet(&text[..point])?;
    Some((number, &text[point + 1..]))
}

/// Returns the value of an IPv4 address, as [`read_address`] does.
pub fn address_in(text: &[u8]) -> Option<u32>
    ensures some { IfSome result (IsAddress text.now) }
    ensures none { IfNone result (IsNoAddress text.now) }
{
    let (first, rest) = octet_and_rest(text)?;
    let (second, rest) = octet_and_rest(rest)?;
    let (third, rest) = octet_and_rest(rest)?;
    let fourth = octet(rest)?;
    Some(u32::from_be_bytes([first, second, third, fourth]))
}

/// Returns the value of an IPv4 address: four decimal numbers of 0 to 255 joined by points, without a sign
/// and, except for 0 itself, without a leading zero. Returns `None` for any other text.
pub fn read_address(text: &str) -> Option<u32>
    ensures some { IfSome result (IsAddress text.now) }
    ensures none { IfNone result (IsNoAddress text.now) }
{
    address_in(text.as_bytes())
}
