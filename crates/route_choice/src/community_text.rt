//! Patterns of communities as text.

ghost use Rattle.std.specs.Prelude.{◌≡◌, IfSome};
ghost use Rattle.route_choice.specs.Communities.{IsPartWithin, IsFitting, most_behind};

use crate::community::{Administrator, CommunityPattern, PatternPart, Role};
use crate::number::read_number;
use std::net::Ipv4Addr;

/// Returns a part of a pattern, `*` or a number of at most this.
fn read_part(text: &str, most: u32) -> Option<PatternPart>
    ensures { IfSome result (IsPartWithin most) }
{
    if text == "*" {
        return Some(PatternPart::AnyValue);
    }
    let number = read_number(text)?;
    if number <= most {
        Some(PatternPart::Number(number))
    } else {
        None
    }
}

/// Returns an administrator: `*`, an IPv4 address or an AS number.
fn read_administrator(text: &str) -> Option<Administrator> {
    if text == "*" {
        return Some(Administrator::AnyAdministrator);
    }
    if text.contains('.') {
        let address = text.parse::<Ipv4Addr>().ok()?;
        Some(Administrator::Address(address.to_bits()))
    } else {
        Some(Administrator::Asn(read_number(text)?))
    }
}

/// The greatest number that an extended community with this administrator can have: two bytes behind four, four bytes
/// behind two.
fn most_behind(administrator: Administrator) -> u32
    ensures { result ≡ most_behind administrator }
{
    match administrator {
        Administrator::AnyAdministrator => u32::MAX,
        Administrator::Address(_) => 65535,
        Administrator::Asn(asn) => { if asn <= 65535 { u32::MAX } else { 65535 } }
    }
}

/// Returns the pattern of what stands behind `rt:` or `ro:`.
fn read_extended(role: Role, text: &str) -> Option<CommunityPattern>
    ensures { IfSome result IsFitting }
{
    let (administrator, number) = text.split_once(':')?;
    let administrator = read_administrator(administrator)?;
    let number = read_part(number, most_behind(administrator))?;
    Some(CommunityPattern::Extended(role, administrator, number))
}

/// Whether a text is sixteen hexadecimal digits in lower case.
fn has_sixteen_digits(text: &str) -> bool {
    let bytes = text.as_bytes();
    bytes.len() == 16
        && bytes.iter().all(|byte| byte.is_ascii_digit() || (b'a' <= *byte && *byte <= b'f'))
}

/// Returns the pattern of what stands behind `0x`.
fn read_octets(text: &str) -> Option<CommunityPattern>
    ensures { IfSome result IsFitting }
{
    if !has_sixteen_digits(text) {
        return None;
    }
    let octets = u64::from_str_radix(text, 16).ok()?;
    Some(CommunityPattern::Exactly(octets))
}

/// Returns the pattern of two parts or of three.
fn read_parts(first: &str, rest: &str) -> Option<CommunityPattern>
    ensures { IfSome result IsFitting }
{
    match rest.split_once(':') {
        Some((second, third)) => {
            let a = read_part(first, u32::MAX)?;
            let b = read_part(second, u32::MAX)?;
            let c = read_part(third, u32::MAX)?;
            Some(CommunityPattern::Large(a, b, c))
        }
        None => {
            let a = read_part(first, 65535)?;
            let b = read_part(rest, 65535)?;
            Some(CommunityPattern::Standard(a, b))
        }
    }
}

/// Returns the pattern of a text: `A:B`, `A:B:C`, `rt:A:N` or `ro:A:N`, each part `*` or a number that fits, A of `rt`
/// and `ro` also an IPv4 address; or `0x` and sixteen digits, in lower case. Returns `None` for any other text.
pub fn read_community(text: &str) -> Option<CommunityPattern>
    ensures { IfSome result IsFitting }
{
    if let Some(digits) = text.strip_prefix("0x") {
        return read_octets(digits);
    }
    let (first, rest) = text.split_once(':')?;
    if first == "rt" {
        return read_extended(Role::RouteTarget, rest);
    }
    if first == "ro" {
        return read_extended(Role::RouteOrigin, rest);
    }
    read_parts(first, rest)
}
