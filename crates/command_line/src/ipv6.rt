//! IPv6 addresses as text.

ghost use Rattle.std.specs.Prelude.{◌≡◌, ◌+◌, ◌*◌, [], ◌∷◌, IfSome, IfNone};
ghost use Rattle.ip_text.specs.Spellings.{number_of_groups, IsIpv6Text, IsNoIpv6Text};

use bgp_prefix::Ipv6;
use std::net::Ipv6Addr;

/// Returns the number of eight groups.
fn number_of(groups: [u16; 8]) -> u128
    ensures { result ≡ number_of_groups 65536 groups }
{
    let [a, b, c, d, e, f, g, h] = groups;
    let high = ((a as u128 * 65_536 + b as u128) * 65_536 + c as u128) * 65_536 + d as u128;
    (((high * 65_536 + e as u128) * 65_536 + f as u128) * 65_536 + g as u128) * 65_536 + h as u128
}

/// Returns the IPv6 address of a text: groups of one to four hexadecimal digits joined by colons, eight of them, or
/// fewer and a `::`. Returns `None` for any other text.
pub(crate) fn ipv6_in(text: &[u8]) -> Option<Ipv6>
    ensures some { IfSome result (IsIpv6Text text.now) }
    ensures none { IfNone result (IsNoIpv6Text text.now) }
{
    // The library reads dotted tails too.
    if text.contains(&b'.') {
        return None;
    }
    match Ipv6Addr::parse_ascii(text) {
        Ok(addr) => Some(Ipv6::new(number_of(addr.segments()))),
        Err(_) => None,
    }
}
