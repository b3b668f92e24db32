//! Peers and shares of them as text.

use crate::address::read_address;
use peer_units::{PeerAddr, PeerChoice, Share};
use std::net::Ipv6Addr;

/// Returns the value of a decimal number below 2^32, without a sign and, except for 0 itself, without a leading zero.
pub(crate) fn read_number(text: &str) -> Option<u32> {
    if text.len() > 1 && text.starts_with('0') {
        return None;
    }
    if text.as_bytes().iter().all(|byte| byte.is_ascii_digit()) {
        text.parse::<u32>().ok()
    } else {
        None
    }
}

/// Returns the address of a peer: an IPv4 address, or an IPv6 address (RFC 4291, 2.2).
fn read_peer_addr(text: &str) -> Option<PeerAddr> {
    if let Some(addr) = read_address(text) {
        return Some(PeerAddr::V4(addr));
    }
    match text.parse::<Ipv6Addr>() {
        Ok(addr) => Some(PeerAddr::V6(addr.to_bits())),
        Err(_) => None,
    }
}

/// Returns what `--peer` chooses: an AS number, alone or with an address behind a comma or a blank. Returns `None` for
/// any other text.
pub fn read_peer(text: &str) -> Option<PeerChoice> {
    let Some((asn, addr)) = text.split_once(',').or(text.split_once(' ')) else {
        let asn = read_number(text)?;
        return Some(PeerChoice { asn, addr: None });
    };
    Some(PeerChoice {
        asn: read_number(asn)?,
        addr: Some(read_peer_addr(addr)?),
    })
}

/// Returns what `--peers` chooses, as `2/8`: the number of a share, from 1, and how many there are, at most 65,536.
/// Returns `None` for any other text.
pub fn read_share(text: &str) -> Option<Share> {
    let (number, count) = text.split_once('/')?;
    let number = read_number(number)?.checked_sub(1)?;
    Share::new(number, read_number(count)?)
}
