//! Keys of each family, of 32 bits that stand behind others which are 0.

use bgp_prefix::*;

/// A family of addresses that are made from numbers of 128 bits, of which they are the first.
pub trait Tried: Family {
    /// The address of the first bits.
    fn from_number(number: u128) -> Self;
}

impl Tried for u32 {
    fn from_number(number: u128) -> u32 {
        (number >> 96) as u32
    }
}

impl Tried for Ipv6 {
    fn from_number(number: u128) -> Ipv6 {
        Ipv6::new(number)
    }
}

/// The address that has these bits after `from` bits, of at most 96.
pub fn addr_at<F: Tried>(from: u8, addr: u32) -> F {
    F::from_number((addr as u128) << (96 - from.min(96) as u32))
}

/// The key of these bits after `from` others; so many are counted in its length too. It answers no error, since a check
/// takes long of a function with many exits.
pub fn key_at<F: Tried>(from: u8, addr: u32, len: u8, id: u32) -> RouteKey<Prefix<F>> {
    let len = from.min(96) + len.min(32);
    let Some(prefix) = Prefix::new(addr_at(from, addr), len.min(F::WIDTH)) else {
        unreachable!()
    };
    RouteKey { prefix, id }
}
