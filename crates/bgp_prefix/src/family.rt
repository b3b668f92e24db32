//! Families of addresses: what a prefix needs of its addresses.

ghost use Rattle.std.specs.Prelude.{◌≡◌, ◌≢◌, ℕ, ◌+◌, ◌*◌, ◌/◌, ◌%◌, ◌^◌, ◌<◌, ◌≤◌, ◌==◌, nat_le, if◌then◌else◌};
ghost use Rattle.std.specs.Ordering.{nat_cmp};
ghost use Rattle.bgp_prefix.specs.Prefixes.{IsIpPrefix, network_of, leading_bits};

use std::cmp::Ordering;

/// The addresses of a family. Contracts see an address as a number of 128 bits, of which those past the family's width
/// are 0.
pub trait Family: Copy + Drop {
    ghost use Rattle.std.specs.Prelude.{◌≡◌, ℕ, ◌≤◌, ◌*◌, ◌/◌, ◌^◌};
    ghost use Rattle.bgp_prefix.specs.Prefixes.{network_of};

    /// The address as a number of 128 bits.
    ghost bits: { Self → ℕ };

    /// The address of these bits.
    ghost of_bits: { ℕ → Self };

    ghost WIDTH: { ℕ };

    ghost back: { (a : Self) → of_bits (bits a) ≡ a };

    ghost whole: { (a : Self) → network_of (bits a) WIDTH ≡ bits a };

    ghost narrow: { WIDTH ≤ 128 };

    /// The number of bits of an address.
    const WIDTH: u8;

    /// The lowest address.
    const LOWEST: Self;

    /// Returns the address with the bits past the length put to 0.
    fn masked(self, len: u8) -> Self
        requires { len ≤ WIDTH }
        ensures network { bits result ≡ network_of (bits self) len }
        ensures known { IsIpPrefix (record { addr = bits result; len = len }) };

    /// Whether the first bits of two addresses are the same.
    fn agrees(self, other: Self, len: u8) -> bool
        requires { len ≤ WIDTH }
        ensures { result ≡ (leading_bits len (bits self) == leading_bits len (bits other)) };

    /// The number of leading bits that two addresses share.
    fn shared(self, other: Self) -> u8
        ensures same { (n : ℕ) → n ≤ result → leading_bits n (bits self) ≡ leading_bits n (bits other) }
        ensures longest { result < WIDTH → leading_bits (result + 1) (bits self) ≢ leading_bits (result + 1) (bits other) };

    /// The bit after the first `len`. Those past the width are 0.
    fn bit_after(self, len: u8) -> bool
        requires { len < 128 }
        ensures { leading_bits (len + 1) (bits self) ≡ 2 * leading_bits len (bits self) + (if result then 1 else 0) };

    /// Compares two addresses as numbers.
    fn compare(self, other: Self) -> Ordering
        ensures { result ≡ nat_cmp (bits self) (bits other) };

    /// Whether two addresses are the same.
    fn is_same(self, other: Self) -> bool
        ensures { result ≡ (bits self == bits other) };

    /// Whether the address is at most this one.
    fn is_at_most(self, other: Self) -> bool
        ensures { result ≡ nat_le (bits self) (bits other) };
}
