//! IPv6 addresses.

ghost use Rattle.std.specs.Prelude.{◌≡◌, ◌≢◌, ℕ, ◌+◌, ◌*◌, ◌/◌, ◌%◌, ◌^◌, ◌<◌, ◌≤◌};

use crate::family::Family;
use std::alloc::AllocError;
use std::cmp::Ordering;
use std::marker::Model;

/// An IPv6 address in four words: it needs no more alignment than they do, so that a prefix takes 20 bytes.
#[derive(Debug)]
pub struct Ipv6 {
    fourth: u32,
    third: u32,
    second: u32,
    first: u32,
}

impl Model for Ipv6 {
    ghost use Rattle.std.specs.Prelude.{ℕ, ◌+◌, ◌*◌, ◌/◌, ◌%◌, ◌^◌, ◌<◌};
    ghost use Rattle.bgp_prefix.specs.Words.{of_words, first_of, second_of, third_of, fourth_of};

    ghost Value = { ℕ };

    ghost view = { λ a. of_words a.first a.second a.third a.fourth };

    ghost invariant = { λ a. record { second : a.second < 2 ^ 32; third : a.third < 2 ^ 32; fourth : a.fourth < 2 ^ 32 } };

    ghost inverse = { λ n. record {
      first = n / 2 ^ 96;
      second = n / 2 ^ 64 % 2 ^ 32;
      third = n / 2 ^ 32 % 2 ^ 32;
      fourth = n % 2 ^ 32;
    } };

    ghost inverse_ok = { λ a h. λ i. record {
      first = first_of a.first a.second a.third a.fourth h.second h.third h.fourth i;
      second = second_of a.first a.second a.third a.fourth h.second h.third h.fourth i;
      third = third_of a.first a.second a.third a.fourth h.second h.third h.fourth i;
      fourth = fourth_of a.first a.second a.third a.fourth h.second h.third h.fourth i;
    } };
}

impl Copy for Ipv6 {}

impl Clone for Ipv6 {
    fn clone(&self) -> Result<Self, AllocError> {
        Ok(*self)
    }
}

impl Ipv6 {
    /// Returns the address of this number.
    #[inline]
    pub fn new(number: u128) -> Ipv6
        ensures { result ≡ number }
    {
        Ipv6 {
            fourth: (number % (1u128 << 32)) as u32,
            third: ((number >> 32) % (1u128 << 32)) as u32,
            second: ((number >> 64) % (1u128 << 32)) as u32,
            first: (number >> 96) as u32,
        }
    }

    /// Its number.
    #[inline]
    pub fn number(&self) -> u128
        ensures { result ≡ self.now }
    {
        ((self.first as u128) << 96)
            + ((self.second as u128) << 64)
            + ((self.third as u128) << 32)
            + self.fourth as u128
    }
}

impl Family for Ipv6 {
    ghost use Rattle.std.specs.Prelude.{refl, ◌*◌, ◌/◌, ◌^◌, ◌≤◌};
    ghost use Rattle.std.proofs.Common.{arith};

    ghost bits = { λ a. a };

    ghost of_bits = { λ n. n };

    ghost WIDTH = { 128 };

    ghost back = { λ a. refl };

    ghost whole = { λ a. omega arith };

    ghost narrow = { omega arith };

    const WIDTH: u8 = 128;

    const LOWEST: Ipv6 = Ipv6 {
        fourth: 0,
        third: 0,
        second: 0,
        first: 0,
    };

    #[inline]
    fn masked(self, len: u8) -> Ipv6 {
        if len == 0 {
            return Ipv6::new(0);
        }
        let shift = 128 - len as u32;
        Ipv6::new((self.number() >> shift) << shift)
    }

    #[inline]
    fn agrees(self, other: Ipv6, len: u8) -> bool {
        if len == 0 {
            return true;
        }
        let shift = 128 - len as u32;
        self.number() >> shift == other.number() >> shift
    }

    #[inline]
    fn shared(self, other: Ipv6) -> u8 {
        (self.number() ^ other.number()).leading_zeros() as u8
    }

    #[inline]
    fn bit_after(self, len: u8) -> bool {
        (self.number() >> (127 - len as u32)) & 1 == 1
    }

    #[inline]
    fn compare(self, other: Ipv6) -> Ordering {
        self.number().cmp(&other.number())
    }

    #[inline]
    fn is_same(self, other: Ipv6) -> bool {
        self.number() == other.number()
    }

    #[inline]
    fn is_at_most(self, other: Ipv6) -> bool {
        self.number() <= other.number()
    }
}
