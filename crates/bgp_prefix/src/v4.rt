//! IPv4 addresses.

ghost use Rattle.std.specs.Prelude.{◌≡◌, ◌≢◌, ℕ, ◌+◌, ◌*◌, ◌/◌, ◌^◌, ◌<◌, ◌≤◌};

use crate::family::Family;
use std::cmp::Ordering;

impl Family for u32 {
    ghost use Rattle.std.specs.Prelude.{refl, ◌*◌, ◌/◌, ◌^◌, ◌≤◌};
    ghost use Rattle.std.proofs.lemmas.Nat.{shl-shr};
    ghost use Rattle.std.proofs.Common.{arith, ap};

    ghost bits = { λ a. a * 2 ^ 96 };

    ghost of_bits = { λ n. n / 2 ^ 96 };

    ghost WIDTH = { 32 };

    ghost back = { λ a. shl-shr a 96 };

    ghost whole = { λ a. ap (λ n. n * 2 ^ 96) (shl-shr a 96) };

    ghost narrow = { omega arith };

    const WIDTH: u8 = 32;

    const LOWEST: u32 = 0;

    #[inline]
    fn masked(self, len: u8) -> u32 {
        let shift = 32 - len as u32;
        let block = 1u64 << shift;
        (self as u64 / block * block) as u32
    }

    #[inline]
    fn agrees(self, other: u32, len: u8) -> bool {
        let shift = 32 - len as u32;
        self as u64 >> shift == other as u64 >> shift
    }

    #[inline]
    fn shared(self, other: u32) -> u8 {
        (self ^ other).leading_zeros() as u8
    }

    #[inline]
    fn bit_after(self, len: u8) -> bool {
        len < 32 && (self as u64 >> (31 - len as u32)) & 1 == 1
    }

    #[inline]
    fn compare(self, other: u32) -> Ordering {
        self.cmp(&other)
    }

    #[inline]
    fn is_same(self, other: u32) -> bool {
        self == other
    }

    #[inline]
    fn is_at_most(self, other: u32) -> bool {
        self <= other
    }
}
