//! Addresses of a family, written into a block of bytes.

ghost use Rattle.std.proofs.Common.{arith};
ghost use Rattle.std.specs.Prelude.{◌+◌, ◌<◌, length};
ghost use Rattle.ip_text.specs.AddressTexts.{address_text};
ghost use Rattle.ip_text.specs.Formats.{Formats};

use crate::address_form::AddressForm;
use crate::format::format_ipv4;
use crate::ipv6::format_ipv6;
use crate::short::DecimalTable;
use bgp_prefix::Ipv6;
use bgp_update::Unicast;

/// The addresses of a family of which reports can be written.
pub trait WrittenAddress: Unicast {
    ghost use Rattle.std.specs.Prelude.{ℕ, ◌≤◌};

    ghost MOST_BYTES: { ℕ };

    /// An upper bound of the length of an address's text, in bytes.
    const MOST_BYTES: usize;

    /// Writes the address in a form, and returns the position after it.
    fn format(self, bytes: &mut [u8], at: usize, shorts: &DecimalTable, form: AddressForm) -> usize
        requires { at + MOST_BYTES < length bytes.old }
        ensures { Formats bytes.old at bytes.new result MOST_BYTES (address_text Self.family form (Self.bits self)) };

    ghost few: { MOST_BYTES ≤ 39 };
}

impl WrittenAddress for u32 {
    ghost MOST_BYTES = { 15 };

    const MOST_BYTES: usize = 15;

    #[inline(always)]
    fn format(self, bytes: &mut [u8], at: usize, shorts: &DecimalTable, _: AddressForm) -> usize {
        format_ipv4(bytes, at, shorts, self)
    }

    ghost few = { omega arith };
}

impl WrittenAddress for Ipv6 {
    ghost MOST_BYTES = { 39 };

    const MOST_BYTES: usize = 39;

    #[inline(always)]
    fn format(
        self,
        bytes: &mut [u8],
        at: usize,
        shorts: &DecimalTable,
        form: AddressForm,
    ) -> usize {
        format_ipv6(bytes, at, shorts, form, self.number())
    }

    ghost few = { omega arith };
}
