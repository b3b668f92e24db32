//! Families whose addresses are read from text.

ghost use Rattle.std.specs.Prelude.{◌≡◌, ℕ, List, IfSome, IfNone};
ghost use Rattle.command_line.specs.Choices.{IsPlain};
ghost use Rattle.command_line.specs.Families.{SpellsIn};

use crate::address::address_in;
use crate::address_family::AddressFamily;
use crate::ipv6::ipv6_in;
use bgp_prefix::Ipv6;
use bgp_update::Unicast;
use std::alloc::{AllocError, Global};

/// Messages about texts that are no prefix of a family.
#[derive(Clone, Copy)]
pub struct PrefixWords {
    /// A prefix of it, for whoever wrote a text that is none.
    pub example: &'static str,
    /// Of a text that is no address.
    pub no_address: &'static str,
    /// Of a text with a slash that no address stands before.
    pub no_address_before: &'static str,
    /// Of a length that is none.
    pub no_length: &'static str,
}

const IPV4_WORDS: PrefixWords = PrefixWords {
    example: "192.0.2.0/24",
    no_address: "it is no IPv4 address",
    no_address_before: "no IPv4 address stands before its '/'",
    no_length: "its length is not a number of 0 to 32",
};

const IPV6_WORDS: PrefixWords = PrefixWords {
    example: "2001:db8::/32",
    no_address: "it is no IPv6 address",
    no_address_before: "no IPv6 address stands before its '/'",
    no_length: "its length is not a number of 0 to 128",
};

/// Whether a text is an address of the family that isn't this one.
fn is_of_other_family(family: AddressFamily, text: &[u8]) -> bool {
    match family {
        AddressFamily::Ipv4 => ipv6_in(text).is_some(),
        AddressFamily::Ipv6 => address_in(text).is_some(),
    }
}

/// Returns a line which says that something with this address looks like one of the family that isn't this one, and
/// which option reads those. Where the text is no address of that family, the line is empty.
pub(crate) fn hint_of(
    alloc: Global,
    family: AddressFamily,
    what: &str,
    address: &[u8],
) -> Result<String, AllocError> {
    if !is_of_other_family(family, address) {
        return Ok(String::new(alloc));
    }
    let (name, option) = match family {
        AddressFamily::Ipv4 => ("IPv6", "ipv6"),
        AddressFamily::Ipv6 => ("IPv4", "ipv4"),
    };
    format!(in alloc;
        "  it looks like an {name} {what}: --family {option} reads those, and replays {name} routes\n"
    )
}

/// Returns what is said behind a text that is no address of this family: a line on the other family, if it is one of
/// that, else nothing.
pub fn hint_of_address(
    alloc: Global,
    family: AddressFamily,
    text: &str,
) -> Result<String, AllocError> {
    hint_of(alloc, family, "address", text.as_bytes())
}

/// A family whose addresses are read from text, and what is said of texts that aren't read.
pub trait AddressText: Unicast {
    ghost use Rattle.std.specs.Prelude.{ℕ, List};
    ghost use Rattle.command_line.specs.declared.address_family.AddressFamily.{AddressFamily};

    ghost FAMILY: { AddressFamily };

    /// Which family it is.
    const FAMILY: AddressFamily;

    /// Messages about texts that are no prefix of it.
    const WORDS: PrefixWords;

    /// Returns the address that a text spells. Returns `None` for any other text.
    fn address_in(text: &[u8]) -> Option<Self>
        ensures some { IfSome result (λ address. SpellsIn FAMILY text.now (Self.bits address)) }
        ensures none { IfNone result ((bits : ℕ) → SpellsIn FAMILY text.now bits → ⊥) };

    /// A law of these texts: nothing is computed.
    fn texts_spell_one_address()
        ensures one { (text : List ℕ) (a b : ℕ) → SpellsIn FAMILY text a → SpellsIn FAMILY text b → a ≡ b }
        ensures plain { (text : List ℕ) (bits : ℕ) → SpellsIn FAMILY text bits → IsPlain text };
}

impl AddressText for u32 {
    ghost use Rattle.command_line.specs.declared.address_family.AddressFamily.TheVariants.{Ipv4};

    ghost FAMILY = { Ipv4 };

    const FAMILY: AddressFamily = AddressFamily::Ipv4;

    const WORDS: PrefixWords = IPV4_WORDS;

    /// Four decimal numbers of 0 to 255 joined by points, without a sign and, except for 0 itself, without a leading
    /// zero.
    fn address_in(text: &[u8]) -> Option<u32> {
        address_in(text)
    }

    fn texts_spell_one_address() {}
}

impl AddressText for Ipv6 {
    ghost use Rattle.command_line.specs.declared.address_family.AddressFamily.TheVariants.{Ipv6};

    ghost FAMILY = { Ipv6 };

    const FAMILY: AddressFamily = AddressFamily::Ipv6;

    const WORDS: PrefixWords = IPV6_WORDS;

    /// Groups of one to four hexadecimal digits joined by colons, eight of them, or fewer with `::` for the zeros
    /// (RFC 4291, 2.2, forms 1 and 2). A zone or a dotted tail is not read.
    fn address_in(text: &[u8]) -> Option<Ipv6> {
        ipv6_in(text)
    }

    fn texts_spell_one_address() {}
}
