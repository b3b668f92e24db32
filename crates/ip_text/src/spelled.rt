//! Laws about the definitions: nothing is computed.

ghost use Rattle.std.specs.Prelude.{◌≡◌, ℕ, ◌^◌, ◌<◌, List};
ghost use Rattle.ip_text.specs.Ipv6Texts.{short_ipv6_text};
ghost use Rattle.std.specs.Net.Text.{longest_zero_run};
ghost use Rattle.ip_text.specs.ZeroRuns.{IsFirstLongest};
ghost use Rattle.ip_text.specs.Spellings.{IsIpv6Text};

/// The text of an address spells that address.
pub fn written_texts_spell_their_addresses()
    ensures { (addr : ℕ) → addr < 2 ^ 128 → IsIpv6Text (short_ipv6_text addr) addr }
{}

/// A text spells at most one address.
pub fn one_address_to_a_text()
    ensures { (text : List ℕ) (a b : ℕ) → IsIpv6Text text a → IsIpv6Text text b → a ≡ b }
{}

/// What `::` stands for is the longest run of zeros, and the first of those.
pub fn runs_are_first_and_longest()
    ensures { (groups : List ℕ) → IsFirstLongest groups (longest_zero_run groups).0 (longest_zero_run groups).1 }
{}
