//! The laws of texts of prefixes. Nothing is computed.

ghost use Rattle.std.specs.Prelude.{◌≡◌, ℕ, List};
ghost use Rattle.bgp_prefix.specs.Prefixes.{IpPrefix, IsIpPrefix};
ghost use Rattle.peer_units.specs.declared.choice.Reach.{Reach};
ghost use Rattle.ip_text.specs.Spellings.{IsIpv6Text};
ghost use Rattle.command_line.specs.Choices.{SpellsPrefix, SpellsReach, short_prefix_text};
ghost use Rattle.command_line.specs.Families.{SpellsIn};

use crate::address_text::AddressText;

/// The text of an IPv6 prefix, with its address in the short form, spells that prefix.
pub fn written_prefixes_spell_themselves()
    ensures { (p : IpPrefix) → IsIpPrefix p → SpellsPrefix IsIpv6Text 128 (short_prefix_text p) p }
{}

/// A text spells at most one prefix, and at most one reach beside it.
pub fn one_prefix_to_a_text<F: AddressText>()
    ensures prefix { (text : List ℕ) (p q : IpPrefix) →
        SpellsPrefix (SpellsIn F.FAMILY) F.WIDTH text p → SpellsPrefix (SpellsIn F.FAMILY) F.WIDTH text q → p ≡ q }
    ensures reach { (text : List ℕ) (p q : IpPrefix) (r s : Reach) →
        SpellsReach (SpellsIn F.FAMILY) F.WIDTH text p r → SpellsReach (SpellsIn F.FAMILY) F.WIDTH text q s → (p ≡ q) × (r ≡ s) }
{
    F::texts_spell_one_address();
}
