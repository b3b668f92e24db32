//! Prefixes as text, and how far they reach.

ghost use Rattle.std.specs.Prelude.{◌≡◌, ℕ, ◌*◌, ◌^◌, ◌≤◌, ◌∷◌, [], ◌++◌, List, IfSome, IfNone, position, ◌==◌};
ghost use Rattle.std.specs.Fmt.{decimal};
ghost use Rattle.bgp_prefix.specs.Prefixes.{IpPrefix};
ghost use Rattle.peer_units.specs.declared.choice.Reach.{Reach};
ghost use Rattle.command_line.specs.Choices.{IsPrefixWithin, SpellsPrefix, SpellsReach, SpellsChoice, IsNoChoice, EndsInNoMark, mark_of};
ghost use Rattle.command_line.specs.Families.{SpellsIn};

use crate::address::octet;
use crate::address_text::{AddressText, hint_of};
use bgp_prefix::{Family, Prefix};
use peer_units::{PrefixChoice, Reach};
use std::alloc::{AllocError, Global};

/// Returns the value of a prefix length: 0 to the number of bits of an address, without a leading zero.
fn read_len<F: AddressText>(text: &[u8]) -> Option<u8>
    ensures some { IfSome result (λ len. (text.now ≡ decimal len) × (len ≤ F.WIDTH)) }
    ensures none { IfNone result ((len : ℕ) → text.now ≡ decimal len → len ≤ F.WIDTH → ⊥) }
{
    let len = octet(text)?;
    if len <= F::WIDTH { Some(len) } else { None }
}

/// Returns the prefix of this address and length, unless the address has a bit past the length.
fn exact_prefix<F: Family>(addr: F, len: u8) -> Option<Prefix<F>>
    requires { len ≤ F.WIDTH }
    ensures some { IfSome result (λ p. (p ≡ record { addr = F.bits addr; len = len }) × IsPrefixWithin F.WIDTH p) }
    ensures none { IfNone result (IsPrefixWithin F.WIDTH (record { addr = F.bits addr; len = len }) → ⊥) }
{
    let prefix = Prefix::new(addr, len)?;
    if prefix.addr().is_same(addr) {
        Some(prefix)
    } else {
        None
    }
}

/// Returns the position of the first slash.
fn first_slash(text: &[u8]) -> Option<usize>
    ensures { result ≡ position (λ byte. byte == 47) text.now }
{
    text.iter().position(|byte| *byte == b'/')
}

/// Returns the prefix of an address alone, of full length.
fn host_prefix<F: AddressText>(text: &[u8]) -> Option<Prefix<F>>
    ensures some { IfSome result (λ p. SpellsIn F.FAMILY text.now p.addr × (p.len ≡ F.WIDTH)) }
    ensures none { IfNone result ((bits : ℕ) → SpellsIn F.FAMILY text.now bits → ⊥) }
{
    Prefix::new(F::address_in(text)?, F::WIDTH)
}

/// Returns the prefix of an address and a length.
fn sized_prefix<F: AddressText>(front: &[u8], back: &[u8]) -> Option<Prefix<F>>
    ensures some { IfSome result (λ p. SpellsIn F.FAMILY front.now p.addr × (back.now ≡ decimal p.len) × IsPrefixWithin F.WIDTH p) }
    ensures none { IfNone result ((p : IpPrefix) → SpellsIn F.FAMILY front.now p.addr → back.now ≡ decimal p.len → IsPrefixWithin F.WIDTH p → ⊥) }
{
    F::texts_spell_one_address();
    let addr = F::address_in(front)?;
    let len = read_len::<F>(back)?;
    exact_prefix(addr, len)
}

/// Returns the prefix of this text, as `192.0.2.0/24` or `2001:db8::/32`, with no bit past its length; an address alone
/// has full length. Returns `None` for any other text.
pub fn read_prefix<F: AddressText>(text: &[u8]) -> Option<Prefix<F>>
    ensures some { IfSome result (SpellsPrefix (SpellsIn F.FAMILY) F.WIDTH text.now) }
    ensures none { IfNone result ((p : IpPrefix) → SpellsPrefix (SpellsIn F.FAMILY) F.WIDTH text.now p → ⊥) }
{
    F::texts_spell_one_address();
    match first_slash(text) {
        Some(slash) => sized_prefix(&text[..slash], &text[slash + 1..]),
        None => host_prefix(text),
    }
}

/// Returns what the mark behind a prefix says of its reach.
fn reach_of(mark: u8) -> Option<Reach>
    ensures some { IfSome result (λ reach. mark_of reach ≡ mark ∷ []) }
    ensures none { IfNone result ((mark ≡ 43 → ⊥) × (mark ≡ 45 → ⊥)) }
{
    match mark {
        b'+' => Some(Reach::Inside),
        b'-' => Some(Reach::Around),
        _ => None,
    }
}

/// Splits off the mark behind a prefix.
fn split_reach(text: &[u8]) -> (&[u8], Reach)
    ensures whole { text.now ≡ result.0.now ++ mark_of result.1 }
    ensures only { (front : List ℕ) (reach : Reach) → EndsInNoMark front → text.now ≡ front ++ mark_of reach →
        (front ≡ result.0.now) × (reach ≡ result.1) }
{
    if let Some((mark, front)) = text.split_last() {
        if let Some(reach) = reach_of(*mark) {
            return (front, reach);
        }
    }
    (text, Reach::Exact)
}

/// Returns the prefix of this text and how far its mark says that it reaches: a prefix alone, with `+` itself and more
/// specifics, with `-` itself and less specifics. Returns `None` for any other text.
pub fn read_reach<F: AddressText>(text: &[u8]) -> Option<(Prefix<F>, Reach)>
    ensures some { IfSome result (λ r. SpellsReach (SpellsIn F.FAMILY) F.WIDTH text.now r.0 r.1) }
    ensures none { IfNone result ((p : IpPrefix) (reach : Reach) → SpellsReach (SpellsIn F.FAMILY) F.WIDTH text.now p reach → ⊥) }
{
    F::texts_spell_one_address();
    let (text, reach) = split_reach(text);
    let prefix = read_prefix(text)?;
    Some((prefix, reach))
}

/// Returns what these bytes choose.
pub(crate) fn choice_in<F: AddressText>(text: &[u8]) -> Option<PrefixChoice<Prefix<F>>>
    ensures some { IfSome result (SpellsChoice (SpellsIn F.FAMILY) F.WIDTH text.now) }
    ensures none { IfNone result (IsNoChoice (SpellsIn F.FAMILY) F.WIDTH text.now) }
{
    let (prefix, reach) = read_reach::<F>(text)?;
    Some(PrefixChoice { prefix, reach })
}

/// Returns what `--prefix` chooses: a prefix alone, with `+` itself and more specifics, with `-` itself and less
/// specifics. Returns `None` for any other text.
pub fn read_choice<F: AddressText>(text: &str) -> Option<PrefixChoice<Prefix<F>>>
    ensures some { IfSome result (SpellsChoice (SpellsIn F.FAMILY) F.WIDTH text.now) }
    ensures none { IfNone result (IsNoChoice (SpellsIn F.FAMILY) F.WIDTH text.now) }
{
    choice_in(text.as_bytes())
}

/// Returns why [`read_reach`] and [`read_choice`] refuse a text, in words for whoever wrote it.
pub fn fault_of_reach<F: AddressText>(text: &[u8]) -> &'static str {
    let (text, _) = split_reach(text);
    let Some(slash) = first_slash(text) else {
        return F::WORDS.no_address;
    };
    if F::address_in(&text[..slash]).is_none() {
        F::WORDS.no_address_before
    } else if read_len::<F>(&text[slash + 1..]).is_none() {
        F::WORDS.no_length
    } else {
        "its address has bits past its length"
    }
}

/// Returns what is said behind why a text is refused: a line on the other family, if its address is one of that, else
/// nothing.
pub(crate) fn hint_of_reach<F: AddressText>(
    alloc: Global,
    text: &[u8],
) -> Result<String, AllocError> {
    let (text, _) = split_reach(text);
    match first_slash(text) {
        Some(slash) => hint_of(alloc, F::FAMILY, "prefix", &text[..slash]),
        None => hint_of(alloc, F::FAMILY, "address", text),
    }
}
