//! Changes to the routes of a leaf, or of a fork's prefix. A value is taken from a slot and left in
//! one, so no function with more to do has a value among its locals.

ghost use Rattle.std.specs.Prelude.{◌≡◌, None, IsSome, [], ◌∷◌, not, OnOk, OnErr, IfOk, IfSome};
ghost use Rattle.std.specs.Ordering.{eq_by_cmp};
ghost use Rattle.std.specs.FinMap.{find, put};
ghost use Rattle.std.specs.FinMap.Entries.{where_key};
ghost use Rattle.bgp_prefix.specs.Keys.{key_cmp, is_nil};

use crate::flat::Flat;
use bgp_prefix::{Family, Memory, Prefix, RouteKey};
use std::alloc::Global;

/// Returns a list of one route, whose value is taken from a slot.
#[inline(never)]
pub(super) fn single<F: Family, V: Drop>(
    alloc: Global,
    key: &RouteKey<Prefix<F>>,
    slot: &mut Option<V>,
) -> Result<Flat<F, V>, Memory>
    requires { IsSome slot.old }
    ensures one { IfOk result (λ held. IfSome slot.old (λ value. held ≡ (key.now, value) ∷ [])) }
    ensures taken { slot.new ≡ None }
{
    let Some(value) = slot.take() else {
        unreachable!()
    };
    Flat::single(alloc, *key, value)
}

/// Sets the value of a key to that of a slot, and leaves the previous one in the slot. An `Err` changes
/// nothing but the slot.
#[inline(never)]
pub(super) fn exchange<F: Family, V: Drop>(
    held: &mut Flat<F, V>,
    key: &RouteKey<Prefix<F>>,
    slot: &mut Option<V>,
) -> Result<(), Memory>
    requires { IsSome slot.old }
    ensures before { OnOk result (slot.new ≡ find key_cmp key.now held.old) }
    ensures ok { OnOk result (IfSome slot.old (λ value. held.new ≡ put key_cmp key.now value held.old)) }
    ensures err { OnErr result (held.new ≡ held.old) }
{
    let Some(value) = slot.take() else {
        unreachable!()
    };
    *slot = held.insert(*key, value)?;
    Ok(())
}

/// Removes a key, and leaves its value in a slot. Returns whether none is left.
#[inline(never)]
pub(super) fn remove_into<F: Family, V: Drop>(
    held: &mut Flat<F, V>,
    key: &RouteKey<Prefix<F>>,
    slot: &mut Option<V>,
) -> bool
    ensures before { slot.new ≡ find key_cmp key.now held.old }
    ensures removed { held.new ≡ where_key key_cmp (λ x. not (eq_by_cmp key_cmp key.now x)) held.old }
    ensures none { result ≡ is_nil held.new }
{
    *slot = held.remove(key);
    held.is_empty()
}
