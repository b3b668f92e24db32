//! The attributes that a route keeps, as bytes: the type code of each, the length of its value in two bytes, and the
//! value.

ghost use Rattle.std.specs.Prelude.{◌≡◌, ◌↔◌, ◌++◌, ◌∷◌, ◌<◌, ◌^◌, [], IfOk, IfSome, IsTrue, OnOk, true, length, option_map};
ghost use Rattle.std.specs.List.{flat_map, AllByRecursion};
ghost use Rattle.mrt_frame.specs.Fields.{Reads};
ghost use Rattle.bgp_update.specs.Equality.{kept_eq};
ghost use Rattle.bgp_update.specs.PathEquality.{list_eq};
ghost use Rattle.bgp_update.specs.KeptAttributes.{kept_code, asked_item, has, value_kept};
ghost use Rattle.bgp_update.specs.Packing.{keeps_any};
ghost use Rattle.bgp_update.specs.declared.kept_attribute.KeptAttribute.{KeptAttribute};
ghost use Rattle.bgp_update.specs.Values.{AreShort, HasRoom, asked_value, values_asked};
ghost use Rattle.bgp_update.specs.KeptBytes as kept;
ghost use Rattle.bgp_update.specs.KeptBytes.{AreKeptBytes, FitsKept, IsShort, kept_bytes, kept_item_bytes, spelled_values};

use crate::asked_values::AskedValues;
use crate::kept_attribute::KeptAttribute;
use bgp_prefix::Memory;
use mrt_frame::{Fault, byte_at, bytes_at, u16_at};
use std::alloc::Global;
use std::marker::Model;

/// An attribute that is kept: its type code, and its value.
#[derive(Drop)]
struct KeptItem<'a> {
    code: u8,
    value: &'a [u8],
}

/// Reads an attribute that is kept, and returns it with the bytes after it.
#[tactic(auto, unfolding(crate::specs::KeptBytes::kept_item_at))]
fn kept_item_at(bytes: &[u8]) -> Result<(KeptItem<'_>, &[u8]), Fault>
    ensures { Reads (λ x. (record { code = x.0.code; value = x.0.value.now }, x.1.now)) result
        (kept.kept_item_at bytes.now) }
{
    let (code, rest) = byte_at(bytes, Fault::ShortAttribute)?;
    let (len, rest) = u16_at(rest, Fault::ShortAttribute)?;
    let (value, rest) = bytes_at(rest, len as usize, Fault::ShortAttribute)?;
    Ok((KeptItem { code, value }, rest))
}

/// Appends an attribute that is kept.
pub(crate) fn push_kept_item(out: &mut Vec<u8>, code: u8, value: &[u8]) -> Result<(), Memory>
    requires { IsShort value.now }
    ensures { OnOk result (out.new.items
        ≡ out.old.items ++ kept_item_bytes (record { code = code; value = value.now })) }
{
    out.push(code)?;
    out.extend_from_slice(&(value.len() as u16).to_be_bytes())?;
    out.extend_from_slice(value)?;
    Ok(())
}

/// Appends an attribute, if it was asked for and is there.
fn push_asked(
    out: &mut Vec<u8>,
    kept: &AskedValues<'_>,
    attribute: KeptAttribute,
) -> Result<(), Memory>
    requires room { HasRoom kept.now }
    requires short { has kept.now.asked attribute ≡ true → IfSome (asked_value kept.now attribute) IsShort }
    ensures { OnOk result (out.new.items
        ≡ out.old.items ++ kept_bytes (asked_item kept.now.asked (asked_value kept.now) attribute)) }
{
    if !kept.has(attribute) {
        return Ok(());
    }
    match kept.value(attribute) {
        Some(value) => push_kept_item(out, attribute.code(), value),
        None => Ok(()),
    }
}

/// Appends those of these attributes that were asked for and are there.
fn push_each(
    out: &mut Vec<u8>,
    kept: &AskedValues<'_>,
    attributes: &[KeptAttribute],
) -> Result<(), Memory>
    requires room { HasRoom kept.now }
    requires short { AreShort kept.now }
    ensures { OnOk result (out.new.items ≡ out.old.items
        ++ flat_map (λ a. kept_bytes (asked_item kept.now.asked (asked_value kept.now) a)) attributes.now) }
{
    for attribute in attributes {
        push_asked(out, kept, *attribute)?;
    }
    Ok(())
}

/// Appends the attributes that were asked for and are there, in the order of columns.
#[tactic(auto, using(crate::proofs::KeptLaws::bytes_of_all))]
fn push_kept(out: &mut Vec<u8>, kept: &AskedValues<'_>) -> Result<(), Memory>
    requires room { HasRoom kept.now }
    requires short { AreShort kept.now }
    ensures { OnOk result (out.new.items ≡ out.old.items ++ kept_bytes (values_asked kept.now)) }
{
    push_each(out, kept, &KeptAttribute::ALL)
}

/// Returns the attributes that were asked for and are there, in the order of columns. Their bytes are written over what
/// is in a block of memory.
pub(crate) fn kept_in<'a>(
    block: &'a mut Vec<u8>,
    kept: &AskedValues<'_>,
) -> Result<KeptValues<'a>, Memory>
    requires room { HasRoom kept.now }
    requires short { AreShort kept.now }
    ensures { IfOk result (λ values. values ≡ values_asked kept.now) }
{
    block.clear();
    push_kept(block, kept)?;
    Ok(KeptValues::of_bytes(block.as_slice()))
}

/// Returns the attributes that were asked for and are there, in the order of columns, in memory of their own.
pub(crate) fn kept_block(alloc: Global, kept: &AskedValues<'_>) -> Result<KeptBlock, Memory>
    requires room { HasRoom kept.now }
    requires short { AreShort kept.now }
    ensures { IfOk result (λ block. block ≡ values_asked kept.now) }
{
    let mut bytes = Vec::new(alloc);
    push_kept(&mut bytes, kept)?;
    Ok(KeptBlock::of_bytes(bytes))
}

/// The attributes that a route keeps, borrowed, which contracts see as their list.
#[derive(Drop)]
pub struct KeptValues<'a> {
    bytes: &'a [u8],
}

impl<'a> Model for KeptValues<'a> {
    ghost use Rattle.std.specs.Prelude.{List};
    ghost use Rattle.bgp_update.specs.KeptAttributes.{KeptValue};
    ghost use Rattle.bgp_update.specs.KeptBytes.{AreKeptBytes, spelled_values};

    ghost Value = { List KeptValue };

    ghost view = { λ k. spelled_values k.bytes.now };

    ghost invariant = { λ k. AreKeptBytes k.bytes.now };
}

impl<'a> KeptValues<'a> {
    /// Returns the attributes of these bytes.
    pub(crate) fn of_bytes(bytes: &'a [u8]) -> KeptValues<'a>
        requires { AreKeptBytes bytes.now }
        ensures { result ≡ spelled_values bytes.now }
    {
        KeptValues { bytes }
    }

    /// Returns no attributes.
    #[inline(always)]
    pub fn none() -> KeptValues<'a>
        ensures { result ≡ [] }
    {
        KeptValues { bytes: &[] }
    }

    /// Whether there is one.
    #[inline(always)]
    pub(crate) fn is_any(&self) -> bool
        ensures { result ≡ keeps_any self.now }
    {
        !self.bytes.is_empty()
    }

    /// Their bytes.
    #[inline(always)]
    pub(crate) fn as_bytes(&self) -> &'a [u8]
        ensures bytes { result.now ≡ kept_bytes self.now }
        ensures fit { AllByRecursion FitsKept self.now }
        ensures few { length result.now < 256 ^ 4 }
    {
        self.bytes
    }

    /// The value of an attribute, if it is kept.
    pub fn value(&self, attribute: KeptAttribute) -> Option<&'a [u8]>
        ensures value { option_map (λ value. value.now) result ≡ value_kept (kept_code attribute) self.now }
        ensures short { IfSome (option_map (λ value. value.now) result) IsShort }
    {
        let code = attribute.code();
        let mut rest = self.bytes;
        while !rest.is_empty() {
            let (item, after) = next_item(rest);
            if item.code == code {
                return Some(item.value);
            }
            rest = after;
        }
        None
    }
}

/// Returns the first attribute of these bytes, and the bytes after it.
fn next_item(bytes: &[u8]) -> (KeptItem<'_>, &[u8])
    requires kept { AreKeptBytes bytes.now }
    requires some { 0 < length bytes.now }
    ensures first { spelled_values bytes.now
        ≡ record { code = result.0.code; value = result.0.value.now } ∷ spelled_values result.1.now }
    ensures short { IsShort result.0.value.now }
    ensures rest { AreKeptBytes result.1.now }
    ensures shorter { length result.1.now < length bytes.now }
{
    match kept_item_at(bytes) {
        Ok((item, rest)) => (item, rest),
        Err(_) => unreachable!(),
    }
}

/// The attributes that a route keeps, which contracts see as their list.
#[derive(Drop)]
pub struct KeptBlock {
    bytes: Vec<u8>,
}

impl Model for KeptBlock {
    ghost use Rattle.std.specs.Prelude.{List};
    ghost use Rattle.bgp_update.specs.KeptAttributes.{KeptValue};
    ghost use Rattle.bgp_update.specs.KeptBytes.{AreKeptBytes, spelled_values};

    ghost Value = { List KeptValue };

    ghost view = { λ k. spelled_values k.bytes.items };

    ghost invariant = { λ k. AreKeptBytes k.bytes.items };
}

impl KeptBlock {
    /// Returns the attributes of these bytes.
    pub(crate) fn of_bytes(bytes: Vec<u8>) -> KeptBlock
        requires { AreKeptBytes bytes.items }
        ensures { result ≡ spelled_values bytes.items }
    {
        KeptBlock { bytes }
    }

    /// The attributes, borrowed.
    pub fn values(&self) -> KeptValues<'_>
        ensures { result ≡ self.now }
    {
        KeptValues::of_bytes(self.bytes.as_slice())
    }

    /// Whether the same attributes are kept with the same values, in the same order.
    #[tactic(auto, using(crate::proofs::RouteEquality::decides_kept))]
    pub fn is_same(&self, other: &KeptBlock) -> bool
        ensures { result ≡ list_eq kept_eq self.now other.now }
    {
        self.has_same_bytes(other)
    }

    #[tactic(auto, using(crate::proofs::KeptLaws::same_kept))]
    fn has_same_bytes(&self, other: &KeptBlock) -> bool
        ensures { IsTrue result ↔ (self.now ≡ other.now) }
    {
        self.bytes.as_slice() == other.bytes.as_slice()
    }

    /// Returns an equal one.
    pub fn try_copy(&self, alloc: Global) -> Result<KeptBlock, Memory>
        ensures { IfOk result (λ copy. copy ≡ self.now) }
    {
        let bytes = Vec::from_slice(alloc, self.bytes.as_slice())?;
        Ok(KeptBlock { bytes })
    }
}
