//! A path attribute as it stands in a field, what is wrong with a value of its type, and which repeats are refused.

ghost use Rattle.std.specs.Prelude.{◌≡◌, ℕ, ◌≤◌, ◌<◌, Bool, true, IsTrue, List, Ok, Err, IfOk, IfErr, length};
ghost use Rattle.std.specs.Result.{result_err};
ghost use Rattle.mrt_frame.specs.declared.fault.Fault.TheVariants.{ShortAttribute};
ghost use Rattle.mrt_frame.specs.Fields as fields;
ghost use Rattle.mrt_frame.specs.Fields.{Reads};
ghost use Rattle.bgp_update.specs.Segments.{number_len, path_in};
ghost use Rattle.bgp_update.specs.Attributes as attributes;
ghost use Rattle.bgp_update.specs.Attributes.{length_len};
ghost use Rattle.bgp_update.specs.Families.{route_rules_of};
ghost use Rattle.bgp_update.specs.Values as values;

use crate::attribute_context::AttributeContext;
use crate::attribute_type::AttributeType;
use crate::kept_attribute::AttributeSet;
use crate::multiprotocol::{entry_hop, reach_in, unreach_in};
use crate::route_fields::origin_of;
use crate::segment::segment_count;
use crate::unicast::Unicast;
use crate::width::Width;
use mrt_frame::{Fault, byte_at, bytes_at, u16_at};

/// A path attribute as it appears in a field.
#[derive(Drop)]
pub struct Attribute<'a> {
    pub flags: u8,
    pub code: u8,
    pub value: &'a [u8],
}

/// Reads the length of a value, in two bytes if the flag Extended Length is set.
#[inline(always)]
fn value_len_at(flags: u8, bytes: &[u8]) -> Result<(usize, &[u8]), Fault>
    ensures { Reads (λ x. (x.0, x.1.now)) result (fields.number_at ShortAttribute (length_len flags) bytes.now) }
{
    if flags / 16 % 2 == 1 {
        let (len, rest) = u16_at(bytes, Fault::ShortAttribute)?;
        return Ok((len as usize, rest));
    }
    let (len, rest) = byte_at(bytes, Fault::ShortAttribute)?;
    Ok((len as usize, rest))
}

/// Reads an attribute, and returns it with the bytes after it.
#[inline(always)]
#[tactic(auto, unfolding(crate::specs::Attributes::attribute_at))]
pub fn attribute_at(bytes: &[u8]) -> Result<(Attribute<'_>, &[u8]), Fault>
    ensures { Reads (λ x. (record { flags = x.0.flags; code = x.0.code; value = x.0.value.now }, x.1.now)) result
        (attributes.attribute_at bytes.now) }
{
    let (flags, rest) = byte_at(bytes, Fault::ShortAttribute)?;
    let (code, rest) = byte_at(rest, Fault::ShortAttribute)?;
    let (len, rest) = value_len_at(flags, rest)?;
    let (value, rest) = bytes_at(rest, len, Fault::ShortAttribute)?;
    Ok((Attribute { flags, code, value }, rest))
}

/// Returns the fault of a value that isn't well-formed.
#[inline(always)]
fn fault_unless(is_formed: bool, fault: Fault) -> Option<Fault>
    ensures { result ≡ attributes.fault_unless is_formed fault }
{
    if is_formed { None } else { Some(fault) }
}

/// Returns the fault of AS_PATH.
#[tactic(auto, using(crate::proofs::Counts::counted_fault), unfolding(crate::specs::Segments::segment_count_in))]
fn path_fault(value: &[u8], width: Width) -> Option<Fault>
    ensures { result ≡ result_err (path_in (number_len width) value.now) }
{
    segment_count(value, width).err()
}

/// Returns the fault of what MP_REACH_NLRI has before its keys.
fn reach_head_fault<F: Unicast>(context: AttributeContext, value: &[u8]) -> Option<Fault>
    ensures { result ≡ values.reach_head_fault F.family context value.now }
{
    match context {
        AttributeContext::RibEntry => if F::encoding().own_fields {
            None
        } else {
            entry_hop::<F>(value).err()
        },
        AttributeContext::Message { .. } => reach_in::<F>(value).err(),
    }
}

/// Returns the fault of what MP_UNREACH_NLRI has before its keys.
fn unreach_head_fault<F: Unicast>(context: AttributeContext, value: &[u8]) -> Option<Fault>
    ensures { result ≡ values.unreach_head_fault F.family context value.now }
{
    match context {
        AttributeContext::RibEntry => None,
        AttributeContext::Message { .. } => unreach_in::<F>(value).err(),
    }
}

/// Returns what is wrong with the value of an attribute of this type: the check of each type (RFC 4271, 4.3 and 5.1;
/// RFC 4760, 3 and 4; RFC 6793, 3). The keys of MP_REACH_NLRI and MP_UNREACH_NLRI are checked when they are appended.
#[inline(always)]
#[tactic(auto, unfolding(crate::specs::Attributes::value_fault, crate::specs::Values::head_fault))]
pub fn head_fault<F: Unicast>(
    context: AttributeContext,
    width: Width,
    kept: AttributeSet,
    attribute_type: AttributeType,
    value: &[u8],
) -> Option<Fault>
    ensures { result ≡ values.head_fault (route_rules_of F.family kept) context width attribute_type value.now }
{
    let bad = attribute_type.fault();
    match attribute_type {
        AttributeType::Origin => fault_unless(origin_of(value).is_some(), bad),
        AttributeType::AsPath => path_fault(value, width),
        AttributeType::NextHop | AttributeType::MultiExitDisc | AttributeType::LocalPref =>
            fault_unless(value.len() == 4, bad),
        AttributeType::AtomicAggregate => fault_unless(value.is_empty(), bad),
        AttributeType::Aggregator => fault_unless(value.len() == 6 || value.len() == 8, bad),
        AttributeType::MpReachNlri => reach_head_fault::<F>(context, value),
        AttributeType::MpUnreachNlri => unreach_head_fault::<F>(context, value),
        AttributeType::As4Path | AttributeType::As4Aggregator => None,
        AttributeType::Kept(attribute) => if kept.has(attribute) {
            fault_unless(attribute.is_formed(value), bad)
        } else {
            None
        },
    }
}

/// Whether a second attribute of a type is a fault.
#[inline(always)]
pub fn refuses_repeat(context: AttributeContext, attribute_type: AttributeType) -> bool
    ensures { result ≡ attributes.refuses_repeat context attribute_type }
{
    match context {
        AttributeContext::RibEntry => false,
        AttributeContext::Message { .. } => match attribute_type {
            AttributeType::MpReachNlri | AttributeType::MpUnreachNlri => true,
            _ => false,
        },
    }
}
