//! The values of attributes where damage is handled: the first one of each type, if it is well-formed (RFC 7606, 2 and
//! 3).

ghost use Rattle.std.specs.Prelude.{◌≡◌, ◌++◌, ◌∷◌, [], List, set, true, IfOk, OnErr, OnOk, if◌then◌else◌};
ghost use Rattle.bgp_update.specs.Attributes.{WrittenAttribute};
ghost use Rattle.bgp_update.specs.declared.attribute_context.AttributeContext.{AttributeContext};
ghost use Rattle.bgp_update.specs.declared.error_rule.ErrorRule.{ErrorRule};
ghost use Rattle.bgp_update.specs.declared.width.Width.{Width};
ghost use Rattle.bgp_update.specs.Families.{RouteRules, route_rules_of};
ghost use Rattle.bgp_update.specs.Handling as handling;
ghost use Rattle.bgp_update.specs.Handling.{front_attributes};
ghost use Rattle.bgp_update.specs.SoundValues.{AreKeysLost, HasPlaces, HoldsSound, IsLost, KeepsSound};
ghost use Rattle.bgp_update.specs.ErrorRules.{is_discarded};
ghost use Rattle.bgp_update.specs.Values as values;
ghost use Rattle.bgp_update.specs.Values.{as_written};

use crate::asked_values::AskedValues;
use crate::attribute::{Attribute, attribute_at, refuses_repeat};
use crate::attribute_context::AttributeContext;
use crate::attribute_type::AttributeType;
use crate::error_rule::ErrorRule;
use crate::kept_attribute::AttributeSet;
use crate::unicast::Unicast;
use crate::values::{FirstValues, TYPES, value_index};
use crate::width::Width;
use mrt_frame::Fault;

/// The first value of each type, if it is well-formed.
#[derive(Drop)]
pub(crate) struct SoundValues<'a> {
    pub(crate) first: FirstValues<'a>,
    pub(crate) asked: AskedValues<'a>,
    /// Whether the first value of a type is malformed, by the index of the type: later ones don't count.
    malformed: [bool; TYPES],
    /// Whether more is wrong than what is discarded.
    pub(crate) grave: bool,
}

impl<'a> SoundValues<'a> {
    /// Returns no values of the attributes that are asked for.
    fn new(asked: AttributeSet) -> SoundValues<'a>
        ensures asked { result.asked.asked ≡ asked }
        ensures places { HasPlaces result }
        ensures none { (errors : ErrorRule) (rules : RouteRules) (context : AttributeContext) (width : Width) →
            HoldsSound errors rules context width [] result }
    {
        SoundValues {
            first: FirstValues::new(),
            asked: AskedValues::new(asked),
            malformed: [false; TYPES],
            grave: false,
        }
    }

    /// Leaves out the first value of a type, which is malformed.
    fn leave_out(&mut self, errors: ErrorRule, attribute_type: AttributeType)
        requires { HasPlaces self.old }
        ensures first { self.new.first ≡ self.old.first }
        ensures asked { self.new.asked ≡ self.old.asked }
        ensures malformed { self.new.malformed ≡ set self.old.malformed (values.value_index attribute_type) true }
        ensures grave { self.new.grave ≡ (if is_discarded errors attribute_type then self.old.grave else true) }
    {
        self.malformed[value_index(attribute_type)] = true;
        if !errors.discards(attribute_type) {
            self.grave = true;
        }
    }

    /// Takes one more attribute. `Err` if keys of an UPDATE are lost: it is a second MP_REACH_NLRI or MP_UNREACH_NLRI,
    /// or a malformed one.
    fn take<F: Unicast>(
        &mut self,
        errors: ErrorRule,
        context: AttributeContext,
        width: Width,
        found: &Attribute<'a>,
    ) -> Result<(), Fault>
        requires { HasPlaces self.old }
        ensures asked { self.new.asked.asked ≡ self.old.asked.asked }
        ensures places { OnOk result (HasPlaces self.new) }
        ensures ok { OnOk result ((before : List WrittenAttribute) →
            HoldsSound errors (route_rules_of F.family self.old.asked.asked) context width before self.old →
            HoldsSound errors (route_rules_of F.family self.old.asked.asked) context width
            (before ++ as_written found.now ∷ []) self.new) }
        ensures err { OnErr result ((before : List WrittenAttribute) →
            HoldsSound errors (route_rules_of F.family self.old.asked.asked) context width before self.old →
            IsLost (route_rules_of F.family self.old.asked.asked) context width (before ++ as_written found.now ∷ [])) }
    {
        let Some(attribute_type) = AttributeType::of_code(found.code) else {
            return Ok(());
        };
        if self.malformed[value_index(attribute_type)] {
            return Ok(());
        }
        match self
            .asked
            .take_found::<F>(&mut self.first, context, width, found)
        {
            Ok(()) => Ok(()),
            Err(fault) => {
                if refuses_repeat(context, attribute_type) {
                    return Err(fault);
                }
                self.leave_out(errors, attribute_type);
                Ok(())
            }
        }
    }
}

/// Whether an attribute that runs past its field is MP_REACH_NLRI or MP_UNREACH_NLRI.
fn loses_keys(rest: &[u8]) -> bool
    ensures { (whole : List WrittenAttribute) →
        handling.loses_keys (record { whole = whole; rest = rest.now }) ≡ result }
{
    rest.len() > 1
        && (rest[1] == AttributeType::MpReachNlri.code()
            || rest[1] == AttributeType::MpUnreachNlri.code())
}

/// Keeps the values of the attributes of a field, up to one that runs past it. `Err` if keys of an UPDATE are lost.
pub(crate) fn keep_sound<'a, F: Unicast>(
    asked: AttributeSet,
    errors: ErrorRule,
    context: AttributeContext,
    width: Width,
    bytes: &'a [u8],
) -> Result<SoundValues<'a>, Fault>
    ensures asked { IfOk result (λ s. s.asked.asked ≡ asked) }
    ensures places { IfOk result HasPlaces }
    ensures keeps { IfOk result
        (KeepsSound errors (route_rules_of F.family asked) context width (front_attributes bytes.now)) }
    ensures lost { OnErr result
        (AreKeysLost (route_rules_of F.family asked) context width (front_attributes bytes.now)) }
{
    let mut values = SoundValues::new(asked);
    let mut rest = bytes;
    while !rest.is_empty() {
        match attribute_at(rest) {
            Ok((attribute, after)) => {
                values.take::<F>(errors, context, width, &attribute)?;
                rest = after;
            }
            Err(fault) => {
                if loses_keys(rest) {
                    return Err(fault);
                }
                values.grave = true;
                return Ok(values);
            }
        }
    }
    Ok(values)
}
