//! The values of attributes that have to be asked for, kept beside those that are kept in any case.

ghost use Rattle.std.specs.Prelude.{◌≡◌, None, Err, IfErr, OnOk, OnErr, option_map};
ghost use Rattle.bgp_update.specs.Attributes.{attributes_in};
ghost use Rattle.bgp_update.specs.declared.attribute_type.AttributeType.{AttributeType};
ghost use Rattle.bgp_update.specs.declared.kept_attribute.KeptAttribute.{KeptAttribute};
ghost use Rattle.bgp_update.specs.KeptAttributes.{has};
ghost use Rattle.bgp_update.specs.Families.{route_rules_of};
ghost use Rattle.bgp_update.specs.Values.{all_values, as_written, asked_value, kept_value, keys_fault, unless_fault, AreShort, CanPackKept, HasRoom, IsWhole, KeepsFirst, RefusesAsked, RefusesAttribute, TakesAsked, TakesAttribute};

use crate::attribute::{Attribute, attribute_at};
use crate::attribute_context::AttributeContext;
use crate::attribute_type::AttributeType as Type;
use crate::kept_attribute::{AttributeSet, KeptAttribute};
use crate::unicast::Unicast;
use crate::values::FirstValues;
use crate::width::Width;
use mrt_frame::Fault;

/// The value of the first attribute of each type that is asked for.
#[derive(Drop)]
pub struct AskedValues<'a> {
    asked: AttributeSet,
    values: [Option<&'a [u8]>; 6],
}

impl<'a> AskedValues<'a> {
    /// Returns no values of the attributes that are asked for.
    pub fn new(asked: AttributeSet) -> AskedValues<'a>
        ensures asked { result.asked ≡ asked }
        ensures room { HasRoom result }
        ensures values { (a : KeptAttribute) → asked_value result a ≡ None }
    {
        AskedValues {
            asked,
            values: [None; 6],
        }
    }

    /// Whether an attribute is asked for.
    pub fn has(&self, attribute: KeptAttribute) -> bool
        ensures { result ≡ has self.now.asked attribute }
    {
        self.asked.has(attribute)
    }

    /// Returns the value of the first attribute of a type.
    pub fn value(&self, attribute: KeptAttribute) -> Option<&'a [u8]>
        requires { HasRoom self.now }
        ensures { option_map (λ value. value.now) result ≡ asked_value self.now attribute }
    {
        self.values[attribute.index()]
    }

    /// Checks an attribute of this type, and keeps its value if it is the first of its type, where it is asked for.
    fn take(&mut self, attribute: KeptAttribute, value: &'a [u8]) -> Result<(), Fault>
        requires { HasRoom self.old }
        ensures room { HasRoom self.new }
        ensures asked { self.new.asked ≡ self.old.asked }
        ensures ok { OnOk result (TakesAsked self.old attribute value.now self.new) }
        ensures err { IfErr result (RefusesAsked self.old attribute value.now) }
        ensures same { OnErr result (self.new ≡ self.old) }
    {
        if !self.has(attribute) || self.value(attribute).is_some() {
            return Ok(());
        }
        if !attribute.is_formed(value) {
            return Err(Type::Kept(attribute).fault());
        }
        self.values[attribute.index()] = Some(value);
        Ok(())
    }

    /// Checks an attribute that was found, and keeps its value if it is the first of its type: here where it has to be
    /// asked for, and there where it is looked at in any case.
    pub(crate) fn take_found<F: Unicast>(
        &mut self,
        first: &mut FirstValues<'a>,
        context: AttributeContext,
        width: Width,
        found: &Attribute<'a>,
    ) -> Result<(), Fault>
        requires room { HasRoom self.old }
        requires whole { IsWhole first.old }
        ensures room { HasRoom self.new }
        ensures asked { self.new.asked ≡ self.old.asked }
        ensures whole { OnOk result (IsWhole first.new) }
        ensures ok { OnOk result (TakesAttribute (route_rules_of F.family self.old.asked) context width
            (all_values first.old self.old) (as_written found.now) (all_values first.new self.new)) }
        ensures err { IfErr result (RefusesAttribute (route_rules_of F.family self.old.asked) context width
            (all_values first.old self.old) (as_written found.now)) }
        ensures same { OnErr result (first.new ≡ first.old) }
        ensures same_asked { OnErr result (self.new ≡ self.old) }
    {
        match KeptAttribute::of_code(found.code) {
            Some(attribute) => self.take(attribute, found.value),
            None => first.take_found::<F>(context, width, found),
        }
    }
}

/// Keeps the values of the attributes of a field as `keep_values` does, and beside them those that are asked for.
pub fn keep_asked<'a, F: Unicast>(
    first: &mut FirstValues<'a>,
    kept: &mut AskedValues<'a>,
    bytes: &'a [u8],
    context: AttributeContext,
    width: Width,
) -> Result<(), Fault>
    requires room { HasRoom kept.old }
    requires whole { IsWhole first.old }
    requires none { (t : AttributeType) → kept_value first.old t ≡ None }
    requires none_asked { (a : KeptAttribute) → asked_value kept.old a ≡ None }
    ensures room { HasRoom kept.new }
    ensures asked { kept.new.asked ≡ kept.old.asked }
    ensures values { OnOk result (KeepsFirst (route_rules_of F.family kept.old.asked) context width bytes.now
        (all_values first.new kept.new)) }
    ensures packable { OnOk result
        (keys_fault F.family context (kept_value first.new) ≡ None → CanPackKept width first.new) }
    ensures short { OnOk result (keys_fault F.family context (kept_value first.new) ≡ None → AreShort kept.new) }
    ensures fault { IfErr result (λ fault. attributes_in (route_rules_of F.family kept.old.asked) context width bytes.now
        ≡ unless_fault (keys_fault F.family context (kept_value first.new)) (Err fault)) }
{
    let mut rest = bytes;
    while !rest.is_empty() {
        let (attribute, after) = attribute_at(rest)?;
        kept.take_found::<F>(first, context, width, &attribute)?;
        rest = after;
    }
    Ok(())
}
