//! By which rules messages and entries are read.

ghost use Rattle.std.specs.Prelude.{◌≡◌, ◌↔◌, IsTrue};
ghost use Rattle.bgp_update.specs.Families.{by_entry_width, by_errors, of_peer, route_rules, route_rules_of, rules_of};
ghost use Rattle.bgp_update.specs.KeptAttributes.{no_attributes};

use crate::error_rule::ErrorRule;
use crate::kept_attribute::AttributeSet;
use crate::unicast::Unicast;
use crate::width::Width;
use std::alloc::AllocError;
use std::marker::{Model, PhantomData};

/// The bit of rules by which AS numbers in entries have two bytes.
const TWO_BYTES: u16 = 256;

/// The unit of the number of the rule on damage, which stands above the other bits.
const ERRORS: u16 = 512;

/// By which rules messages and entries are read: of which family the routes are, which its type tells, which further
/// attributes they keep, how wide AS numbers are in entries, and what is done about damage.
#[derive(Debug, Drop)]
pub struct Rules<F: Unicast = u32> {
    /// The set of attributes in the low byte, `TWO_BYTES`, and the number of the rule on damage by `ERRORS`: one
    /// number, so that one comparison tells plain rules.
    bits: u16,
    of: PhantomData<F>,
}

impl<F: Unicast> Model for Rules<F> {
    ghost use Rattle.std.specs.Prelude.{◌+◌, ◌<◌};
    ghost use Rattle.bgp_update.specs.Families.{Rules};
    ghost use Rattle.bgp_update.specs.RuleBits.{bits_back, errors_bits, errors_in, set_in, width_bits, width_in};

    ghost Value = { Rules };

    ghost view = { λ r. record { family = F.family; kept = set_in r.bits; entry_width = width_in r.bits; errors = errors_in r.bits } };

    ghost invariant = { λ r. r.bits < 1536 };

    ghost inverse = { λ rules. record { bits = rules.kept.bits + width_bits rules.entry_width + errors_bits rules.errors; of = record {} } };

    ghost inverse_ok = { λ a h. λ i. record { bits = bits_back a.bits h i; of = record {} } };
}

impl<F: Unicast> Copy for Rules<F> {}

impl<F: Unicast> Clone for Rules<F> {
    fn clone(&self) -> Result<Self, AllocError> {
        Ok(*self)
    }
}

impl<F: Unicast> Rules<F> {
    /// Returns the rules of the family, by which these further attributes are kept, AS numbers in entries have four
    /// bytes, and damage is skipped.
    #[inline(always)]
    pub fn new(kept: AttributeSet) -> Rules<F>
        ensures { result ≡ rules_of F.family kept }
    {
        Rules {
            bits: kept.bits() as u16,
            of: PhantomData,
        }
    }

    /// Returns the same rules, by which AS numbers in entries are this wide.
    #[inline(always)]
    pub fn with_entry_width(self, width: Width) -> Rules<F>
        ensures { result ≡ by_entry_width width self }
    {
        let others = self.bits % TWO_BYTES + self.bits / ERRORS * ERRORS;
        let bits = match width {
            Width::Four => others,
            Width::Two => others + TWO_BYTES,
        };
        Rules {
            bits,
            of: PhantomData,
        }
    }

    /// Returns the same rules, by which this is done about damage.
    #[inline(always)]
    pub fn with_errors(self, errors: ErrorRule) -> Rules<F>
        ensures { result ≡ by_errors errors self }
    {
        let others = self.bits % ERRORS;
        let bits = match errors {
            ErrorRule::Skip => others,
            ErrorRule::Internal => others + ERRORS,
            ErrorRule::External => others + 2 * ERRORS,
        };
        Rules {
            bits,
            of: PhantomData,
        }
    }

    /// Returns the rules for messages of a peer of another AS than the speaker's, or of the same one.
    #[inline(always)]
    pub fn of_peer(self, is_external: bool) -> Rules<F>
        ensures { result ≡ of_peer is_external self }
    {
        if self.bits < ERRORS {
            return self;
        }
        self.with_errors(self.errors().of_peer(is_external))
    }

    /// Whether no further attribute is kept, AS numbers in entries have four bytes, and damage is skipped.
    #[inline(always)]
    pub fn is_plain(&self) -> bool
        ensures { IsTrue result ↔ (self.now ≡ rules_of F.family no_attributes) }
    {
        self.bits == 0
    }

    /// The further attributes that are kept. Rules tell no other family than that of their type.
    #[inline(always)]
    pub fn kept(&self) -> AttributeSet
        ensures { route_rules self.now ≡ route_rules_of F.family result }
    {
        AttributeSet::of_bits((self.bits % TWO_BYTES) as u8)
    }

    /// How wide AS numbers are in entries.
    #[inline(always)]
    pub fn entry_width(&self) -> Width
        ensures { result ≡ self.now.entry_width }
    {
        if self.bits / TWO_BYTES % 2 == 0 {
            Width::Four
        } else {
            Width::Two
        }
    }

    /// What is done about damage.
    #[inline(always)]
    pub fn errors(&self) -> ErrorRule
        ensures { result ≡ self.now.errors }
    {
        match self.bits / ERRORS {
            0 => ErrorRule::Skip,
            1 => ErrorRule::Internal,
            _ => ErrorRule::External,
        }
    }
}
