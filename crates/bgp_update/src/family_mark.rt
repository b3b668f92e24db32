//! Marks of families.

ghost use Rattle.std.specs.Prelude.{◌≡◌};

use crate::unicast::Unicast;
use std::alloc::AllocError;
use std::marker::{Model, PhantomData};

/// A value of no size that tells a family, so that plain data can have one without naming its type. Contracts see it as
/// the family.
#[derive(Debug, Drop)]
pub struct FamilyMark<F: Unicast = u32> {
    of: PhantomData<F>,
}

impl<F: Unicast> Model for FamilyMark<F> {
    ghost use Rattle.bgp_update.specs.Families.{FamilyOf};

    ghost Value = { FamilyOf };

    ghost view = { λ m. F.family };

    ghost inverse = { λ family. record { of = record {} } };
}

impl<F: Unicast> Copy for FamilyMark<F> {}

impl<F: Unicast> Clone for FamilyMark<F> {
    fn clone(&self) -> Result<Self, AllocError> {
        Ok(*self)
    }
}

impl<F: Unicast> FamilyMark<F> {
    /// Returns the mark of the family.
    #[inline(always)]
    pub fn new() -> FamilyMark<F>
        ensures { result ≡ F.family }
    {
        FamilyMark { of: PhantomData }
    }

    /// A mark tells no other family than its own.
    #[inline(always)]
    pub fn is_known(&self)
        ensures { self.now ≡ F.family }
    {
        // A hint for the proof: what a mark tells is known once it is read.
        let _of = self.of;
    }
}
