//! Why attributes could not be read.

ghost use Rattle.std.specs.Prelude.{◌≡◌};
ghost use Rattle.bgp_update.specs.declared.attr_error.AttrError.TheVariants as errors;

use bgp_prefix::Memory;
use mrt_frame::Fault;
use std::alloc::{AllocError, AllocFailed};

/// Why attributes could not be read.
#[derive(Clone, Copy, Debug, PartialEq, Eq)]
pub enum AttrError {
    /// They aren't well-formed, and this is the first fault.
    Bad(Fault),
    /// Memory ran out; nothing is said about the bytes.
    Memory,
}

impl From<Fault> for AttrError {
    ghost from_gives = { λ fault e. e ≡ errors.Bad fault };

    fn from(fault: Fault) -> AttrError {
        AttrError::Bad(fault)
    }
}

impl From<Memory> for AttrError {
    ghost from_gives = { λ _ e. e ≡ errors.Memory };

    fn from(_e: Memory) -> AttrError {
        AttrError::Memory
    }
}

impl From<AllocError> for AttrError {
    ghost from_gives = { λ _ e. e ≡ errors.Memory };

    fn from(_e: AllocError) -> AttrError {
        AttrError::Memory
    }
}

impl<T: Drop> From<AllocFailed<T>> for AttrError {
    ghost from_gives = { λ _ e. e ≡ errors.Memory };

    fn from(_e: AllocFailed<T>) -> AttrError {
        AttrError::Memory
    }
}
