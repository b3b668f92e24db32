//! Units whose bytes are the end of their record's body.

ghost use Rattle.std.specs.Prelude.{◌≡◌, ◌≤◌, drop, length};
ghost use Rattle.mrt_frame.specs.Cuts.{body_limit};
ghost use Rattle.peer_units.specs.Payloads.{IsSmallUnit, payload_bytes};

use bgp_prefix::{Prefix, Sequence};
use bgp_update::{Rules, Unicast};
use peer_units::{BytesRef, Payload, Unit, UnitRef};
use std::marker::Model;

/// The end of a record's body, which it keeps. Contracts see the list of its bytes.
#[derive(Drop)]
pub(crate) struct BodyEnd {
    body: Sequence<u8>,
    /// The position of the first byte.
    start: usize,
}

impl Model for BodyEnd {
    ghost use Rattle.std.specs.Prelude.{◌≤◌, ℕ, List, drop, length};
    ghost use Rattle.mrt_frame.specs.Cuts.{body_limit};

    ghost Value = { List ℕ };

    ghost view = { λ e. drop e.start e.body };

    ghost invariant = { λ e. (e.start ≤ length e.body) × (length e.body ≤ body_limit) };
}

impl BodyEnd {
    /// Returns the end of a body from this position on.
    #[inline(always)]
    pub(crate) fn new(body: Sequence<u8>, start: usize) -> BodyEnd
        requires within { start ≤ length body }
        requires few { length body ≤ body_limit }
        ensures { result ≡ drop start body }
    {
        BodyEnd { body, start }
    }

    /// Its bytes.
    #[inline(always)]
    fn as_slice(&self) -> &[u8]
        ensures own { result.now ≡ self.now }
        ensures few { length result.now ≤ body_limit }
    {
        &self.body.as_slice()[self.start..]
    }

    /// Returns the memory of the body. Allocates nothing.
    pub(crate) fn into_block(self) -> Vec<u8> {
        self.body.into_vec()
    }
}

/// The unit of a BGP4MP or TABLE_DUMP record; or one that clears a table, without bytes.
pub(crate) type BodyUnit<F> = Unit<BodyEnd, Prefix<F>, Rules<F>>;

/// Returns the bytes of a payload: none of a state change or a clear.
#[inline(always)]
pub(crate) fn bytes_of<F: Unicast>(payload: &Payload<BodyEnd, Prefix<F>, Rules<F>>) -> &[u8]
    ensures own { result.now ≡ payload_bytes payload.now }
    ensures few { length result.now ≤ body_limit }
{
    match payload {
        Payload::Message { bytes, .. } => bytes.as_slice(),
        Payload::Entry { attrs, .. } => attrs.as_slice(),
        _ => &[],
    }
}

/// Lends a unit, with its bytes.
#[inline(always)]
#[tactic(auto, using(peer_units::proofs::HeldLaws::own_unit))]
pub(crate) fn lent<F: Unicast>(unit: &BodyUnit<F>) -> UnitRef<'_, F>
    ensures lends { result ≡ unit.now }
    ensures small { IsSmallUnit result }
{
    unit.with_bytes(BytesRef::new(bytes_of(&unit.payload)))
}

/// Returns the memory of the body that a unit keeps, if it has bytes.
#[inline(always)]
pub(crate) fn block_of<F: Unicast>(unit: BodyUnit<F>) -> Option<Vec<u8>> {
    match unit.payload {
        Payload::Message { bytes, .. } => Some(bytes.into_block()),
        Payload::Entry { attrs, .. } => Some(attrs.into_block()),
        _ => None,
    }
}
