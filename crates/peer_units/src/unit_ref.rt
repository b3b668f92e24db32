//! Units whose bytes are borrowed.

ghost use Rattle.std.specs.Prelude.{◌≡◌, ◌≤◌, IfOk, IsOk, length};
ghost use Rattle.peer_units.specs.HeldBytes.{payload_of_held, unit_of_held};
ghost use Rattle.peer_units.specs.Payloads.{is_recorded, payload_bytes};

use crate::payload_bytes::PayloadBytes;
use crate::unit::{Payload, Unit, UnitOf};
use bgp_prefix::{Memory, Prefix};
use bgp_update::{Rules, Unicast};
use std::alloc::Global;
use std::marker::Model;

/// Borrowed bytes, which contracts see as their list.
#[derive(Debug, Drop)]
pub struct BytesRef<'a> {
    bytes: &'a [u8],
}

impl<'a> Model for BytesRef<'a> {
    ghost use Rattle.std.specs.Prelude.{ℕ, List};

    ghost Value = { List ℕ };

    ghost view = { λ b. b.bytes.now };
}

impl<'a> BytesRef<'a> {
    /// Borrows these bytes.
    #[inline(always)]
    pub fn new(bytes: &'a [u8]) -> BytesRef<'a>
        ensures { result ≡ bytes.now }
    {
        BytesRef { bytes }
    }

    /// The bytes.
    #[inline(always)]
    pub fn as_slice(&self) -> &'a [u8]
        ensures { result.now ≡ self.now }
    {
        self.bytes
    }
}

/// A payload of a family whose bytes are borrowed.
pub type PayloadRef<'a, F> = Payload<BytesRef<'a>, Prefix<F>, Rules<F>>;

/// A unit of a family whose bytes are borrowed.
pub type UnitRef<'a, F> = Unit<BytesRef<'a>, Prefix<F>, Rules<F>>;

impl<B, F: Unicast> Payload<B, Prefix<F>, Rules<F>> {
    /// Returns the payload with these bytes in place of its own. A state change and a clear have none.
    #[inline(always)]
    pub fn with_bytes<C: Drop>(&self, bytes: C) -> Payload<C, Prefix<F>, Rules<F>>
        ensures { result ≡ payload_of_held (λ _. bytes) self.now }
    {
        match self {
            Payload::State { from, to, rule } => Payload::State {
                from: *from,
                to: *to,
                rule: *rule,
            },
            Payload::Message {
                width,
                add_path,
                rules,
                ..
            } => Payload::Message {
                bytes,
                width: *width,
                add_path: *add_path,
                rules: *rules,
            },
            Payload::Entry { key, rules, .. } => Payload::Entry {
                key: *key,
                attrs: bytes,
                rules: *rules,
            },
            Payload::Clear => Payload::Clear,
        }
    }
}

impl<B, F: Unicast> Unit<B, Prefix<F>, Rules<F>> {
    /// Returns the unit with these bytes in place of its own, if its payload has some.
    #[inline(always)]
    pub fn with_bytes<C: Drop>(&self, bytes: C) -> Unit<C, Prefix<F>, Rules<F>>
        ensures { result ≡ unit_of_held (λ _. bytes) self.now }
    {
        Unit {
            place: self.place,
            time: self.time,
            peer: self.peer,
            payload: self.payload.with_bytes(bytes),
        }
    }
}

impl<'a, F: Unicast> Payload<BytesRef<'a>, Prefix<F>, Rules<F>> {
    /// Whether it is what a record has of the peer, and not that a RIB dump clears its table.
    #[inline(always)]
    pub fn is_recorded(&self) -> bool
        ensures { result ≡ is_recorded self.now }
    {
        match self {
            Payload::Clear => false,
            _ => true,
        }
    }

    /// Its bytes: none of a state change or a clear.
    #[inline(always)]
    pub fn as_slice(&self) -> &'a [u8]
        ensures { result.now ≡ payload_bytes self.now }
    {
        match self {
            Payload::Message { bytes, .. } => bytes.as_slice(),
            Payload::Entry { attrs, .. } => attrs.as_slice(),
            _ => &[],
        }
    }
}

impl<'a, F: Unicast> Unit<BytesRef<'a>, Prefix<F>, Rules<F>> {
    /// Returns the unit with a copy of its bytes. Up to 112 of them allocate nothing.
    // Inlined, since for a call every borrowed unit would be kept in memory, padding and all.
    #[inline(always)]
    #[tactic(auto, using(crate::proofs::HeldLaws::own_unit))]
    pub fn to_unit(&self, alloc: Global) -> Result<UnitOf<F>, Memory>
        ensures copies { IfOk result (λ unit. unit ≡ self.now) }
        ensures short { length (payload_bytes self.now.payload) ≤ 112 → IsOk result }
    {
        let bytes = PayloadBytes::from_slice(alloc, self.payload.as_slice())?;
        Ok(self.with_bytes(bytes))
    }
}

impl<F: Unicast> Payload<PayloadBytes, Prefix<F>, Rules<F>> {
    /// Its bytes: none of a state change or a clear.
    #[inline(always)]
    fn as_slice(&self) -> &[u8]
        ensures { result.now ≡ payload_bytes self.now }
    {
        match self {
            Payload::Message { bytes, .. } => bytes.as_slice(),
            Payload::Entry { attrs, .. } => attrs.as_slice(),
            _ => &[],
        }
    }

    /// Borrows the payload's bytes.
    #[tactic(auto, using(crate::proofs::HeldLaws::own_payload))]
    pub fn as_ref(&self) -> PayloadRef<'_, F>
        ensures { result ≡ self.now }
    {
        self.with_bytes(BytesRef::new(self.as_slice()))
    }
}

impl<F: Unicast> Unit<PayloadBytes, Prefix<F>, Rules<F>> {
    /// Borrows the unit's bytes.
    #[tactic(auto, using(crate::proofs::HeldLaws::own_unit))]
    pub fn as_ref(&self) -> UnitRef<'_, F>
        ensures { result ≡ self.now }
    {
        self.with_bytes(BytesRef::new(self.payload.as_slice()))
    }
}
