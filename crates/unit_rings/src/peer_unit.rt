ghost use Rattle.unit_rings.specs.UnitLists.{IsUnitList};

use crate::unit_list::UnitList;
use bgp_prefix::Prefix;
use bgp_update::Rules;
use peer_units::{BytesRef, PayloadBytes, Unit};
use rtrb::Protocol;

/// A unit, with its peer's number.
#[derive(Drop)]
pub struct PeerUnit<B = PayloadBytes, P = Prefix, K = Rules> {
    pub number: usize,
    pub unit: Unit<B, P, K>,
}

/// A unit of a family, with its peer's number.
pub type PeerUnitOf<F> = PeerUnit<PayloadBytes, Prefix<F>, Rules<F>>;

/// The same with borrowed bytes.
pub type PeerUnitRef<'a, F> = PeerUnit<BytesRef<'a>, Prefix<F>, Rules<F>>;

/// A ring takes only lists of units whose bytes number at most 16,777,216, and no empty list.
#[derive(Clone, Copy)]
pub struct NonEmptyLists;

impl<P, K> Protocol<UnitList<P, K>> for NonEmptyLists {
    ghost allows = { λ _ list. IsUnitList list };
}
