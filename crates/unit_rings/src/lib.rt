//! Units on their way from the dealer to a worker: listed, in rings of lists, and decoded.
//!
//! - **A ring's item is a list of up to 32 units** whose bytes are in one block, so that a ring's position is exchanged
//!   once for them all and no unit is an allocation. The producer counts units (`UnitProducer`): a round is blocked by
//!   units, not lists, and contracts see a ring of units. A listed unit of IPv4 has 32 bytes: the records and peers of
//!   a list are listed once. Lists go back by a second ring, since a worker that freed them would lock the dealer's
//!   heap; the dealer writes to all of one before it fills it again, so that the misses overlap.
#![tactic(auto)]

mod decoded_units;
mod listed_unit;
mod peer_unit;
mod unit_head;
mod unit_list;
mod unit_producer;

pub use decoded_units::DecodedUnits;
pub use peer_unit::{NonEmptyLists, PeerUnit, PeerUnitOf, PeerUnitRef};
pub use unit_head::UnitHead;
pub use unit_list::{UnitList, UnitListOf};
pub use unit_producer::{UnitProducer, UnitProducerOf, recycled_room};
