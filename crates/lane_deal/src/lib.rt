//! How a replay is shared among workers: plans, dealings of peers to lanes, rounds, and gates.
//!
//! A `Replayer` has a lane for each worker: a ring of units on their way, and the sessions of the lane's peers. In a
//! round the dealer reads units and pushes each to its peer's lane, while each worker pops its own and gives them to
//! their sessions. `Replayer::round` is promised for whatever the threads do.
//!
//! - **A fork and a join per round.** `join_mut` hands both sides what they may change and takes it back, so each half
//!   is proved by itself over the ends that it owns. No thread outlives a round, none takes a lock, and none waits for
//!   another one but in the join: so a run can't hang, which is proved like any function's return. The price is that
//!   threads start anew and that a round ends with its slowest worker, so batches are large.
//! - **The dealer runs in the caller's thread.** If no thread can be started, `join_mut` makes both calls in sequence,
//!   dealing first.
//! - **A single worker that looks once takes what is dealt at once** (`Alone`), in the same thread: a unit is decoded
//!   from its record, and neither listed nor copied. The dealer deals alike to it and to the rings of lanes
//!   (`Receives`), and the contract of a round is the same for both.
//! - **A full ring ends a round.** The unit is blocked, and dealt first in the next, so no unit overtakes another in
//!   its lane. Before that the dealer looks again, at most 1,000 times. What a worker takes beyond what waited at first
//!   depends on timing, so the contract says what is dealt and what waits, and not who took how much.
//! - **Rings are made anew after each round**, with what waits moved over in order: then the producer's end knows how
//!   much more may wait, and the consumer's all that waits. No claim rests on the round-over flag, on how often a
//!   thread looks, or on how it pauses, which is up to the gate (`Idle::pause`, `Idle::wait_for_room`).
//! - **All units of a run are of one family of addresses.** Its mark takes no room in a unit, so plain data is generic
//!   in the prefix and the mark, and contracts see the prefixes of either family alike.
//! - **A round's two closures have no type parameter in common** (`Deals`, `Works`), since the borrow checker covers no
//!   others.
//! - **Units are shown to the dealer**, which asks whether another one may wait before it deals it. Its loop is one
//!   function, in which what is seldom needed isn't inlined.
//! - **Peers are numbered by their first unit.** `Dealing` has a law, that the lane of a number is below the number of
//!   lanes and depends on nothing else, so a peer keeps its lane in every file and round. Positions and recent numbers
//!   are hints that carry no claim: what they name is compared.
//! - **`Memory` comes before `Read`** if both happen in one round: the sessions are then no longer those of the dealt
//!   units, and the replayer is spent. After a `Read` alone they are, and `settle` and `into_tables` still work.
//! - **A replayer that isn't spent stands for some units and refusals**, an invariant of the struct (`StandsForSome`);
//!   which ones is a relation (`ReplayerStandsFor`), and no ghost list is kept.
#![tactic(auto)]

mod alone;
mod collecting;
mod dealer;
mod dealing;
mod gate;
mod halves;
mod holding;
mod lane;
mod lane_sender;
mod plan;
mod receives;
mod replayer;
mod round;
mod seats;
mod sessions;
mod step;
mod worker;

pub use collecting::collect_lanes;
pub use dealing::{ByTurns, Dealing};
pub use gate::{Gate, Idle, NoGate};
pub use holding::{HoldsSeats, exchange_seats};
pub use plan::Plan;
pub use replayer::Replayer;
pub use seats::Seats;
pub use sessions::Sessions;
pub use step::Step;
