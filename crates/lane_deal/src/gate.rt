//! Gates, which are notified of a replay's progress, and how its threads wait.

use peer_units::Damage;
use std::thread::yield_now;

/// How a thread of a round waits that finds nothing to do.
pub trait Idle {
    /// Called by a worker that finds no unit, before it looks again: it has looked in vain this many times in a row.
    /// Lets other threads run. One that has a clock may sleep here.
    fn pause(&self, _looks: u32) {
        yield_now();
    }

    /// The same for the dealer that finds no room for a unit.
    fn wait_for_room(&self, looks: u32) {
        self.pause(looks);
    }
}

/// Is notified when units are dealt and taken, and returns. Numbers count from 0 in each lane.
pub trait Gate: Idle {
    /// Called by a worker just before it takes the unit with this number of its lane.
    fn before(&self, worker: usize, number: u64);

    /// Called by the dealer just after its push of the unit with this number to a lane.
    fn dealt(&self, lane: usize, number: u64);

    /// Whether it wants to be notified of the current number of routes. Asked after each round of a replay.
    fn is_counting(&self) -> bool {
        false
    }

    /// Called after a round, if `is_counting` says so, with the number of routes in the tables of all lanes.
    fn counted(&self, _routes: u64) {}

    /// Called after a complete run, once for each listed fault: of a record that was refused, or of a damaged unit.
    fn listed(&self, _damage: &Damage, _is_refused: bool) {}
}

/// A gate that does nothing, whose threads let others run.
#[derive(Clone, Copy, Debug)]
pub struct NoGate;

impl Idle for NoGate {}

impl Gate for NoGate {
    fn before(&self, _worker: usize, _number: u64) {}

    fn dealt(&self, _lane: usize, _number: u64) {}
}
