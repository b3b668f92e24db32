//! A replay of one file, round by round.

use adj_rib::RouteId;
use bgp_prefix::{Memory, PrefixMap};
use fixtures::Dripping;
use lane_deal::{ByTurns, Gate, Plan, Replayer, Step};
use mrt_body::Units;
use mrt_frame::{Counted, ReplayError};
use peer_units::Selection;
use rib_report::Tables;
use std::alloc::Global;
use std::io::ErrorKind;
use std::marker::Sync;
use std::process::Abort;
use std::thread::Threads;

/// Two workers with short rings and rounds.
pub const PLAN: Plan = Plan {
    workers: 2,
    ring: 4,
    batch: 8,
    looks: 0,
    max_records: 1 << 47,
};

fn name_of(answer: &Result<Step, ReplayError>) -> &'static str {
    match answer {
        Ok(Step::Blocked) => "Blocked",
        Ok(Step::FullBatch) => "FullBatch",
        Ok(Step::End) => "End",
        Err(ReplayError::Read { file: 0 }) => "Read 0",
        Err(ReplayError::Memory) => "Memory",
        Err(ReplayError::Records) => "Records",
        Err(ReplayError::Spent) => "Spent",
        Err(_) => "another error",
    }
}

/// The numbers of rounds and of units dealt, and of the units that wait in the first lane and that it took.
pub fn counts_of<M: PrefixMap<RouteId, Addr = u32>>(
    replayer: &Replayer<M, ByTurns>,
) -> (u64, u64, usize, u64) {
    (
        replayer.rounds(),
        replayer.dealt(),
        replayer.waiting(0),
        replayer.took(0),
    )
}

/// A replay under way.
#[derive(Drop)]
pub struct Play<'a, M: PrefixMap<RouteId, Addr = u32>> {
    units: Units,
    readers: Vec<Counted<Dripping<'a>>>,
    pub replayer: Replayer<M, ByTurns>,
}

impl<'a, M: PrefixMap<RouteId, Addr = u32> + Send + Drop> Play<'a, M> {
    /// A replay of these bytes. If there is a failure, the reader fails with it in place of its end.
    pub fn new(
        rt: &impl Abort,
        alloc: Global,
        bytes: &'a [u8],
        failure: Option<ErrorKind>,
        plan: Plan,
    ) -> Result<Play<'a, M>, Memory> {
        assert!(rt; plan.check());
        let mut readers = Vec::new(alloc);
        readers.push(Counted::new(Dripping::new(bytes, failure)))?;
        let replayer = Replayer::new(alloc, plan, ByTurns)?;
        Ok(Play {
            units: Units::new(alloc, 1, plan.max_records, Selection::all(alloc)),
            readers,
            replayer,
        })
    }

    /// Settles or plays a round, and names the answer.
    pub fn step<G: Gate + Sync>(
        &mut self,
        rt: &(impl Threads + Abort + Sync),
        alloc: Global,
        gate: &G,
        settles: bool,
    ) -> &'static str {
        if settles {
            return match self.replayer.settle(rt, alloc, gate) {
                Ok(()) => "Ok",
                Err(error) => name_of(&Err(error)),
            };
        }
        assert!(rt; self.readers.len() == self.units.count());
        let answer = self.replayer.round(
            rt,
            alloc,
            &mut self.units,
            self.readers.as_mut_slice(),
            gate,
        );
        name_of(&answer)
    }
}

/// The tables of a settled replayer. Where a growth is refused it comes back as it was, and the call is made again.
fn tables_of<M: PrefixMap<RouteId, Addr = u32> + Drop>(
    rt: &impl Abort,
    alloc: Global,
    replayer: Replayer<M, ByTurns>,
) -> Result<Tables<M>, ReplayError> {
    let counts = counts_of(&replayer);
    let settled = replayer.is_settled();
    assert!(rt; settled, "all rings are empty");
    match replayer.into_tables(alloc) {
        Ok(tables) => Ok(tables),
        Err((back, _)) => {
            let settled = back.is_settled();
            assert!(rt; settled, "all rings are empty");
            assert!(rt; counts_of(&back) == counts, "the replayer that came back");
            back.into_tables(alloc).map_err(|refused| refused.1)
        }
    }
}

/// What the last round of a replay of these bytes answers, and the numbers of units, peers, routes and refusals of
/// the tables after a settling. Where there are no tables each further call answers `Spent`.
pub fn outcome<M: PrefixMap<RouteId, Addr = u32> + Send + Drop, G: Gate + Sync>(
    rt: &(impl Threads + Abort + Sync),
    alloc: Global,
    bytes: &[u8],
    failure: Option<ErrorKind>,
    plan: Plan,
    gate: &G,
) -> Result<(&'static str, Option<(u64, usize, u64, usize)>), ReplayError> {
    let mut play = Play::<M>::new(rt, alloc, bytes, failure, plan)?;
    let mut answer = "Blocked";
    for _ in 0..100u32 {
        if answer != "Blocked" && answer != "FullBatch" {
            break;
        }
        answer = play.step(rt, alloc, gate, false);
    }
    if play.step(rt, alloc, gate, true) != "Ok" {
        assert!(rt; play.replayer.is_spent());
        for settles in [false, true] {
            assert!(rt; play.step(rt, alloc, gate, settles) == "Spent");
        }
        return Ok((answer, None));
    }
    let dealt = play.replayer.dealt();
    let tables = tables_of(rt, alloc, play.replayer)?;
    let counts = (
        dealt,
        tables.peers(),
        tables.routes(),
        tables.refused().len(),
    );
    Ok((answer, Some(counts)))
}
