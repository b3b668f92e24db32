//! Replays of readers and of files in memory.

use adj_rib::RouteId;
use bgp_prefix::PrefixMap;
use lane_deal::{ByTurns, Gate, NoGate, Plan};
use mrt_frame::{Counted, ReplayError, Source};
use mrt_replay::run;
use peer_units::Selection;
use replay_summary::{Summary, status};
use report_request::{AddressForm, Layout, Request};
use std::alloc::Global;
use std::marker::Sync;
use std::process::Abort;
use std::test::Fail;
use std::thread::Threads;

/// The plan of the tests.
pub const PLAN: Plan = Plan {
    workers: 2,
    ring: 4,
    batch: 8,
    looks: 0,
    max_records: 1 << 47,
};

/// Addresses in full.
pub fn full() -> Layout {
    Layout::all(AddressForm::Full)
}

/// What a run answered, and what it wrote.
#[derive(Drop)]
pub struct Outcome {
    pub result: Result<Summary, ReplayError>,
    pub text: Vec<u8>,
}

impl Outcome {
    /// Whether the run failed with this error, and wrote nothing.
    pub fn failed_with(&self, error: ReplayError) -> bool {
        let is_so = match &self.result {
            Err(found) => *found == error,
            Ok(_) => false,
        };
        is_so && self.text.is_empty() && status(&self.result) == 3
    }
}

/// Replays these readers by turns, into memory, beside a gate.
pub fn replay_beside<
    M: PrefixMap<RouteId, Addr = u32> + Send + Sync + Drop,
    R: Source + Send,
    G: Gate + Sync,
>(
    rt: &(impl Threads + Abort + Sync),
    alloc: Global,
    readers: &mut [R],
    request: &Request,
    plan: &Plan,
    gate: &G,
) -> Result<Outcome, Fail> {
    assert!(rt; plan.check());
    let mut out = Counted::new(Vec::<u8>::new(alloc));
    let result = run::<_, M, _, _, _, _, _>(
        rt,
        alloc,
        readers,
        request,
        full(),
        Selection::all(alloc),
        plan,
        &ByTurns,
        gate,
        &mut out,
    );
    let text = Vec::from_slice(alloc, out.device().as_slice())?;
    Ok(Outcome { result, text })
}

/// Replays these readers by turns, into memory.
pub fn replay_readers<M: PrefixMap<RouteId, Addr = u32> + Send + Sync + Drop, R: Source + Send>(
    rt: &(impl Threads + Abort + Sync),
    alloc: Global,
    readers: &mut [R],
    request: &Request,
    plan: &Plan,
) -> Result<Outcome, Fail> {
    replay_beside::<M, R, NoGate>(rt, alloc, readers, request, plan, &NoGate)
}

/// Replays files in memory.
pub fn replay<M: PrefixMap<RouteId, Addr = u32> + Send + Sync + Drop>(
    rt: &(impl Threads + Abort + Sync),
    alloc: Global,
    files: &[Vec<u8>],
    request: &Request,
    plan: &Plan,
) -> Result<Outcome, Fail> {
    let mut readers = Vec::new(alloc);
    for file in files {
        readers.push(Counted::new(file.as_slice()))?;
    }
    replay_readers::<M, _>(rt, alloc, readers.as_mut_slice(), request, plan)
}
