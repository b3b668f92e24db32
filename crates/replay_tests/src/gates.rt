//! What a gate is told between rounds.

use crate::harness::{PLAN, replay_beside};
use adj_rib::RouteId;
use fixtures::{THREE_PEERS, bytes_of};
use lane_deal::{Gate, Idle, Plan};
use mrt_frame::Counted;
use prefix_maps::Radix;
use report_request::Request;
use std::sync::atomic::{AtomicU64, Ordering};
use std::test::Fail;

/// Writes down the numbers of routes that it is told, as digits of one number.
#[derive(Drop)]
struct Digits {
    told: AtomicU64,
}

impl Idle for Digits {}

impl Gate for Digits {
    fn before(&self, _worker: usize, _number: u64) {}

    fn dealt(&self, _lane: usize, _number: u64) {}

    fn is_counting(&self) -> bool {
        true
    }

    fn counted(&self, routes: u64) {
        let told = self.told.load(Ordering::SeqCst);
        let next = told.saturating_mul(10).saturating_add(routes);
        self.told.store(next, Ordering::SeqCst);
    }
}

/// A worker without a second look takes what was dealt in the rounds before: two units of two peers after the second
/// round, and four of three peers after the third.
#[test]
fn gates_are_told_the_routes_after_rounds(rt: HostRuntime) -> Result<(), Fail> {
    let bytes = bytes_of(rt.alloc(), THREE_PEERS)?;
    let mut readers = [Counted::new(bytes.as_slice())];
    let gate = Digits {
        told: AtomicU64::new(9),
    };
    let plan = Plan {
        workers: 1,
        batch: 2,
        ..PLAN
    };
    let outcome = replay_beside::<Radix<u32, RouteId>, _, _>(
        &rt,
        rt.alloc(),
        &mut readers,
        &Request::Tables,
        &plan,
        &gate,
    )?;
    assert!(rt; gate.told.load(Ordering::SeqCst) == 9023);
    let summary = outcome.result?;
    assert!(rt; summary.routes == 3 && summary.rounds == 4);
    Ok(())
}
