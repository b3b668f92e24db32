//! Want of memory in runs, with a map that refuses each growth.

use crate::harness::{PLAN, replay};
use fixtures::{Refusing, THREE_PEERS, bytes_of};
use lane_deal::Plan;
use mrt_frame::ReplayError;
use report_request::Request;
use std::test::Fail;

/// By any number of workers.
#[test]
fn a_run_whose_first_route_is_refused_writes_nothing(rt: HostRuntime) -> Result<(), Fail> {
    let alloc = rt.alloc();
    let files = [bytes_of(alloc, THREE_PEERS)?];
    for workers in [1, 2, 4, 64] {
        let plan = Plan { workers, ..PLAN };
        for request in [
            Request::Tables,
            Request::Visibility,
            Request::Origins,
            Request::Churn { since: None },
            Request::Churn { since: Some(0) },
            Request::Match(0x0A00_0001),
            Request::Faults,
        ] {
            let outcome = replay::<Refusing>(&rt, alloc, &files, &request, &plan)?;
            assert!(rt;
                outcome.failed_with(ReplayError::Memory),
                "{workers} workers"
            );
        }
    }
    Ok(())
}
