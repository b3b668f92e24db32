//! The limit on records, which is far below what a program allows.

use crate::harness::{PLAN, replay, replay_readers};
use adj_rib::RouteId;
use fixtures::{Zeros, bytes_of};
use lane_deal::Plan;
use mrt_frame::{Counted, ReplayError};
use prefix_maps::Radix;
use report_request::Request;
use std::test::Fail;

#[test]
fn endless_zeros_end_at_the_limit_on_records(rt: HostRuntime) -> Result<(), Fail> {
    let mut readers = [Counted::new(Zeros)];
    let plan = Plan {
        max_records: 5,
        ..PLAN
    };
    let tables = Request::Tables;
    let outcome = replay_readers::<Radix<u32, RouteId>, _>(
        &rt,
        rt.alloc(),
        &mut readers,
        &tables,
        &plan,
    )?;
    assert!(rt; outcome.failed_with(ReplayError::Records));
    Ok(())
}

/// Two records, a limit of one, and a record with a rest that is none.
#[test]
fn one_record_past_the_limit_ends_the_run(rt: HostRuntime) -> Result<(), Fail> {
    let alloc = rt.alloc();
    let line = "65000 192.0.2.1|10.0.0.0/8|65000|192.0.2.1|IGP|-|-|-|-\n";
    for (words, max_records, text) in [
        ("announcement announcement", 1, ""),
        ("announcement announcement", 2, line),
        ("announcement 000000", 1, line),
    ] {
        let files = [bytes_of(alloc, words)?];
        let plan = Plan {
            max_records,
            ..PLAN
        };
        let outcome = replay::<Radix<u32, RouteId>>(&rt, alloc, &files, &Request::Tables, &plan)?;
        assert!(rt; outcome.text.as_slice() == text.as_bytes(), "{words}");
        assert!(rt;
            text.is_empty() == outcome.failed_with(ReplayError::Records),
            "{words}"
        );
    }
    Ok(())
}
