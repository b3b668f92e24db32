//! Calls of which one growth may be refused: each answers `Memory`, or what it answers with ample memory, and
//! leaves what it says. The gate runs them with ample memory; `make growths` refuses the Nth growth of each
//! test, for N = 1, 2 and so on. A growth that is refused to a test itself ends it with an error.

use crate::harness::{PLAN, full};
use adj_rib::RouteId;
use bgp_prefix::PrefixMap;
use chunked_map::ChunkedMap;
use command_line::{Asked, Usage, read_words};
use fixtures::{THREE_PEERS, THREE_ROUTES, bytes_of};
use lane_deal::{ByTurns, Dealing, NoGate, Plan};
use lane_schedules::{ByBlocks, ByList};
use mrt_frame::{Counted, ReplayError};
use mrt_replay::run;
use peer_units::Selection;
use prefix_maps::{Flat, Radix};
use report_request::Request;
use std::alloc::Global;
use std::marker::Sync;
use std::process::Abort;
use std::test::Fail;
use std::thread::Threads;

/// A run that is Ok wrote the report, and one that wants memory nothing. The writer has room for it.
fn expect_report<M: PrefixMap<RouteId, Addr = u32> + Send + Sync + Drop, D: Dealing + Sync>(
    rt: &(impl Threads + Abort + Sync),
    alloc: Global,
    words: &str,
    request: &Request,
    dealing: &D,
    expected: &str,
) -> Result<(), Fail> {
    let bytes = bytes_of(alloc, words)?;
    let mut readers = [Counted::new(bytes.as_slice())];
    let mut out = Counted::new(Vec::<u8>::with_capacity(alloc, 1000)?);
    let result = run::<_, M, _, _, _, _, _>(
        rt,
        alloc,
        &mut readers,
        request,
        full(),
        Selection::all(alloc),
        &PLAN,
        dealing,
        &NoGate,
        &mut out,
    );
    let text = out.device().as_slice();
    match result {
        Ok(_) => assert!(rt; text == expected.as_bytes(), "{expected}"),
        Err(error) => assert!(rt; error == ReplayError::Memory && text.is_empty()),
    }
    Ok(())
}

#[test]
fn a_run_by_each_dealing_writes_its_report_or_wants_memory(rt: HostRuntime) -> Result<(), Fail> {
    let alloc = rt.alloc();
    let tables = &Request::Tables;
    let list = ByList::new(vec![in alloc; 1, 1, 0]?);
    let blocks = ByBlocks::new(2);
    expect_report::<Flat<u32, _>, _>(&rt, alloc, THREE_PEERS, tables, &ByTurns, THREE_ROUTES)?;
    expect_report::<Radix<u32, _>, _>(&rt, alloc, THREE_PEERS, tables, &blocks, THREE_ROUTES)?;
    expect_report::<ChunkedMap<u32, _>, _>(&rt, alloc, THREE_PEERS, tables, &list, THREE_ROUTES)
}

/// An index, a RIB record whose second entry is damaged, and an announcement.
#[test]
fn a_run_of_each_request_writes_its_report_or_wants_memory(rt: HostRuntime) -> Result<(), Fail> {
    let alloc = rt.alloc();
    let words = "peer-index-table rib-record announcement";
    let lines =
        "65000 2001:0db8:0000:0000:0000:0000:0000:0001|10.0.0.0/8|65000|192.0.2.1|IGP|-|-|-|-
65000 192.0.2.1|10.0.0.0/8|65000|192.0.2.1|IGP|-|-|-|-
";
    let churns = "65000 2001:0db8:0000:0000:0000:0000:0000:0001|1|0|0|0|0|0|0|0|3.000000|3.000000
70000 192.0.2.2|0|0|0|0|0|0|0|1|3.000000|3.000000
65000 192.0.2.1|1|0|0|0|0|0|0|0|1.000000|1.000000
";
    let peers = "65000 2001:0db8:0000:0000:0000:0000:0000:0001|up|1|1|3.000000|3.000000|1|56|1
70000 192.0.2.2|up|0|1|3.000000|3.000000|1|56|2
65000 192.0.2.1|up|1|1|1.000000|1.000000|1|116|-
";
    let rows =
        "3.000000|65000 2001:0db8:0000:0000:0000:0000:0000:0001|new|rib|10.0.0.0/8|65000|192.0.2.1|IGP|-|-|-|-
1.000000|65000 192.0.2.1|new|update|10.0.0.0/8|65000|192.0.2.1|IGP|-|-|-|-
";
    let all = Request::History {
        since: None,
        same: true,
    };
    let changes = Request::History {
        since: None,
        same: false,
    };
    for (request, expected) in [
        (Request::Tables, lines),
        (Request::Visibility, "10.0.0.0/8|2\n"),
        (Request::Origins, ""),
        (Request::Seen, "10.0.0.0/8|65000|2\n"),
        (Request::Churn { since: None }, churns),
        (Request::Churn { since: Some(1) }, churns),
        (all, rows),
        (changes, rows),
        (Request::Peers, peers),
        (Request::Match(0x0A00_0001), lines),
        (Request::Faults, "1|56|2|14|BadAttribute(1)\n"),
    ] {
        expect_report::<ChunkedMap<u32, _>, _>(&rt, alloc, words, &request, &ByTurns, expected)?;
    }
    Ok(())
}

#[test]
fn words_give_their_job_or_want_memory(rt: HostRuntime) -> Result<(), Fail> {
    let alloc = rt.alloc();
    let mut words = Vec::new(alloc);
    for word in ["tables", "x"] {
        words.push(String::from_str(alloc, word)?)?;
    }
    let answer = read_words(alloc, words.as_slice());
    match &answer {
        Ok(Asked::Ipv4(job)) => {
            assert!(rt; job.request == Request::Tables && job.workers == 4 && job.ring == 1024);
            assert!(rt; job.files.len() == 1);
        }
        Err(Usage::Memory) => {}
        Ok(Asked::Ipv6(_)) | Err(_) => assert!(rt; false, "tables x"),
    }
    Ok(())
}
