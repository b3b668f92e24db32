//! Rounds of which a growth is refused. The gate runs them with ample memory, or with a map that refuses each growth;
//! `make growths` refuses the Nth growth of the first test, for N = 1, 2 and so on. A growth that is refused to the
//! test itself ends it with an error.

use crate::playing::{PLAN, outcome};
use adj_rib::RouteId;
use chunked_map::ChunkedMap;
use fixtures::{Refusing, THREE_PEERS, bytes_of};
use lane_deal::{NoGate, Plan};
use std::io::ErrorKind;
use std::test::Fail;

/// Each round answers what it answers with ample memory, or `Memory`, after which the replayer is spent.
#[test]
fn rounds_give_the_tables_or_spend_the_replayer(rt: HostRuntime) -> Result<(), Fail> {
    let alloc = rt.alloc();
    let bytes = bytes_of(alloc, THREE_PEERS)?;
    let small = Plan {
        ring: 1,
        batch: 2,
        ..PLAN
    };
    let alone = Plan {
        workers: 1,
        looks: 1,
        ..PLAN
    };
    for plan in [small, alone, PLAN] {
        let bytes = bytes.as_slice();
        let (answer, found) = outcome::<ChunkedMap<u32, RouteId>, _>(
            &rt, alloc, bytes, None, plan, &NoGate,
        )?;
        match found {
            Some(counts) => assert!(rt; answer == "End" && counts == (5, 3, 3, 0), "{answer}"),
            None => assert!(rt; answer == "End" || answer == "Memory", "{answer}"),
        }
    }
    Ok(())
}

/// A worker without looks takes what was dealt in earlier rounds: its growth is refused in the second round or in the
/// settling. A single worker that looks takes units in the round in which they are dealt.
#[test]
fn a_refused_growth_comes_before_other_errors_of_its_round(rt: HostRuntime) -> Result<(), Fail> {
    let alloc = rt.alloc();
    let broken = Some(ErrorKind::Other);
    let single = Plan { batch: 1, ..PLAN };
    let alone = Plan {
        workers: 1,
        looks: 1,
        ..PLAN
    };
    let limited = Plan {
        max_records: 1,
        ..PLAN
    };
    for (words, failure, plan, wanted) in [
        ("announcement", None, PLAN, "End"),
        ("announcement", broken, PLAN, "Read 0"),
        ("announcement announcement", None, limited, "Records"),
        ("announcement", None, single, "Memory"),
        ("announcement", broken, single, "Memory"),
        (
            "announcement",
            broken,
            Plan {
                workers: 64,
                ..single
            },
            "Memory",
        ),
        (
            "announcement announcement",
            None,
            Plan {
                batch: 1,
                ..limited
            },
            "Memory",
        ),
        ("announcement", None, alone, "Memory"),
        ("announcement", broken, alone, "Memory"),
    ] {
        let bytes = bytes_of(alloc, words)?;
        let bytes = bytes.as_slice();
        let (answer, found) = outcome::<Refusing, _>(&rt, alloc, bytes, failure, plan, &NoGate)?;
        assert!(rt; answer == wanted && found.is_none(), "{answer}");
    }
    Ok(())
}
