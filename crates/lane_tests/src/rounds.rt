//! Where rounds end, and what is left at a read that fails.

use crate::playing::{PLAN, Play, counts_of, outcome};
use adj_rib::RouteId;
use fixtures::{THREE_PEERS, bytes_of};
use lane_deal::{NoGate, Plan};
use prefix_maps::Radix;
use std::io::ErrorKind;
use std::test::Fail;

/// Without looks a worker takes what was dealt in earlier rounds. A single one that looks takes units in the round in
/// which they are dealt, and passes no ring. `Ok` is the answer of a settling.
#[test]
fn rounds_end_blocked_full_or_at_the_end_of_the_file(rt: HostRuntime) -> Result<(), Fail> {
    let alloc = rt.alloc();
    let bytes = bytes_of(alloc, "announcement announcement announcement")?;
    let one = Plan {
        workers: 1,
        ring: 1,
        ..PLAN
    };
    let alone = Plan { looks: 1, ..one };
    for (plan, steps) in [
        (
            one,
            [
                ("Blocked", (1, 1, 1, 0)),
                ("Ok", (2, 1, 0, 1)),
                ("Blocked", (3, 2, 1, 1)),
            ],
        ),
        (
            one,
            [
                ("Blocked", (1, 1, 1, 0)),
                ("Ok", (2, 1, 0, 1)),
                ("Ok", (3, 1, 0, 1)),
            ],
        ),
        (
            PLAN,
            [
                ("Ok", (1, 0, 0, 0)),
                ("End", (2, 3, 3, 0)),
                ("End", (2, 3, 3, 0)),
            ],
        ),
        (
            Plan { batch: 2, ..PLAN },
            [
                ("FullBatch", (1, 2, 2, 0)),
                ("End", (2, 3, 1, 2)),
                ("Ok", (3, 3, 0, 3)),
            ],
        ),
        (
            Plan { batch: 3, ..PLAN },
            [
                ("FullBatch", (1, 3, 3, 0)),
                ("End", (2, 3, 0, 3)),
                ("Ok", (3, 3, 0, 3)),
            ],
        ),
        (
            alone,
            [
                ("End", (1, 3, 0, 3)),
                ("End", (1, 3, 0, 3)),
                ("Ok", (2, 3, 0, 3)),
            ],
        ),
        (
            Plan { batch: 2, ..alone },
            [
                ("FullBatch", (1, 2, 0, 2)),
                ("End", (2, 3, 0, 3)),
                ("Ok", (3, 3, 0, 3)),
            ],
        ),
    ] {
        let mut play = Play::<Radix<u32, RouteId>>::new(&rt, alloc, bytes.as_slice(), None, plan)?;
        for (wanted, counts) in steps {
            let answer = play.step(&rt, alloc, &NoGate, wanted == "Ok");
            assert!(rt;
                answer == wanted && counts_of(&play.replayer) == counts,
                "{answer}"
            );
        }
    }
    Ok(())
}

/// Files that fail at each byte: five units of three peers, and a unit with two refusals behind it.
#[test]
fn a_failed_read_leaves_the_units_and_the_refusals_before_it(rt: HostRuntime) -> Result<(), Fail> {
    let alloc = rt.alloc();
    let refused = "announcement 00000001 0010 0001 00000002 0000 00000002 0010 0001 00000002 0000";
    for (words, refuses) in [(THREE_PEERS, false), (refused, true)] {
        let bytes = bytes_of(alloc, words)?;
        for end in 0..=bytes.len() {
            let plan = Plan {
                workers: 1 + end % 4,
                looks: (end / 4 % 2) as u32,
                ..PLAN
            };
            let failure = Some(ErrorKind::Interrupted);
            let front = &bytes.as_slice()[..end];
            let (answer, found) = outcome::<Radix<u32, RouteId>, _>(
                &rt, alloc, front, failure, plan, &NoGate,
            )?;
            let units = end / 77;
            let peers = match units {
                2 | 3 => 2,
                units => units.min(3),
            };
            let refusals = if refuses {
                end.saturating_sub(77) / 14
            } else {
                0
            };
            let wanted = (units as u64, peers, peers as u64, refusals);
            assert!(rt;
                answer == "Read 0" && found == Some(wanted),
                "a read that fails at {end}"
            );
        }
    }
    Ok(())
}
