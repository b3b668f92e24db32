//! What gates are told, and whether workers and the dealer run side by side.

use crate::playing::{PLAN, outcome};
use adj_rib::RouteId;
use fixtures::{THREE_PEERS, bytes_of};
use lane_deal::{Gate, Idle, Plan};
use prefix_maps::Radix;
use std::hint::spin_loop;
use std::sync::atomic::{AtomicBool, AtomicU64, Ordering};
use std::test::Fail;

/// How often the counts of others are looked at.
const TURNS: u32 = 200_000_000;

/// Counts what it is told of each of two lanes, as long as the numbers come in order. The workers of the first lanes,
/// so many as are to meet, wait for one another at their first units, and the dealer for them after a second one.
#[derive(Drop)]
struct Counting {
    dealt: [AtomicU64; 2],
    taken: [AtomicU64; 2],
    meeting: u32,
    /// A number came out of order, or somebody waited in vain.
    astray: AtomicBool,
}

impl Counting {
    fn count(&self, counts: &[AtomicU64], lane: usize, number: u64) {
        match counts.get(lane) {
            Some(count) if count.load(Ordering::SeqCst) == number => {
                count.store(number.saturating_add(1), Ordering::SeqCst);
            }
            _ => self.astray.store(true, Ordering::SeqCst),
        }
    }

    /// Looks until the workers that are to meet have come to their first units.
    fn meet(&self) {
        for _ in 0..TURNS {
            let first = self.meeting < 1 || self.taken[0].load(Ordering::SeqCst) > 0;
            let second = self.meeting < 2 || self.taken[1].load(Ordering::SeqCst) > 0;
            if first && second {
                return;
            }
            spin_loop();
        }
        self.astray.store(true, Ordering::SeqCst);
    }
}

impl Idle for Counting {}

impl Gate for Counting {
    fn before(&self, worker: usize, number: u64) {
        self.count(&self.taken, worker, number);
        if number == 0 {
            self.meet();
        }
    }

    fn dealt(&self, lane: usize, number: u64) {
        self.count(&self.dealt, lane, number);
        if number == 1 {
            self.meet();
        }
    }
}

/// Two workers meet in the settling or in the second round, and a single one the dealer in the first. Numbers count
/// from 0 in each lane, through all rounds. A worker that takes what is dealt at once is at most 32 units behind.
#[test]
fn workers_run_side_by_side(rt: HostRuntime) -> Result<(), Fail> {
    let alloc = rt.alloc();
    let one = Plan { workers: 1, ..PLAN };
    let alone = Plan { looks: 1, ..one };
    let patient = Plan {
        looks: u32::MAX,
        ..one
    };
    for (words, times, plan, meeting, first, second) in [
        ("announcement by-second", 1, PLAN, 2, 1, 1),
        (
            "announcement by-second",
            1,
            Plan { batch: 2, ..PLAN },
            2,
            1,
            1,
        ),
        ("announcement", 3, patient, 1, 3, 0),
        (THREE_PEERS, 1, PLAN, 0, 3, 2),
        (THREE_PEERS, 1, Plan { ring: 1, ..PLAN }, 0, 3, 2),
        (THREE_PEERS, 1, Plan { batch: 1, ..PLAN }, 0, 3, 2),
        (THREE_PEERS, 1, Plan { ring: 64, ..PLAN }, 0, 3, 2),
        ("announcement", 70, Plan { batch: 1, ..alone }, 0, 70, 0),
        ("announcement", 70, Plan { batch: 40, ..alone }, 0, 70, 0),
        (
            "announcement",
            70,
            Plan {
                batch: 128,
                ..alone
            },
            0,
            70,
            0,
        ),
    ] {
        let mut bytes = Vec::new(alloc);
        for _ in 0..times {
            bytes.extend_from_slice(bytes_of(alloc, words)?.as_slice())?;
        }
        let gate = Counting {
            dealt: [AtomicU64::new(0), AtomicU64::new(0)],
            taken: [AtomicU64::new(0), AtomicU64::new(0)],
            meeting,
            astray: AtomicBool::new(false),
        };
        let bytes = bytes.as_slice();
        let (answer, found) = outcome::<Radix<u32, RouteId>, _>(
            &rt, alloc, bytes, None, plan, &gate,
        )?;
        assert!(rt; answer == "End" && found.is_some());
        assert!(rt;
            !gate.astray.load(Ordering::SeqCst),
            "{words}, {times} times"
        );
        for counts in [&gate.dealt, &gate.taken] {
            assert!(rt;
                counts[0].load(Ordering::SeqCst) == first,
                "{first} of {words}"
            );
            assert!(rt;
                counts[1].load(Ordering::SeqCst) == second,
                "{second} of {words}"
            );
        }
    }
    Ok(())
}
