//! Lanes on one thread, by a list of events.

use adj_rib::RouteId;
use bgp_prefix::{Memory, PrefixMap};
use chunked_map::ChunkedMap;
use fixtures::{Refusing, THREE_PEERS, bytes_of};
use lane_schedules::{ByList, Lanes, Turn, run_schedule};
use mrt_body::Units;
use mrt_frame::Counted;
use peer_units::{Found, PeerAddr, Selection, Unit};
use rib_report::table_rows;
use std::alloc::Global;
use std::process::Abort;
use std::test::Fail;

/// The five units of three peers.
fn five_units(rt: &impl Abort, alloc: Global) -> Result<Vec<Unit>, Fail> {
    let bytes = bytes_of(alloc, THREE_PEERS)?;
    let mut readers = [Counted::new(bytes.as_slice())];
    let mut units = Units::new(alloc, 1, 1 << 47, Selection::all(alloc));
    let mut all = Vec::new(alloc);
    for _ in 0..5u32 {
        assert!(rt; readers.len() == units.count());
        match units.next(alloc, &mut readers)? {
            Some(Found::Unit(unit)) => all.push(unit)?,
            _ => return Err(Fail::from("no unit")),
        }
    }
    Ok(all)
}

/// Two lanes after a list of events, some of which find nothing. The first peer has the second lane.
fn scheduled<M: PrefixMap<RouteId, Addr = u32> + Drop>(
    rt: &impl Abort,
    alloc: Global,
) -> Result<Result<Lanes<M>, Memory>, Fail> {
    let units = five_units(rt, alloc)?;
    let list = ByList::new(vec![in alloc; 1, 0]?);
    let turns = [
        Turn::Take(1),
        Turn::Deal,
        Turn::Deal,
        Turn::Take(0),
        Turn::Deal,
        Turn::Take(1),
        Turn::Take(7),
    ];
    Ok(run_schedule(alloc, units, &turns, &list, 2))
}

/// Each number of these lanes is the one expected: events that find nothing change nothing.
fn expect_counts<M: PrefixMap<RouteId, Addr = u32>>(rt: &impl Abort, lanes: &Lanes<M>) {
    assert!(rt; lanes.undealt() == 2);
    for (lane, waiting, took) in [(0, 0, 1), (1, 1, 1), (2, 0, 0), (7, 0, 0)] {
        assert!(rt;
            lanes.waiting(lane) == waiting && lanes.took(lane) == took,
            "lane {lane}"
        );
    }
}

/// The peers come in the order of their numbers, and not of the lanes. Where a growth is refused the lanes come back as
/// they were, and the call is made again; a map that refuses each growth leaves none.
#[test]
fn turns_that_find_nothing_change_nothing(rt: HostRuntime) -> Result<(), Fail> {
    let alloc = rt.alloc();
    assert!(rt; scheduled::<Refusing>(&rt, alloc)?.is_err());
    let lanes = scheduled::<ChunkedMap<u32, RouteId>>(&rt, alloc)??;
    expect_counts(&rt, &lanes);
    let tables = match lanes.into_tables(alloc) {
        Ok(tables) => tables,
        Err((back, _)) => {
            expect_counts(&rt, &back);
            back.into_tables(alloc).map_err(|refused| refused.1)?
        }
    };
    match table_rows(alloc, &tables)?.as_slice() {
        [first, second] => {
            assert!(rt; first.peer.addr == PeerAddr::V4(0xC000_0201));
            assert!(rt; second.peer.addr == PeerAddr::V4(0xC000_0202));
        }
        _ => assert!(rt; false, "a route of each"),
    }
    Ok(())
}
