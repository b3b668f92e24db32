//! The tables of three peers, as large as they are asked for.

ghost use Rattle.std.specs.Prelude.{◌≡◌, ◌≢◌, [], ◌∷◌, map, nat_eq};
ghost use Rattle.std.specs.List.{IsDistinct};
ghost use Rattle.peer_tables.specs.Gathers.{gathered_seats};

use crate::units::{entry_of, peer_of, unit_of};
use adj_rib::{RouteId, Session};
use bgp_prefix::{Memory, PrefixMap, Sequence};
use fixtures::bytes_of;
use mrt_frame::Fault;
use peer_units::{Damage, Place};
use prefix_maps::Radix;
use rib_report::{Gathered, Seated, Tables, collect};
use std::alloc::Global;
use std::process::Abort;

/// A route with so long a path that its line alone outgrows a buffer.
const LONGEST: u32 = 9_000;

/// The first and the last route with paths of 60 numbers: 100 of their lines fill a buffer.
const LONG: (u32, u32) = (4_000, 5_000);

/// The bytes of ORIGIN IGP, and of an AS_PATH whose numbers are all 4,200,000,001 and that of the peer.
fn attributes(alloc: Global, number: u32, i: u32) -> Result<Vec<u8>, Memory> {
    let (count, numbers): (u16, u8) = if i == LONGEST {
        (64, 255)
    } else if LONG.0 <= i && i <= LONG.1 {
        (1, 60)
    } else {
        (1, (i % 7) as u8 + 1)
    };
    let length = count.wrapping_mul(u16::from(numbers) * 4 + 2);
    let mut bytes = bytes_of(alloc, "40010100 5002")?;
    bytes.extend_from_slice(&length.to_be_bytes())?;
    for _ in 0..count {
        bytes.extend_from_slice(&[2, numbers])?;
        for _ in 0..numbers {
            bytes.extend_from_slice(&4_200_000_001u32.wrapping_add(number).to_be_bytes())?;
        }
    }
    Ok(bytes)
}

/// The session of a peer with so many routes, and with one damaged entry.
fn session(
    alloc: Global,
    number: u32,
    routes: u32,
) -> Result<Session<Radix<u32, RouteId>>, Memory> {
    let mut session = Session::new(alloc);
    let damaged = entry_of(0, 20, 0, bytes_of(alloc, "40010103")?);
    session.take(alloc, &unit_of(number, damaged))?;
    for i in 0..routes {
        let entry = entry_of(i << 12, 20, 0, attributes(alloc, number, i)?);
        session.take(alloc, &unit_of(number, entry))?;
    }
    Ok(session)
}

/// What two lanes hand in: the first has one seat, the second two.
fn two_lanes<M: PrefixMap<RouteId, Addr = u32> + Drop>(
    rt: &impl Abort,
    alloc: Global,
    first: Seated<M>,
    second: Seated<M>,
    third: Seated<M>,
    refused: &[Damage],
) -> Gathered<M>
    ensures { result.lanes ≡ (first ∷ []) ∷ (second ∷ third ∷ []) ∷ [] }
{
    let mut one = Vec::new(alloc);
    one.push(first).expect(rt, "a lane");
    let mut two = Vec::new(alloc);
    two.push(second).expect(rt, "a lane");
    two.push(third).expect(rt, "a lane");
    let mut lanes = Vec::new(alloc);
    lanes.push(Sequence::from_vec(one)).expect(rt, "lanes");
    lanes.push(Sequence::from_vec(two)).expect(rt, "lanes");
    let refused = Vec::from_slice(alloc, refused).expect(rt, "refusals");
    Gathered {
        lanes: Sequence::from_vec(lanes),
        refused: Sequence::from_vec(refused),
    }
}

const REFUSED: Damage = Damage {
    place: Place {
        file: 0,
        offset: 0,
        entry: None,
    },
    fault: Fault::NoPeerIndex,
};

/// The tables of three peers with these sessions.
fn tables_of_sessions<M: PrefixMap<RouteId, Addr = u32> + Drop>(
    rt: &impl Abort,
    alloc: Global,
    first: Session<M>,
    second: Session<M>,
    third: Session<M>,
) -> Tables<M> {
    let first = Seated {
        number: 0,
        key: peer_of(0),
        session: first,
    };
    let second = Seated {
        number: 1,
        key: peer_of(1),
        session: second,
    };
    let third = Seated {
        number: 2,
        key: peer_of(2),
        session: third,
    };
    let gathered = two_lanes(rt, alloc, first, second, third, &[REFUSED]);
    match collect(alloc, gathered) {
        Ok(tables) => tables,
        Err(_) => panic!(rt; "no memory"),
    }
}

/// The tables of three peers with so many routes.
pub fn tables_of(
    rt: &impl Abort,
    alloc: Global,
    routes: [u32; 3],
) -> Result<Tables<Radix<u32, RouteId>>, Memory> {
    let first = session(alloc, 0, routes[0])?;
    let second = session(alloc, 1, routes[1])?;
    let third = session(alloc, 2, routes[2])?;
    Ok(tables_of_sessions(rt, alloc, first, second, third))
}
