//! Growths of which one may be refused (`make growths`): each leaves the map as it was, and the same call is then
//! answered.

use super::keys::{Tried, key_at};
use bgp_prefix::*;
use chunked_map::ChunkedMap;
use prefix_maps::{Flat, Radix};
use std::alloc::Global;
use std::process::Abort;
use std::test::Fail;

const FIRST_KEYS: [(u32, u8, u32); 9] = [
    (0x0A01_0000, 16, 0),
    (0x0A01_0000, 24, 0),
    (0x0A02_0000, 16, 0),
    (0x0A00_0000, 8, 0),
    (0x0A00_0000, 14, 1),
    (0x0A00_0000, 14, 0),
    (0x0A02_0000, 16, 1),
    (0x0A02_0000, 16, 2),
    (0x0A02_0000, 16, 4),
];

/// More keys than a leaf of the trie or of the chunked map has, so that the one becomes a fork, and the other two.
const GROWING: usize = 200;

/// The key of a place after `from` bits that are 0: after those of the table, prefixes of 24 bits by turns in two
/// halves of a network.
fn growing<F: Tried>(from: u8, i: usize) -> RouteKey<Prefix<F>> {
    match FIRST_KEYS.get(i) {
        Some((addr, len, id)) => key_at(from, *addr, *len, *id),
        None => {
            let place = (i % GROWING) as u32;
            let addr = 0x0B00_0000 + place % 2 * 0x0080_0000 + place * 0x100;
            key_at(from, addr, 24, 0)
        }
    }
}

/// The first `count` keys have their places as values, and no other key has one.
fn expect_first<F: Tried, M: PrefixMap<usize, Addr = F>>(
    rt: &impl Abort,
    map: &M,
    from: u8,
    count: usize,
) {
    assert_eq!(rt; map.len(), count);
    for i in 0..GROWING {
        let value = map.get(&growing(from, i)).copied();
        assert_eq!(rt; value, if i < count { Some(i) } else { None });
    }
}

fn grow<F: Tried, M: PrefixMap<usize, Addr = F> + Drop>(
    rt: &impl Abort,
    alloc: Global,
    from: u8,
) -> Result<(), Fail> {
    let mut map: M = PrefixMap::new(alloc);
    for i in 0..GROWING {
        let new = growing(from, i);
        if map.insert(alloc, &new, i).is_err() {
            expect_first(rt, &map, from, i);
            assert!(rt; map.insert(alloc, &new, i)?.is_none());
        }
        expect_first(rt, &map, from, i + 1);
    }
    if map.entries(alloc).is_err() {
        expect_first(rt, &map, from, GROWING);
        assert!(rt; map.entries(alloc)?.len() == GROWING);
    }
    let prefix = key_at(from, 0x0A02_0000, 16, 0).prefix;
    if map.paths(alloc, &prefix).is_err() {
        expect_first(rt, &map, from, GROWING);
        assert!(rt; map.paths(alloc, &prefix)?.len() == 4);
    }
    Ok(())
}

/// Of IPv6 the keys differ on both sides of the place where the address's halves meet.
#[test]
fn a_refused_growth_leaves_each_map(rt: HostRuntime) -> Result<(), Fail> {
    grow::<u32, Flat<u32, usize>>(&rt, rt.alloc(), 0)?;
    grow::<u32, Radix<u32, usize>>(&rt, rt.alloc(), 0)?;
    grow::<u32, ChunkedMap<u32, usize>>(&rt, rt.alloc(), 0)?;
    grow::<Ipv6, Flat<Ipv6, usize>>(&rt, rt.alloc(), 56)?;
    grow::<Ipv6, Radix<Ipv6, usize>>(&rt, rt.alloc(), 56)?;
    grow::<Ipv6, ChunkedMap<Ipv6, usize>>(&rt, rt.alloc(), 56)
}
