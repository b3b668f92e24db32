//! Leaves and forks of the trie, by the nodes that a longest match looks at.

use super::keys::{Tried, addr_at, key_at};
use bgp_prefix::*;
use prefix_maps::Radix;
use std::alloc::Global;
use std::process::Abort;
use std::test::Fail;

/// One of 20 keys on each side of the bit behind a prefix: more than a leaf holds.
fn beside<F: Tried>(from: u8, place: u32) -> RouteKey<Prefix<F>> {
    let side = place / 20 % 2 * 0x0080_0000;
    key_at(from, 0x0A00_0000 + side + place % 20 * 0x1_0000, 16, 0)
}

/// Inserts those keys by turns on both sides, behind two routes of the prefix itself.
fn part<F: Tried>(
    rt: &impl Abort,
    alloc: Global,
    map: &mut Radix<F, u32>,
    from: u8,
) -> Result<(), Memory> {
    for id in [7, 0] {
        let cover = key_at(from, 0x0A00_0000, 8, id);
        assert!(rt; map.insert(alloc, &cover, id)?.is_none());
    }
    for step in 0..40u32 {
        let place = (step + 1) % 2 * 20 + step / 2;
        assert!(rt; map.insert(alloc, &beside(from, place), place)?.is_none());
    }
    Ok(())
}

/// The longest match of an address in the prefix of a place is that prefix, after so many nodes.
fn expect_steps<F: Tried>(rt: &impl Abort, map: &Radix<F, u32>, from: u8, place: u32, steps: u32) {
    let addr = 0x0A00_FFFF + place / 20 % 2 * 0x0080_0000 + place % 20 * 0x1_0000;
    let found = map.longest_steps(addr_at(from, addr));
    assert!(rt; found == (Some(beside(from, place).prefix), steps));
}

/// The fork is kept by the prefix's own routes when a branch is gone. Without them the other branch stands alone.
fn part_around_cover<F: Tried>(rt: &impl Abort, alloc: Global, from: u8) -> Result<(), Fail> {
    let mut map: Radix<F, u32> = PrefixMap::new(alloc);
    part(rt, alloc, &mut map, from)?;
    let cover = key_at(from, 0x0A00_0000, 8, 0).prefix;
    assert!(rt; map.longest(addr_at(from, 0x0A40_0000)) == Some(cover));
    expect_steps(rt, &map, from, 3, 2);
    expect_steps(rt, &map, from, 23, 2);
    for place in 0..20u32 {
        assert!(rt; map.remove(&beside(from, place)) == Some(place));
    }
    expect_steps(rt, &map, from, 23, 2);
    for (id, steps) in [(0, 2), (7, 1)] {
        assert!(rt; map.remove(&key_at(from, 0x0A00_0000, 8, id)) == Some(id));
        expect_steps(rt, &map, from, 23, steps);
    }
    assert!(rt; map.longest(addr_at(from, 0x0A03_0001)).is_none() && map.len() == 20);
    Ok(())
}

/// Of IPv6 also by the last bit of the upper half of the address, and by the first of the lower half.
#[test]
fn a_full_leaf_parts_around_its_cover(rt: HostRuntime) -> Result<(), Fail> {
    part_around_cover::<u32>(&rt, rt.alloc(), 0)?;
    for from in [0, 55, 56, 96] {
        part_around_cover::<Ipv6>(&rt, rt.alloc(), from)?;
    }
    Ok(())
}
