//! Drawn calls of each map beside a plain list, so that each is called at each family.

use super::keys::{Tried, addr_at, key_at};
use bgp_prefix::*;
use chunked_map::ChunkedMap;
use prefix_maps::{Flat, Radix};
use std::alloc::Global;
use std::process::Abort;
use std::test::Fail;

/// Numbers that look drawn, by a linear congruence (Knuth's MMIX).
#[derive(Drop)]
struct Draws {
    state: u64,
}

impl Draws {
    fn bits(&mut self) -> u32 {
        self.state = self
            .state
            .wrapping_mul(6_364_136_223_846_793_005)
            .wrapping_add(1_442_695_040_888_963_407);
        (self.state >> 33) as u32
    }

    /// Bits at many places apart.
    fn addr(&mut self) -> u32 {
        (self.bits() << 1) & 0xC100_8003 | self.bits() & 1
    }

    fn key<F: Tried>(&mut self, from: u8) -> RouteKey<Prefix<F>> {
        let len = ((self.bits() >> 8) % 33) as u8;
        let id = (self.bits() >> 8) % 3;
        key_at(from, self.addr(), len, id)
    }
}

/// The plainest map: entries in no order.
#[derive(Drop)]
struct Plain<F: Tried> {
    entries: Vec<(RouteKey<Prefix<F>>, u32)>,
}

impl<F: Tried> Plain<F> {
    fn remove(&mut self, key: &RouteKey<Prefix<F>>) -> Option<u32> {
        for i in 0..self.entries.len() {
            if self.entries[i].0 == *key {
                return Some(self.entries.swap_remove(i).1);
            }
        }
        None
    }

    fn insert(&mut self, key: RouteKey<Prefix<F>>, value: u32) -> Result<Option<u32>, Memory> {
        let before = self.remove(&key);
        self.entries.push((key, value))?;
        Ok(before)
    }

    fn longest(&self, addr: F) -> Option<Prefix<F>> {
        let mut longest: Option<Prefix<F>> = None;
        for entry in &self.entries {
            let prefix = entry.0.prefix;
            let is_longer = match &longest {
                None => true,
                Some(other) => other.len() < prefix.len(),
            };
            if prefix.contains(addr) && is_longer {
                longest = Some(prefix);
            }
        }
        longest
    }
}

/// Each entry of the list, in order, is one of the map by every call.
fn expect_entries<F: Tried, M: PrefixMap<u32, Addr = F>>(
    rt: &impl Abort,
    alloc: Global,
    map: &M,
    list: &[(RouteKey<Prefix<F>>, u32)],
) -> Result<(), Memory> {
    let all = map.entries(alloc)?;
    assert!(rt; all.len() == list.len() && map.len() == list.len());
    for (entry, wanted) in all.iter().zip(list) {
        assert!(rt; entry.0 == wanted.0 && *entry.1 == wanted.1);
        assert!(rt; map.get(&wanted.0).copied() == Some(wanted.1));
        let mut is_path = false;
        for path in &map.paths(alloc, &wanted.0.prefix)? {
            if path.0 == wanted.0.id && *path.1 == wanted.1 {
                is_path = true;
            }
        }
        assert!(rt; is_path);
    }
    Ok(())
}

/// Mostly inserts at first, and then mostly removals.
fn draw_calls<F: Tried, M: PrefixMap<u32, Addr = F> + Drop>(
    rt: &impl Abort,
    alloc: Global,
    from: u8,
) -> Result<(), Fail> {
    let mut draws = Draws { state: 1 };
    let mut map: M = PrefixMap::new(alloc);
    let mut list: Plain<F> = Plain {
        entries: Vec::new(alloc),
    };
    for step in 0..1000u32 {
        let key = draws.key::<F>(from);
        if (draws.bits() >> 8) % 16 < 4 + step / 500 % 2 * 8 {
            assert!(rt; map.remove(&key) == list.remove(&key));
        } else {
            let before = list.insert(key, step)?;
            assert!(rt; map.insert(alloc, &key, step)? == before);
        }
        let addr = addr_at(from, draws.addr());
        assert!(rt; map.longest(addr) == list.longest(addr));
        if step % 100 == 99 {
            list.entries.sort_unstable();
            expect_entries(rt, alloc, &map, list.entries.as_slice())?;
        }
    }
    map.clear();
    assert!(rt; map.len() == 0);
    Ok(())
}

/// Of IPv6 the keys differ on both sides of the place where the address's halves meet.
#[test]
fn each_map_answers_as_a_plain_list(rt: HostRuntime) -> Result<(), Fail> {
    draw_calls::<u32, Flat<u32, u32>>(&rt, rt.alloc(), 0)?;
    draw_calls::<u32, Radix<u32, u32>>(&rt, rt.alloc(), 0)?;
    draw_calls::<u32, ChunkedMap<u32, u32>>(&rt, rt.alloc(), 0)?;
    draw_calls::<Ipv6, Flat<Ipv6, u32>>(&rt, rt.alloc(), 48)?;
    draw_calls::<Ipv6, Radix<Ipv6, u32>>(&rt, rt.alloc(), 48)?;
    draw_calls::<Ipv6, ChunkedMap<Ipv6, u32>>(&rt, rt.alloc(), 48)
}
