//! The path attributes of routes (RFC 4271, 4.3; RFC 4760, 3; RFC 6396, 4.3.4).

use super::expect_bytes;
use bgp_prefix::{Ipv6, Prefix, RouteKey};
use bgp_update::*;
use fixtures::bytes_of;
use mrt_writing::{push_entry_attributes, push_update_attributes};
use std::alloc::Global;
use std::process::Abort;

/// Decodes the attributes of an entry, and expects that they are written as they stand there, if they are few enough.
fn expect_entry<F: Unicast>(rt: &impl Abort, alloc: Global, attrs: &[u8], expected: bool) {
    let mut bytes = Vec::new(alloc);
    let mut block = Vec::new(alloc);
    let span = decode_asked_entry::<F>(
        alloc,
        &mut bytes,
        &mut block,
        attrs,
        AttributeSet::all(),
        Width::Four,
    )
    .expect(rt, "a route");
    let route = span.route(bytes.as_slice()).route;
    let mut out = Vec::new(alloc);
    let fits = push_entry_attributes::<F>(&mut out, &route).expect(rt, "memory for bytes");
    assert!(rt; fits == expected);
    if expected {
        assert!(rt; out.as_slice() == attrs);
    } else {
        assert!(rt; out.is_empty());
    }
}

/// ORIGIN INCOMPLETE, AS_PATH 65000, a next hop, MED 100, LOCAL_PREF 200, ATOMIC_AGGREGATE, AGGREGATOR 65001 192.0.2.9,
/// a community, ORIGINATOR_ID, CLUSTER_LIST; MP_REACH_NLRI; an extended community, a large one, Only to Customer.
const ALL_OF_IPV4: &str =
    "40010102 4002060201 0000FDE8 400304 C0000201 800404 00000064 400504 000000C8 400600 C00708 0000FDE9 C0000209 C00804 FDE80001 800904 C0000203 800A08 C0000204 C0000205 C01008 0002FDE800000001 C0200C 0000FDE80000000100000002 C02304 0000FDEA";

const ALL_OF_IPV6: &str =
    "40010101 4002060101 0000FDE8 800404 00000064 400504 000000C8 400600 C00708 0000FDE9 C0000209 C00804 FDE80001 800904 C0000203 800A08 C0000204 C0000205 800E21 20 20010DB8000000000000000000000001 FE800000000000000000000000000001 C01008 0002FDE800000001 C0200C 0000FDE80000000100000002 C02304 0000FDEA";

#[test]
fn entries_are_written_as_they_were_read(rt: HostRuntime) {
    let alloc = rt.alloc();
    for text in [
        "plain-attributes",
        ALL_OF_IPV4,
        "400600",
        "400200",
        "400304 C0000201",
    ] {
        let attrs = bytes_of(alloc, text).expect(&rt, "memory for attributes");
        expect_entry::<u32>(&rt, alloc, attrs.as_slice(), true);
    }
    for text in [
        ALL_OF_IPV6,
        "bare-attributes 800E11 10 20010DB8000000000000000000000001",
        "bare-attributes 800E05 04 C0000201",
    ] {
        let attrs = bytes_of(alloc, text).expect(&rt, "memory for attributes");
        expect_entry::<Ipv6>(&rt, alloc, attrs.as_slice(), true);
    }
}

/// ORIGIN IGP, and AS_PATH of so many segments of so many numbers, all 0, behind these bytes of flags, type and length.
fn attrs_of_path(
    rt: &impl Abort,
    alloc: Global,
    head: &str,
    segments: u16,
    numbers: u8,
) -> Vec<u8> {
    let mut attrs = bytes_of(alloc, "40010100").expect(rt, "memory for attributes");
    let head = bytes_of(alloc, head).expect(rt, "memory for attributes");
    attrs
        .extend_from_slice(head.as_slice())
        .expect(rt, "memory for attributes");
    for _ in 0..segments {
        attrs
            .extend_from_slice(&[2, numbers])
            .expect(rt, "memory for attributes");
        for _ in 0..numbers {
            attrs
                .extend_from_slice(&[0, 0, 0, 0])
                .expect(rt, "memory for attributes");
        }
    }
    attrs
}

#[test]
fn long_values_have_lengths_of_two_bytes(rt: HostRuntime) {
    let alloc = rt.alloc();
    // Of 254 bytes, 258 bytes, and 65,526 and 65,530, with which all attributes have 65,534 and 65,538.
    for (head, segments, numbers, fits) in [
        ("4002FE", 1, 63, true),
        ("50020102", 1, 64, true),
        ("5002FFF6", 67, 244, true),
        ("5002FFFA", 6553, 2, false),
    ] {
        let attrs = attrs_of_path(&rt, alloc, head, segments, numbers);
        expect_entry::<u32>(&rt, alloc, attrs.as_slice(), fits);
    }
}

#[test]
fn updates_reach_a_key_by_the_next_hop(rt: HostRuntime) {
    let alloc = rt.alloc();
    // A route of any family is packed alike: this one has an IPv6 next hop.
    let attrs = bytes_of(
        alloc,
        "bare-attributes 800E11 10 20010DB8000000000000000000000001",
    )
    .expect(&rt, "memory for attributes");
    let mut bytes = Vec::new(alloc);
    let span = decode_entry::<Ipv6>(alloc, &mut bytes, attrs.as_slice(), Width::Four).expect(
        &rt, "a route",
    );
    let route = span.route(bytes.as_slice()).route;
    let key = RouteKey {
        prefix: Prefix::<u32>::new(0xC633_6400, 22).expect(&rt, "a prefix"),
        id: 258,
    };
    let mut block = Vec::new(alloc);
    for (add_path, reach) in [
        (
            false,
            "bare-attributes 800E19 0001 01 10 20010DB8000000000000000000000001 00 16C63364",
        ),
        (
            true,
            "bare-attributes 800E1D 0001 01 10 20010DB8000000000000000000000001 00 00000102 16C63364",
        ),
    ] {
        let mut out = Vec::new(alloc);
        let fits = push_update_attributes::<u32>(
            &mut out, &mut block, add_path, &key, &route,
        ).expect(&rt, "memory for bytes");
        assert!(rt; fits);
        expect_bytes(&rt, alloc, out.as_slice(), reach);
    }
}
