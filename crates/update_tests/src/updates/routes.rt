//! Routes that are read one by one, in place of being decoded into blocks of memory.

use bgp_prefix::{Ipv6, Prefix};
use bgp_update::*;
use fixtures::{bytes_of, update_of};
use std::alloc::Global;
use std::process::Abort;
use std::test::Fail;

/// The one key that an UPDATE reaches has, by the next hop of attribute 14, the route of this RIB entry.
fn expect_same_route<F: Unicast>(
    rt: &impl Abort,
    alloc: Global,
    message: &str,
    entry: &str,
) -> Result<(), Fail> {
    let body = update_of(alloc, message)?;
    let attrs = bytes_of(alloc, entry)?;
    let none = AttributeSet::none();
    let update: Update<Prefix<F>> = read_update(
        alloc,
        body.as_slice(),
        none,
        Width::Four,
        false,
    ).expect(rt, message);
    let route = read_attrs::<F>(alloc, attrs.as_slice(), none, Width::Four).expect(rt, entry);
    assert!(rt; update.reached.as_slice().len() == 1);
    assert!(rt; !update.route.is_same(&route));
    let by_hop = update.route.with_next_hop(update.reached_hop);
    assert!(rt; by_hop.is_same(&route));
    assert!(rt; by_hop.try_copy(alloc)?.is_same(&route));
    Ok(())
}

#[test]
fn a_route_by_the_reached_hop_is_that_of_an_entry_with_this_hop(
    rt: HostRuntime,
) -> Result<(), Fail> {
    let entry = "bare-attributes 400304 C0000209";
    expect_same_route::<u32>(&rt, rt.alloc(), "reached", entry)?;
    let message = "0000 001E bare-attributes 800E0E 0002 01 04 C0000201 00 20 20010DB8";
    let entry = "bare-attributes 800E05 04 C0000201";
    expect_same_route::<Ipv6>(&rt, rt.alloc(), message, entry)
}
