//! Paths that a caller makes.

use bgp_prefix::Memory;
use bgp_update::*;
use std::alloc::Global;
use std::process::Abort;
use std::test::Fail;

/// Adds the segment of this number to a path of as many segments. A refused push leaves the path as it was, and is
/// tried again.
fn push_number(
    rt: &impl Abort,
    alloc: Global,
    path: &mut AsPath,
    number: u32,
) -> Result<(), Memory> {
    let segment = Segment::new(alloc, SegmentKind::AsSet, &[number])?;
    if path.push(segment).is_err() {
        assert!(rt; path.segments().len() == number as usize);
        path.push(Segment::new(alloc, SegmentKind::AsSet, &[number])?)?;
    }
    assert!(rt; path.segments().len() == number as usize + 1);
    Ok(())
}

/// A refused push leaves the path as it was (`make growths` refuses them). Each set counts once, and none has an
/// origin.
#[test]
fn a_refused_push_leaves_the_path(rt: HostRuntime) -> Result<(), Fail> {
    let alloc = rt.alloc();
    let mut path = AsPath::new(alloc);
    for number in 0..20u32 {
        push_number(&rt, alloc, &mut path, number)?;
    }
    let mut place = 0u32;
    for segment in path.segments() {
        assert!(rt; segment.numbers() == [place].as_slice(), "segment {place}");
        place = place.wrapping_add(1);
    }
    assert!(rt; path.length() == 20 && path.origin_as().is_none());
    Ok(())
}
