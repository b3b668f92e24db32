//! AS paths as a packed route has them: segments with four-octet AS numbers (RFC 6793, 3).

ghost use Rattle.std.specs.Prelude.{◌≡◌, ◌++◌, OnOk};
ghost use Rattle.bgp_update.specs.Packing.{IsWritable, path_part};
ghost use Rattle.bgp_update.specs.Segments as segments;
ghost use Rattle.bgp_update.specs.Segments.{IsPath, IsSegment, path_bytes, segment_bytes};

use crate::path::{AsPath, Segment, SegmentKind};
use bgp_prefix::Memory;

fn kind_number(kind: SegmentKind) -> u8
    ensures { result ≡ segments.kind_number kind }
{
    match kind {
        SegmentKind::AsSet => 1,
        SegmentKind::AsSequence => 2,
        SegmentKind::ConfedSequence => 3,
        SegmentKind::ConfedSet => 4,
    }
}

fn push_segment(out: &mut Vec<u8>, segment: &Segment) -> Result<(), Memory>
    requires { IsSegment 4 segment.now }
    ensures { OnOk result (out.new.items ≡ out.old.items ++ segment_bytes 4 segment.now) }
{
    let numbers = segment.numbers();
    out.push(kind_number(segment.kind()))?;
    out.push(numbers.len() as u8)?;
    for n in numbers {
        out.extend_from_slice(&n.to_be_bytes())?;
    }
    Ok(())
}

fn push_segments(out: &mut Vec<u8>, path: &AsPath) -> Result<(), Memory>
    requires { IsPath 4 path.now }
    ensures { OnOk result (out.new.items ≡ out.old.items ++ path_bytes 4 path.now) }
{
    for segment in path.segments() {
        push_segment(out, segment)?;
    }
    Ok(())
}

/// Appends a path, if there is one.
pub(crate) fn push_path(out: &mut Vec<u8>, path: &Option<AsPath>) -> Result<(), Memory>
    requires { IsWritable path.now }
    ensures { OnOk result (out.new.items ≡ out.old.items ++ path_part path.now) }
{
    match path {
        Some(path) => push_segments(out, path),
        None => Ok(()),
    }
}
