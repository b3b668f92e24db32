//! The records of all prefixes.

ghost use Rattle.std.specs.Prelude.{◌≡◌, ◌+◌, length, OnOk};
ghost use Rattle.table_dumps.specs.Checkpoints.{record_split};
ghost use Rattle.checkpoint_writing.specs.Merging.{IsMerge, parts_among};
ghost use Rattle.checkpoint_writing.specs.Dumping.{Grows, parts_bytes};
ghost use Rattle.checkpoint_writing.specs.Leaving.{AreListsShort};

use crate::merge::Merge;
use crate::prefix_records::PrefixRecords;
use mrt_frame::{ReplayError, Sink};
use mrt_writing::WideAddress;
use std::alloc::Global;

/// Adds the records of all prefixes of these entries, in order.
pub(crate) fn put_prefixes<F: WideAddress, W: Sink>(
    alloc: Global,
    out: &mut W,
    records: &mut PrefixRecords,
    merge: &mut Merge<'_, F>,
) -> Result<(), ReplayError>
    requires merge { IsMerge merge.old }
    requires short { AreListsShort F.family merge.old.lists }
    ensures records { OnOk result (Grows (W.contents out.old) records.old.waiting.items (W.contents out.new) records.new.waiting.items
        (parts_bytes F.family records.old.seconds records.old.sequence (parts_among (record_split F.family) merge.old.lists))) }
    ensures seconds { records.new.seconds ≡ records.old.seconds }
{
    let mut routes = Vec::new(alloc);
    while let Some(prefix) = merge.next(&mut routes)? {
        records.put_prefix(out, &prefix, routes.as_slice())?;
    }
    Ok(())
}
