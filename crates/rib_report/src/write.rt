//! The lines of rows written to a sink.

ghost use Rattle.std.specs.Prelude.{◌<◌, ◌≤◌, length};
ghost use Rattle.std.specs.List.{flat_map};
ghost use Rattle.report_lines.specs.Texts.{IsOutput};

use crate::line::RowList;
use bgp_update::Unicast;
use mrt_frame::{ReplayError, Sink};
use report_lines::{TextBuffer, TextWriter, finish};
use report_request::LayoutOf;

/// How many rows are prefetched together before their lines are written. Routes lie far apart in memory. Reads
/// that don't wait for one another overlap, so the lines are then written from the processor's cache.
pub(crate) const NEAR_ROWS: usize = 64;

/// The same for rows that refer to a lot of data.
const NEAR_LONG_ROWS: usize = 16;

/// Returns how many rows to prefetch after rows that refer to so many bytes.
pub(crate) fn next_rows(bytes: usize) -> usize
    ensures { 0 < result }
{
    if bytes > 128 * NEAR_ROWS {
        NEAR_LONG_ROWS
    } else {
        NEAR_ROWS
    }
}

/// Prefetches a little of what rows refer to, from one to before another, and returns how many rows to prefetch next.
fn prefetch_rows<F: Unicast, L: RowList<F>>(rows: L, from: usize, to: usize) -> usize
    requires { to ≤ length (L.rows rows) }
{
    let mut bytes = 0usize;
    for at in from..to {
        bytes = bytes.saturating_add(rows.prefetch(at));
    }
    next_rows(bytes)
}

/// Writes a line for each row. If it returns `Write`, a leading part of the text has been written.
pub fn write_lines<F: Unicast, W: Sink, L: RowList<F>>(
    out: &mut W,
    layout: &LayoutOf<F>,
    rows: L,
) -> Result<(), ReplayError>
    ensures { IsOutput (W.contents out.old) (W.failure_count out.old) (W.contents out.new) (W.failure_count out.new)
        (flat_map (L.line_of layout.now) (L.rows rows)) result }
{
    let mut text = TextWriter {
        buffer: TextBuffer::new(),
        out,
    };
    let count = rows.len();
    let mut ahead = 0;
    let mut next = NEAR_ROWS;
    for at in 0..count {
        if at == ahead {
            ahead = count.min(at.saturating_add(next));
            next = prefetch_rows::<F, L>(rows, at, ahead);
        }
        rows.put(at, &mut text, layout);
    }
    finish(&mut text)
}
