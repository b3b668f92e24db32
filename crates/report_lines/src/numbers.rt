//! Lists of numbers in text.

ghost use Rattle.std.specs.Prelude.{◌+◌, ◌-◌, ◌*◌, ◌<◌, ◌≤◌, ◌∷◌, length};
ghost use Rattle.std.specs.List.{between};
ghost use Rattle.report_lines.specs.Texts.{Adds};
ghost use Rattle.ip_text.specs.Formats.{Formats};
ghost use Rattle.report_lines.specs.Fields.{numbers_text};

use crate::buffer::{put, put_some_numbers};
use crate::field::{Byte, Field, Joined};
use crate::text::Text;
use bgp_update::PackedSegment;
use ip_text::DecimalTable;

/// How many numbers get room at once. A segment of a packed route has no more.
pub(crate) const NUMBERS_AT_ONCE: usize = 255;

/// Writes the numbers of a segment from one to before another: the first behind one byte, and the others each behind
/// another.
#[inline(always)]
pub(crate) fn format_numbers(
    bytes: &mut [u8],
    at: usize,
    shorts: &DecimalTable,
    before: u8,
    separator: u8,
    segment: &PackedSegment<'_>,
    from: usize,
    to: usize,
) -> usize
    requires { (from < to) × (to ≤ length segment.now.numbers) × (at + 13 * (to - from) < length bytes.old) }
    ensures { Formats bytes.old at bytes.new result (13 * (to - from))
        (before ∷ numbers_text separator (between from to segment.now.numbers)) }
{
    let mut end = Joined(Byte(before), segment.number(from)).format(bytes, at, shorts);
    for i in from + 1..to {
        end = Joined(Byte(separator), segment.number(i)).format(bytes, end, shorts);
    }
    end
}

/// Adds numbers in decimal, separated by a byte.
pub fn put_numbers<T: Text>(text: &mut T, separator: u8, numbers: &[u32])
    ensures { Adds (T.state text.old) (T.state text.new) (numbers_text separator numbers.now) }
{
    let [first, rest @ ..] = numbers else {
        return;
    };
    put(text, *first);
    for number in rest {
        put(text, Joined(Byte(separator), *number));
    }
}

/// Adds a byte and the numbers of a segment in decimal, separated by another byte.
#[inline(always)]
pub(crate) fn put_segment_numbers<T: Text>(
    text: &mut T,
    before: u8,
    separator: u8,
    segment: &PackedSegment<'_>,
)
    ensures { Adds (T.state text.old) (T.state text.new) (before ∷ numbers_text separator segment.now.numbers) }
{
    let count = segment.len();
    if count == 0 {
        return put(text, Byte(before));
    }
    let mut done = count.min(NUMBERS_AT_ONCE);
    put_some_numbers(text, before, separator, segment, 0, done);
    while done < count {
        let next = count.min(done.saturating_add(NUMBERS_AT_ONCE));
        put_some_numbers(text, separator, separator, segment, done, next);
        done = next;
    }
}
