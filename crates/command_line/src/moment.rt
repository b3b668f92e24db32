//! Moments as text.

use jiff::Timestamp;

/// The first moment of a date in UTC, but for the date.
const MIDNIGHT: [u8; 20] = *b"0000-00-00T00:00:00Z";

/// How many bytes a date has, as `2024-01-01`.
const DATE_SIZE: usize = 10;

/// Copies the first bytes, as many as both have.
fn copy_front(to: &mut [u8], from: &[u8]) {
    for (place, byte) in to.iter_mut().zip(from) {
        *place = *byte;
    }
}

/// Returns the first moment of a date, in UTC.
fn read_date(date: &[u8]) -> Option<Timestamp> {
    let mut whole = MIDNIGHT;
    copy_front(&mut whole, date);
    str::from_utf8(&whole).ok()?.parse::<Timestamp>().ok()
}

/// Returns the moment that a date alone, or a date and a time with an offset from UTC (RFC 3339), name.
fn read_moment(text: &str) -> Option<Timestamp> {
    if text.len() == DATE_SIZE {
        read_date(text.as_bytes())
    } else {
        text.parse::<Timestamp>().ok()
    }
}

/// Returns the second since 1970 UTC that a text names: a number is that second; a date, as `2024-01-01`, begins at
/// its midnight in UTC; and a date and a time with an offset from UTC (RFC 3339), as `2024-01-01T01:00:00Z` or with a
/// blank for the T, are in the second that the clock shows then.
/// Returns `None` for any other text, and for a moment before 1970.
pub fn read_second(text: &str) -> Option<u64> {
    if let Ok(second) = text.parse::<u64>() {
        return Some(second);
    }
    let moment = read_moment(text)?;
    if moment.as_nanosecond() >= 0 {
        u64::try_from(moment.as_second()).ok()
    } else {
        None
    }
}
