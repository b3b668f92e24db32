//! Numbers in the texts of masks and patterns.

/// Returns the value of a decimal number below 2^32, without a sign and, except for 0 itself, without a leading zero.
pub(crate) fn read_number(text: &str) -> Option<u32> {
    if text.len() > 1 && text.starts_with('0') {
        return None;
    }
    if text.as_bytes().iter().all(|byte| byte.is_ascii_digit()) {
        text.parse::<u32>().ok()
    } else {
        None
    }
}
