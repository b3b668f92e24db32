//! End-of-RIB markers (RFC 4724, 2), for notes. No unit depends on them, and nothing is proved of them but that looking
//! for them is safe.

use bgp_update::Unicast;

/// Behind the sixteen bytes that a message begins with: an UPDATE without routes and attributes.
const EMPTY: [u8; 7] = [0, 23, 2, 0, 0, 0, 0];

/// The most bytes that an End-of-RIB marker of the family has.
#[inline(always)]
pub(crate) fn longest_end_of_rib<F: Unicast>() -> usize {
    if F::encoding().own_fields { 23 } else { 30 }
}

/// Whether a message is an End-of-RIB marker of the family: an UPDATE without anything where its own fields are of the
/// family, and otherwise one with an MP_UNREACH_NLRI alone that has no routes.
pub(crate) fn is_end_of_rib<F: Unicast>(message: &[u8]) -> bool {
    let encoding = F::encoding();
    if encoding.own_fields {
        return message.len() == 23 && message.ends_with(&EMPTY);
    }
    let [high, low] = encoding.afi.to_be_bytes();
    match message.len() {
        29 => message.ends_with(&[0, 29, 2, 0, 0, 0, 6, 0x80, 15, 3, high, low, 1]),
        30 => message.ends_with(&[0, 30, 2, 0, 0, 0, 7, 0x90, 15, 0, 3, high, low, 1]),
        _ => false,
    }
}
