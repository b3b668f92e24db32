//! Choices of routes as text.

use crate::peers::read_number;
use route_choice::MaskError;

/// Returns what `--origin` chooses: an AS number, or with `-` the routes that have no origin AS. Returns `None` for any
/// other text.
pub fn read_origin(text: &str) -> Option<Option<u32>> {
    if text == "-" {
        return Some(None);
    }
    let asn = read_number(text)?;
    Some(Some(asn))
}

/// Why a text is no mask, unless an allocation failed.
pub(crate) fn fault_of_mask(error: MaskError) -> Option<&'static str> {
    match error {
        MaskError::Empty => Some("it has no word"),
        MaskError::Bracket => Some("one of the brackets [= and =] stands without the other"),
        MaskError::Word => Some(
            "a word is neither a number below 2^32, nor A..B with such numbers and A not above B, nor ? or *",
        ),
        MaskError::Memory => None,
    }
}
