//! The form of an address in text.

/// A form of IPv6 addresses in text.
#[derive(Clone, Copy, Debug, PartialEq, Eq)]
pub enum AddressForm {
    /// Eight groups of four digits.
    Full,
    /// No leading zeros, and `::` for the longest run of two or more zero groups (RFC 5952, 4).
    Short,
}
