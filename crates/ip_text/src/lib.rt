//! The texts of IP addresses and of the numbers in them, written into a block of bytes.
//!
//! - Every call that writes returns the position after what it wrote, and its contract (`Formats`) says what stands
//!   there, behind what was there before. The position is a separate value, so it stays in a register.
//! - IPv6 addresses are written in full or short (RFC 5952, 4). The short text is defined by the longest run of zero
//!   groups (`short_ipv6_text`) and spells its address, as RFC 4291, 2.2 reads it (`IsIpv6Text`); a text spells one
//!   address.
//! - Texts of small numbers (`DecimalTable`), those of groups in hexadecimal and the run of zeros of each pattern of
//!   zero groups are made once, so that a short address takes no longer than a full one. Numbers of up to three digits
//!   are copied from a table, four bytes at once, since how many digits a number has is hard to predict.
//! - Addresses of a family are written by their type (`WrittenAddress`), and in definitions by the family
//!   (`address_text`).
#![tactic(auto)]

mod address_form;
mod format;
mod hexadecimal;
mod ipv6;
mod short;
mod spelled;
mod written_address;
mod zero_run;

pub use address_form::AddressForm;
pub use format::{
    format_byte, format_front, format_ipv4, format_number, format_short, format_six, format_text,
    format_three,
};
pub use hexadecimal::hexadecimal_digit;
pub use ipv6::format_ipv6;
pub use short::DecimalTable;
pub use spelled::{
    one_address_to_a_text, runs_are_first_and_longest, written_texts_spell_their_addresses,
};
pub use written_address::WrittenAddress;
