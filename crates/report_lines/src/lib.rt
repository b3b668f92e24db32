//! The texts of fields, and how they go to a writer: what the lines of reports are made of.
//!
//! - Lines are added to a `Text` (`text.rt`), whether it is on its way to a writer or made ahead of its turn. Text goes
//!   through a buffer of 64 KiB, which its owner has on the stack.
//! - A line is made of fields (`field.rt`), values whose text has a limited length. A pair of fields is a field, with a
//!   bar between the two, and so is an `Option`; so consecutive fields are one value, placed after one check for room.
//!   A column is one more element of that value, and one more in the definition of the line. Each call is given the
//!   position of its first byte and returns the one after its last: as a field of the buffer it would be read again
//!   after each byte.
//! - A column has a field of text and members in JSON (`cells.rt`). Macros make both from one value, since their types
//!   differ with each list of columns; a report names its columns by them.
//! - How lines are written (`Layout`) is an argument of what writes lines, and of their definitions: the forms of IPv6
//!   addresses, one for peers and one for routes. A peer goes on its way with it (`ShownPeer`). The texts of addresses
//!   and of the numbers in them are those of `ip_text`.
//! - A layout has a mark of the family of no size (`FamilyMark`), by which definitions write prefixes (`address_text`);
//!   the code writes them by the type (`WrittenAddress`), so a line of IPv4 has no test of the family, and no more room
//!   than its texts may take.
//! - A peer's text is made once for its lines.
#![tactic(auto)]

mod buffer;
mod cells;
mod field;
mod json_line;
mod kept_columns;
mod laws;
mod numbers;
mod route_line;
mod text;

pub use buffer::{CAPACITY, PIECE_BYTES, TextBuffer, put};
pub use cells::{Cells, Comma, Member, OrNull, Quoted, identifier_if_any, put_front, put_line};
pub use field::{
    Byte, Field, Joined, Microseconds, PeerText, SessionUp, ShownAddr, ShownKey, ShownPeer,
    ShownPeerOf, ShownPrefix, entry_field, time_field,
};
pub use json_line::{put_json_route, put_no_route};
pub use kept_columns::put_line_end;
pub use laws::json_lines_spell_their_fields;
pub use numbers::put_numbers;
pub use route_line::{AsJson, AsText, RowFormat, put_row, put_text_route};
pub use text::{Text, TextAhead, TextWriter, finish};
