//! BGP UPDATE messages (RFC 4271, 4.3): keys, path attributes and AS paths, and routes packed into bytes.
//!
//! What is read: withdrawn and announced keys, with path identifiers where the message has them (RFC 7911); attributes
//! 1 to 7, 14 and 15 for the unicast routes of one family (RFC 4760, RFC 2545, RFC 8950), 17 and 18 (RFC 6793).
//! Definitions state which bytes are well-formed and what they say without an order of reading, and which fault is the
//! first one by a reading from left to right; the law `updates_agree_with_their_forms` ties the two.
//!
//! - A family is the type of its addresses (`Unicast`, on `u32` and `Ipv6`), and definitions take it as a `FamilyOf`.
//!   An UPDATE's own fields, withdrawn routes, NLRI and NEXT_HOP, are of IPv4. For IPv6 the first two aren't examined
//!   past their lengths, and MP_REACH_NLRI gives next hops in RIB entries too: alone after its length, as RFC 6396,
//!   4.3.4, has it, or in the whole attribute, as some speakers write it.
//! - Merging AS_PATH and AS4_PATH (RFC 6793, 4.2.3) is stated by a relation, `IsMerged`, and computed, `merged`.
//!   `AsPath::merge` names both, so that a reader needs to trust only the relation.
//! - Attributes are found and checked in one pass, which keeps the place of the first value of each type (RFC 7606, 3
//!   (g)). `FirstValues::take_found` branches on the type once, and each branch has a copy of the code in which the
//!   type is a constant.
//! - A route is packed into one block of bytes: two bytes of flags, the fields that are there in a fixed order, and the
//!   path as segments with four-octet AS numbers, as AS_PATH is written. Contracts see a `RouteRef`, which borrows such
//!   bytes, as its `Route`. Its invariant is that these are the bytes of that route and no others; so routes are equal
//!   exactly if their bytes are, and comparing, hashing and copying need no fields. Fields are decoded when a line is
//!   written. In generated dumps a route takes some 30 bytes.
//! - **Decoding appends** (`decode_entry`, `decode_update`): keys go behind other keys in one list, packed routes
//!   behind others in one block of bytes, and what is returned says where they are (`UpdateSpans`, `RouteSpan`), with a
//!   hash of each route's bytes. So a list of units is decoded without an allocation of its own. What was appended by
//!   a message that turns out to be damaged is left there, and nothing refers to it.
//! - **Damage is skipped or handled** (`ErrorRule`, RFC 7606). Where it is handled, a malformed attribute counts as
//!   absent, and where that isn't enough, or announcements lack what they must have, all keys of the UPDATE are
//!   withdrawn (`decode_handled_update`, `decode_handled_entry`, `taken_update`; `read_handled_update` and the others
//!   beside it return the `Update`). Handling is a second reading, of what the first one found damaged: so what has no
//!   damage is read as where it is skipped, and takes no longer. The law `handling_keeps_what_is_sound` ties the two.
//! - **Each key is read once** (`read_keys`). When attributes are checked, those of MP_REACH_NLRI and MP_UNREACH_NLRI
//!   are passed over, and they are appended behind that, even if an attribute had a fault: theirs comes before it.
//! - Attributes are packed as they are read, without a `Route` in between; only a path of two-octet numbers, which may
//!   have to be merged, is read first. A next hop is packed as it is written (`WrittenHop`). `read_update` and
//!   `read_attrs` return the `Update` and the `Route` that definitions speak of.
//! - Every route that is read can be packed, since each segment has 1 to 255 numbers (`IsWritable`).
//! - `Route`'s fields are declared in order of size, since the compiler keeps the order: 128 bytes instead of 144.
#![tactic(auto)]

mod asked_values;
mod attr_error;
mod attribute;
mod attribute_context;
mod attribute_type;
mod decoded;
mod decoding;
mod error_rule;
mod families;
mod family_mark;
mod front_bytes;
mod handling;
mod kept_attribute;
mod kept_values;
mod key;
mod laws;
mod merge;
mod multiprotocol;
mod next_hop;
mod octets;
mod packed_front;
mod packed_path;
mod packing;
mod path;
mod path_equality;
mod path_writing;
mod route;
mod route_fields;
mod route_ref;
mod rules;
mod segment;
mod sound_values;
mod unicast;
mod update;
mod update_ref;
mod values;
mod width;
mod written_hop;

pub use attr_error::AttrError;
pub use attribute_type::AttributeType;
pub use decoded::{HashedRoute, RouteSpan, Span, UpdateSpans};
pub use decoding::{decode_asked_entry, decode_asked_update, decode_entry, decode_update};
pub use error_rule::ErrorRule;
pub use family_mark::FamilyMark;
pub use handling::{
    decode_handled_entry, decode_handled_update, read_handled_entry, read_handled_update,
    taken_update,
};
pub use kept_attribute::{AttributeSet, KeptAttribute};
pub use kept_values::{KeptBlock, KeptValues};
pub use key::prefix_at;
pub use laws::{handling_keeps_what_is_sound, merging_is_unique, updates_agree_with_their_forms};
pub use next_hop::NextHop;
pub use packed_path::{PackedSegment, PackedSegments};
pub use path::{AsPath, Segment, SegmentKind};
pub use route::{Aggregator, Origin, Route, Update};
pub use route_ref::RouteRef;
pub use rules::Rules;
pub use unicast::{FamilyEncoding, Unicast};
pub use update::{read_attrs, read_update};
pub use update_ref::UpdateRef;
pub use width::Width;
