//! What an MRT dump of tables is written as: path attributes of routes, prefixes, index tables, state changes, RIB
//! records and UPDATEs, and the records around them (RFC 6396; RFC 8050; RFC 4271; RFC 4760).
#![tactic(auto)]

mod attributes;
mod keys;
mod laws;
mod peers;
mod record_kind;
mod rib_records;
mod route_fields;
mod updates;

pub use keys::WideAddress;
pub use laws::{
    written_bodies_are_read, written_dumps_are_read, written_parts_are_whole,
    written_prefixes_are_read, written_records_are_cut, written_routes_are_read,
    written_updates_are_read,
};
pub use peers::{push_index, push_state_change};
pub use record_kind::{RecordKind, push_record_head};
pub use rib_records::{push_rib_entry, push_rib_head};
pub use route_fields::{push_entry_attributes, push_update_attributes};
pub use updates::push_update;
