//! Units of peers: one message, one state change or one RIB entry of one peer, as a record has it, or that a RIB dump
//! clears the peer's table. What they mean, and which of them are selected.
//!
//! `event` says what a unit's payload means. A unit whose message or attributes are malformed is still a unit, whose
//! event is a fault, or the fault with what the rule on damage does about it (RFC 7606). Where units come from is told
//! in `mrt_body`; what a peer's table is after them, in `adj_rib`.
//!
//! - **A selection is of units** (`Selection`, `is_selected`), and not of records, routes or rows. Since an UPDATE may
//!   concern a chosen prefix and others, the routes of others are taken out of the tables at the end
//!   (`Tables::retain`). That this is the same as to select late is a law of `adj_rib`, `early_is_late`.
//! - **Routes are those of one family** (`Unicast`), IPv4 where none is named. Messages and state changes are units of
//!   either family. A payload carries its family, as a state change carries its rule: a message and an entry have a
//!   mark of no size (`FamilyMark`), by which `event_in` reads them. So no definition over units, sessions or lanes has
//!   a family as a further argument, and specs see each enum at `IpPrefix` and `FamilyOf` (specs/Plain.antt).
//! - `PayloadBytes` stores up to 112 bytes in the unit itself, and more on the heap: nearly all attributes of RIB
//!   entries, and about nine in ten UPDATEs, are that short.
//! - What payloads mean is decoded one after another into blocks of memory that are used again (`DecodedEvents`), which
//!   contracts see as the list of their events and faults. Sessions take units by what was decoded of them, and a
//!   selection by prefix looks at the keys of a message there. `event` returns the same as a value of its own.
//! - The function `event` and the type `Event` are in two modules, `interpret` and `meaning`, because the toolchain
//!   refuses two names in one module that differ only in case.
#![tactic(auto)]

mod choice;
mod chosen;
mod chosen_prefixes;
mod decoded_events;
mod event_ref;
mod interpret;
mod laws;
mod meaning;
mod message;
mod payload_bytes;
mod rib_rule;
mod selection;
mod share;
mod state_peers;
mod state_rule;
mod table_dump_rule;
mod unit;
mod unit_ref;

pub use choice::{PeerChoice, PrefixChoice, Reach};
pub use chosen::Chosen;
pub use chosen_prefixes::ChosenPrefixes;
pub use decoded_events::DecodedEvents;
pub use event_ref::EventRef;
pub use interpret::event;
pub use laws::{clears_are_told, events_agree_with_their_payloads};
pub use meaning::Event;
pub use payload_bytes::PayloadBytes;
pub use rib_rule::RibRule;
pub use selection::Selection;
pub use share::Share;
pub use state_peers::StatePeers;
pub use state_rule::StateRule;
pub use table_dump_rule::TableDumpRule;
pub use unit::{
    Damage, Found, FoundOf, Payload, PayloadOf, PeerAddr, PeerKey, Place, Unit, UnitOf,
};
pub use unit_ref::{BytesRef, PayloadRef, UnitRef};
