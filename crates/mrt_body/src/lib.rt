//! The bodies of MRT records (RFC 6396, 4.3 and 4.4; RFC 8050), as the units of peers that they give.
//!
//! `Units` reads files in order, keeps the peer index that is in force in each, and returns the next selected unit or
//! the refusal of a record. A record is refused whole, before any of its units is returned; a unit whose message or
//! attributes are malformed is still a unit, whose event is a fault.
//!
//! - **A selection is applied here, where units are made.** Whatever is above sees a list of units and needs no second
//!   form of any definition; what isn't asked for is skipped before it is copied, numbered and dealt, and takes no
//!   session. The entries of a RIB record of another prefix are checked, since a broken one refuses the record, and
//!   none is given. Refusals, index tables and the counts of records don't depend on the selection. RIB records of
//!   another family than the selection's are set aside (`body_kind_of`).
//! - **A RIB dump that replaces what came before it gives clears** (`RibRule::Replace`): before the entries of its
//!   first record come units with the payload `Clear`, one for each peer that gave a unit since the last such dump, in
//!   the order of the peers. So a restart of all tables is a unit of each peer, and no definition over units, lanes and
//!   sessions has a further argument. Of peers that gave nothing since there is nothing to clear: each unit brings at
//!   most one clear, however many dumps there are.
//! - Bodies are stated by their forms (`Agrees`, `IsRefused`) and by a reading (`units_in`), which a law ties together.
//!   `Units::next` is proved against the reading.
//! - Units are looked at in their record (`Units::lend`), all entries of a RIB record together: the dealer copies the
//!   bytes of an entry or a message once, from the record to its lane's list. `Units::next` is `advance`, a copy of the
//!   unit that is lent first, and `consume`. A record is read into the memory of the one before it, of which at most
//!   128 KiB are kept.
//! - A RIB record's entries are read once, into a list of 16 bytes each (the peer's index, the path identifier, where
//!   the attributes are, the entry's number), since one broken entry refuses the record. The list gets room for as many
//!   entries as the record claims, but for no more than its body can hold, so a false count takes no memory. Entries of
//!   peers that aren't selected are removed from the list at once, which is why each has its number.
#![tactic(auto)]

mod bgp4mp;
mod body_kind;
mod body_unit;
mod end_of_rib;
mod entries;
mod few;
mod known_peers;
mod laws;
mod lent_units;
mod old_entry;
mod payload;
mod peer_index;
mod record_place;
mod remarks;
mod rib;
mod rib_dumps;
mod rib_reader;
mod units;
mod waiting;

pub use body_kind::{BodyKind, body_kind_of};
pub use few::Few;
pub use laws::{
    added_dumps_clear_nothing, bodies_agree_with_their_forms, readings_give_all_found,
    units_have_their_rule, units_have_their_rules,
};
pub use lent_units::{Lent, LentEntries, LentUnits};
pub use remarks::{Marked, RecordType, Remarks, Unread};
pub use units::Units;
