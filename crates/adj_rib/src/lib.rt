//! The session of one peer: its table (Adj-RIB-In, RFC 4271, 3.2), its churn and its damaged units.
//!
//! A `Session` stands for the list of units that it took (`IsSessionOf`): its table, counts and faults are those of the
//! definitions on this list, and no ghost list is kept. The rules of the replay are in `specs/Steps.antt`, a relation
//! from units to steps, and a table is what steps leave.
//!
//! - A peer's routes stand one after the other in one block of bytes (`routes.rt`), each once however many keys have
//!   it, and are named by numbers of four bytes, where they begin (`RouteId`). A table is a map from keys to numbers
//!   beside that block (`RouteTable`), and contracts see it as the map from keys to routes. So sessions require
//!   `M: PrefixMap<RouteId>`, while definitions know nothing of numbers. A reader borrows routes from the block.
//! - A route is found by a hash table with open addressing, in which a look-up probes at most 8 slots. If all 8 are
//!   taken, a later route evicts the first, which may then be stored once more. A hit compares all bytes: no claim
//!   rests on the hash.
//! - Routes that no key names any more are given back once as many bytes were added as the routes and 16 bytes for each
//!   key took: the routes that are named are then copied into a new block, and the keys into a new table. So an added
//!   route pays for the copy of as much, and a RIB dump, which replaces nothing, pays for few copies.
//! - A unit is decoded once, whatever it is, and then taken (`Session::take_event`). A worker decodes all units of a
//!   list (`DecodedEvents`), then prefetches the slots where their routes will be looked for, then the routes in these
//!   slots, and then takes the units in order. Each of these is a cache miss, since the peers of a RIB record take
//!   turns; in loops of their own the misses overlap. Prefetching has no contract and needs none.
//! - An announcement descends the map once: what `insert` returns shows whether the key was new, changed or the same.
//! - An entry of a peer that isn't up is read too, since a damaged one is listed.
//! - What is done about a damaged unit (RFC 7606) is an update as any other, and its steps are taken as such; beside
//!   that the unit is listed. It has code of its own (`take_handled`), so that units without damage pay nothing for it.
//! - `retain` leaves the chosen routes of chosen prefixes in a table before a report. It makes the table anew of the
//!   keys that stay, and tests each route once, by its number. It is the last step, since the session then no longer
//!   stands for its units.
//! - A `Watch` takes units as a session does, keeps the routes of chosen keys alone (`Chooses`), and tells `Notes` what
//!   each unit does to them, in the order of its steps, with the route itself and not its number: what the table no
//!   longer names is given back. What isn't about a chosen route is neither counted nor passed on (`ChosenNotes`), but
//!   such a route is kept all the same: it may be the one before a chosen one. A session chooses every key and notes
//!   nothing, which costs it nothing.
#![tactic(auto)]

mod arrivals;
mod churn;
mod counted_table;
mod laws;
mod note;
mod outcome;
mod rib_in;
mod route_table;
mod routes;
mod session;
mod watch;

pub use arrivals::Arrivals;
pub use churn::{Churn, is_before};
pub use laws::{
    counts_are_of_all_units, early_is_late, established_sessions_decide, notes_are_of_concerned,
    recorded_states_decide, routes_come_while_up, selections_commute, table_has_what_holds,
};
pub use note::{Chooses, Notes};
pub use outcome::What;
pub use route_table::RouteTable;
pub use routes::{RouteId, Routes};
pub use session::Session;
pub use watch::Watch;
