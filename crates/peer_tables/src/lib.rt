//! The tables of all peers, and the units that they stand for: what the lanes of a replay hand over, and what reports
//! read.
//!
//! `collect` puts the sessions of all lanes in the order of their peers' numbers. Exactly one value of tables stands
//! for given units and refusals (`tables_are_of_units`), so how lanes held the sessions makes no difference
//! (`lanes_make_no_difference`), and a replay of some of the peers has their tables as they are in a replay of all
//! (`shares_keep_peers`).
//!
//! `Tables::retain` leaves the chosen routes of chosen prefixes alone, if any are named, before a report is made: an
//! UPDATE that concerns a chosen prefix may have announced others, and units are taken whatever routes are chosen.
//! Tables have nothing in common, so several workers share them, in halves (`retain_all`), and which thread does what
//! makes no difference.
//!
//! `Watches` passes each unit to the watch on its peer, and makes rows of what it did (`HistoryRows`), in the order of
//! the units: one thread, no lanes. The watches are those of the units' peers (`watches_of`): each took its peer's own
//! units, and counts what they did from the same second on. A row is of a note that is listed (`history_rows`), and
//! what happened at some of the peers is what their units did (`histories_are_of_peers`). A row of an IPv4 key takes 40
//! bytes: it shares its peer with the watch (`SharedPeer`), and names its route by its number in a block that all rows
//! have (`HistoryRows`), since rows outlive the tables' entries.
//!
//! `Peers` numbers the peers of units, for the lanes and for the watches: a peer has the next number when it first
//! appears (`NumbersPeer`). It is looked for first where the last peer with its index in the index table, or with its
//! hash, was found, and then in a map, so that it takes the same time among many peers as among few.
//!
//! It is a crate of its own, below both the lanes, which make the tables, and the reports, which read them: neither of
//! these two long proofs waits for the other. `rib_report` re-exports `Tables` and `collect`, so a caller of reports
//! needs no other name.
#![tactic(auto)]

mod history;
mod laws;
mod peer_numbers;
mod retaining;
mod shared_peer;
mod tables;
mod watches;

pub use history::{By, HistoryRow, HistoryRows, Listed, Listing};
pub use laws::{
    collected_stand_for_units, histories_are_of_peers, lanes_make_no_difference,
    rows_follow_chosen_routes, shares_keep_peers, tables_are_of_units,
};
pub use peer_numbers::Peers;
pub use shared_peer::SharedPeer;
pub use tables::{Gathered, Seated, Tables, collect, count_routes};
pub use watches::{Watched, Watches};
