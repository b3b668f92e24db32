//! Nine reports over the tables of all peers, and their lines.
//!
//! A report is a function from tables to rows, stated over whole lists and sets; a line is a function of a row. What a
//! line is made of is in `report_lines`, below this crate, and the laws of rows are in `report_laws`, above it: neither
//! waits for the long proofs of the other, and the program's proof doesn't wait for the laws.
//!
//! - `visibility`, `origins` and `seen` merge the lists of halves of the peers (`merge.rt`) until each peer is alone.
//!   The tables of one collector have mostly the same prefixes, so merged lists stay as short as one table. With two
//!   workers or more, two threads share at most 14 peers at a time, which bounds the lists that exist at once
//!   whatever the number of peers. So the map of `run` is `Sync`.
//! - `list_tables` writes the lines of `tables` without a list of rows (80 bytes a route): one list with room for the
//!   largest table is allocated before the first write, and the peers' tables are listed into it in turn.
//! - The lines of a table of 16,384 entries and more are made by several threads (`reports/tables/parallel.rt`) in
//!   buffers that are allocated before the first byte is written. The calling thread starts them all itself, since each
//!   level of halves would add two wake-ups to a round, and writes the filled buffers in order: only it has the writer.
//!   A thread stops before a line for which there may be no room; the calling thread makes those that are left. Lines
//!   are added to a `Text` of `report_lines`, whether it is on its way to a writer or made ahead of its turn.
//! - Reports are generic in the family of the addresses of the map.
//! - Entries are prefetched up to 64 at a time before their lines are written, so that the cache misses of their routes
//!   overlap.
#![tactic(auto)]

mod line;
mod merge;
mod reports;
mod write;

pub use ip_text::{
    AddressForm, WrittenAddress, one_address_to_a_text, runs_are_first_and_longest,
    written_texts_spell_their_addresses,
};
pub use line::{Line, RowList};
pub use peer_tables::{
    By, Gathered, HistoryRows, Listed, Listing, Seated, Tables, collect, collected_stand_for_units,
    lanes_make_no_difference, tables_are_of_units,
};
pub use report_request::{Format, Layout, LayoutOf};
pub use reports::churn::{ChurnRow, churn, watched_churn};
pub use reports::faults::faults;
pub use reports::matches::matches;
pub use reports::origins::{OriginRow, origins};
pub use reports::peers::{PeerRow, peers};
pub use reports::seen::{SeenRow, seen};
pub use reports::tables::{TableRow, list_tables, table_rows};
pub use reports::visibility::{VisibilityRow, visibility};
pub use write::write_lines;
