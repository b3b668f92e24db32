//! Laws of whole readings of files.
//!
//! - The units of chosen peers, and of a share, are those of all units, and so are those of chosen prefixes where RIB
//!   dumps are added (`chosen_peers_are_of_all`, `chosen_prefixes_are_of_all`).
//! - Where a RIB dump replaces what came before it, it begins with empty tables (`dumps_begin_with_empty_tables`).
//! - By either rule of RIB dumps, each peer has the routes of chosen prefixes that it has among all
//!   (`chosen_prefixes_keep_their_routes`).
//! - The last line of a key in a history gives its route in a table (`last_lines_are_of_tables`).
#![tactic(auto)]

mod laws;

pub use laws::{
    chosen_peers_are_of_all, chosen_prefixes_are_of_all, chosen_prefixes_keep_their_routes,
    dumps_begin_with_empty_tables, last_lines_are_of_tables,
};
