//! Laws of reports: what their rows say, stated without an order of work.
//!
//! - Tables that stand for units have the reports that are defined over these units alone (`reports_are_of_units`).
//! - The rows of visibility, origins, seen and faults are those of their definitions over sets and numbers.
//! - Reports of some of the peers, or of chosen routes, beside those of all (`rows_of_shares`, `rows_of_choices`).
//! - No text of a row needs an escape in JSON (`texts_need_no_escape`).
#![tactic(auto)]

mod laws;

pub use laws::{
    counts_are_sums_over_shares, faults_of_shares, faults_stand_by_place,
    origins_are_of_all_routes, origins_are_of_seen_rows, recorded_peers_are_shown_as_they_are,
    reports_are_of_units, rows_of_choices, rows_of_shares, seen_counts_peers, texts_need_no_escape,
    visibility_counts_peers,
};
