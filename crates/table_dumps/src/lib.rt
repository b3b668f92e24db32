//! Tables as units that leave them.
#![tactic(auto)]

mod laws;

pub use laws::{
    checkpoints_leave_each_table, files_give_units_alike, records_have_each_entry,
    replays_can_be_cut, replays_go_on_alike, tables_that_fit_are_written, written_tables_are_left,
};
