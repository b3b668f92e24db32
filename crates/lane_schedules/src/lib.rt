//! Lanes under any schedule: on one thread, event by event (`run_schedule`), by other dealings than the program's
//! (`ByBlocks`, `ByList`), and the laws by which no answer depends on how units are shared.
//!
//! - Each unit is in one lane, and each lane takes its own in order (`lanes_share_units`, `schedules_keep_order`).
//! - What all lanes took makes the tables of all units (`lanes_make_tables`, `settled_lanes_make_tables`).
//! - Rounds are few (`rounds_are_few`).
//!
//! The program's lanes are those of `lane_deal`; only tests run these.
#![tactic(auto)]

mod dealings;
mod laws;
mod schedule;
mod scheduled;
mod turn;

pub use dealings::{ByBlocks, ByList};
pub use laws::{
    lanes_make_tables, lanes_share_units, rounds_are_few, schedules_keep_order,
    settled_lanes_make_tables,
};
pub use schedule::run_schedule;
pub use scheduled::Lanes;
pub use turn::Turn;
