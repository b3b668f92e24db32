//! The nine reports, by the names that users know.

pub(crate) mod churn;
pub(crate) mod faults;
pub(crate) mod history;
pub(crate) mod matches;
pub(crate) mod origins;
pub(crate) mod peers;
pub(crate) mod seen;
pub(crate) mod tables;
pub(crate) mod visibility;
