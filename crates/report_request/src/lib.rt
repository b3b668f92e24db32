//! What a replay is asked for: which report, its columns, and how its lines are written.
//!
//! The command line and `run` need a request, and neither needs the other or the code of reports. The columns of each
//! report are told once, in `column.rt`: the header and the lines of both formats follow from them.
#![tactic(auto)]

mod column;
mod format;
mod layout;
mod request;

pub use column::{Column, Key, attribute_name, columns};
pub use format::Format;
pub use ip_text::AddressForm;
pub use layout::{Layout, LayoutOf};
pub use request::Request;
