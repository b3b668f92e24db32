//! What a run counted, for its summary, its notes and its status.
#![tactic(auto)]

mod heard;
mod peer_remarks;
mod summary;

pub use heard::{Heard, HeardPeer, remarks_on};
pub use peer_remarks::PeerRemarks;
pub use summary::{Summary, status};
