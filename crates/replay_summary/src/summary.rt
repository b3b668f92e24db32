//! What a replay counted, and the status that follows.

ghost use Rattle.std.specs.Prelude.{◌≡◌, ◌==◌, Ok, Err, if◌then◌else◌};
ghost use Rattle.replay_summary.specs.Statuses.{status_of};

use crate::peer_remarks::PeerRemarks;
use mrt_body::Remarks;
use mrt_frame::ReplayError;

/// What a replay counted. Nothing is proved of `remarks` and `peer_remarks`, from which notes are made.
#[derive(Clone, Copy, Debug, PartialEq, Eq)]
pub struct Summary {
    /// Whole records that were cut.
    pub records: u64,
    /// Messages, state changes and RIB entries that were replayed, damaged ones among them.
    pub units: u64,
    /// Records whose types and subtypes are not read.
    pub aside: u64,
    /// Faults that `faults` lists.
    pub damaged: u64,
    /// Rounds of dealing and taking.
    pub rounds: u64,
    /// Peers with at least one unit.
    pub peers: usize,
    /// Routes in the tables at the end.
    pub routes: u64,
    /// What is remarkable about the records.
    pub remarks: Remarks,
    /// What is remarkable about the peers.
    pub peer_remarks: PeerRemarks,
}

/// Returns the program's exit status after a run: 0 if the dumps are whole, 1 if damaged records were
/// skipped, 3 if the run failed.
pub fn status(outcome: &Result<Summary, ReplayError>) -> u8
    ensures { result ≡ status_of outcome.now }
{
    match outcome {
        Ok(summary) if summary.damaged == 0 => 0,
        Ok(_) => 1,
        Err(_) => 3,
    }
}
