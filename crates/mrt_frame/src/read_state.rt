// How far a reading has got.
ghost use Rattle.std.specs.Prelude.{◌≡◌};
ghost use Rattle.mrt_frame.specs.Frames.{state_of_error};

use crate::error::ReplayError;

/// How far a reading has got: of a file's records, of the units of files, or of a replay.
#[derive(Clone, Copy, Debug, PartialEq, Eq)]
pub enum ReadState {
    /// More may come.
    Reading,
    /// The end was returned; of a file, that is something that is no record as well.
    Ended,
    /// A device failed.
    Failed,
    /// An allocation failed, or the greatest number of records was cut.
    Spent,
}

impl ReadState {
    /// How far a reading has got that stops with this error.
    pub fn after(error: ReplayError) -> ReadState
        ensures { result ≡ state_of_error error }
    {
        match error {
            ReplayError::Read { .. } => ReadState::Failed,
            _ => ReadState::Spent,
        }
    }
}
