/// Why a round stopped dealing.
#[derive(Clone, Copy, Debug, PartialEq, Eq)]
pub enum Step {
    /// The ring of the next unit's lane was full. The unit is blocked and is the next to be dealt.
    Blocked,
    /// As many units were dealt as a batch has.
    FullBatch,
    /// Nothing is left to deal.
    End,
}
