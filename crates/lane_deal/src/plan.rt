ghost use Rattle.std.specs.Prelude.{◌↔◌, IsTrue};
ghost use Rattle.lane_deal.specs.Plans.{IsPlan};

/// How a replay is shared out. No number of it changes what is reported.
#[derive(Clone, Copy, Debug)]
pub struct Plan {
    /// Workers, 1 to 64.
    pub workers: usize,
    /// Units that may wait for each worker, 1 to 65,536.
    pub ring: usize,
    /// Maximum number of units dealt in a round, 1 to 1,048,576.
    pub batch: u64,
    /// Empty looks at its ring after which a worker ends its round.
    pub looks: u32,
    /// Maximum number of whole records that a run cuts, 1 to 2^47.
    pub max_records: u64,
}

impl Plan {
    /// Whether each number is in its range.
    pub fn check(&self) -> bool
        ensures { IsTrue result ↔ IsPlan self.now }
    {
        (1..=64).contains(&self.workers)
            && (1..=65_536).contains(&self.ring)
            && (1..=1_048_576).contains(&self.batch)
            && (1..=1 << 47).contains(&self.max_records)
    }
}
