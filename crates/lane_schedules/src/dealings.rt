//! Dealings other than the program's.

ghost use Rattle.std.specs.Prelude.{◌≡◌, ◌≤◌, ◌%◌, ◌/◌, slice_index};
ghost use Rattle.std.proofs.lemmas.Nat.{mod_below};

use lane_deal::Dealing;

/// This many peers in a row go to each lane in turn: `(peer / size) % workers`.
#[derive(Clone, Copy, Debug)]
pub struct ByBlocks {
    size: usize,
    ghost some: { 1 ≤ size },
}

impl ByBlocks {
    ghost use Rattle.lane_schedules.specs.Dealings.{peer_block_size};

    /// Blocks of `size` peers.
    pub fn new(size: usize) -> ByBlocks
        requires { 1 ≤ size }
        ensures { peer_block_size result ≡ size }
    {
        ByBlocks { size }
    }
}

impl Dealing for ByBlocks {
    ghost use Rattle.lane_schedules.specs.Dealings.{peer_block_size};

    ghost lane_of = { λ d peer workers. peer / peer_block_size d % workers };

    fn lane(&self, peer: usize, workers: usize) -> usize {
        peer / self.size % workers
    }

    ghost is_below = { λ d peer workers h. mod_below (peer / peer_block_size d) workers h };
}

/// A list gives each peer's lane: `list[peer] % workers`, or 0 past its end.
#[derive(Debug, Drop)]
pub struct ByList {
    lanes: Vec<usize>,
}

impl ByList {
    ghost use Rattle.lane_schedules.specs.Dealings.{listed_lanes};

    /// The lanes of peers 0, 1 and so on.
    pub fn new(lanes: Vec<usize>) -> ByList
        ensures { listed_lanes result ≡ lanes.items }
    {
        ByList { lanes }
    }
}

impl Dealing for ByList {
    ghost use Rattle.lane_schedules.specs.Dealings.{listed_lanes};

    ghost lane_of = { λ d peer workers. slice_index (listed_lanes d) peer % workers };

    fn lane(&self, peer: usize, workers: usize) -> usize {
        match self.lanes.get(peer) {
            Some(lane) => *lane % workers,
            None => 0,
        }
    }

    ghost is_below = { λ d peer workers h. mod_below (slice_index (listed_lanes d) peer) workers h };
}
