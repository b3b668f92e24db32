ghost use Rattle.std.specs.Prelude.{◌≡◌, ℕ, ◌<◌, ◌%◌};
ghost use Rattle.std.proofs.lemmas.Nat.{mod_below};

/// Decides which lane a peer's units go to. The result depends only on the arguments and the value, so a
/// peer keeps its lane in every file.
pub trait Dealing {
    /// The lane of a peer's number, for this number of lanes.
    ghost lane_of: { Self → ℕ → ℕ → ℕ };

    /// The lane of a peer's number, below `workers`.
    fn lane(&self, peer: usize, workers: usize) -> usize
        requires { 0 < workers }
        ensures { result ≡ lane_of self.now peer workers };

    /// It is one of the lanes.
    ghost is_below: { (d : Self) (peer workers : ℕ) → 0 < workers → lane_of d peer workers < workers };
}

/// A borrowed dealing.
impl<D: Dealing> Dealing for &D {
    ghost lane_of = { λ d peer workers. D.lane_of d.now peer workers };

    fn lane(&self, peer: usize, workers: usize) -> usize {
        (**self).lane(peer, workers)
    }

    ghost is_below = { λ d peer workers h. D.is_below d.now peer workers h };
}

/// Peers go to lanes in turn: `peer % workers`.
#[derive(Clone, Copy, Debug)]
pub struct ByTurns;

impl Dealing for ByTurns {
    ghost lane_of = { λ d peer workers. peer % workers };

    fn lane(&self, peer: usize, workers: usize) -> usize {
        // A division takes some 25 cycles, and the remainder by a constant power of two takes one.
        match workers {
            1 => peer % 1,
            2 => peer % 2,
            4 => peer % 4,
            8 => peer % 8,
            16 => peer % 16,
            _ => peer % workers,
        }
    }

    ghost is_below = { λ d peer workers h. mod_below peer workers h };
}
