//! Masks of AS paths.

ghost use Rattle.std.specs.Prelude.{◌≡◌};
ghost use Rattle.route_choice.specs.Pieces.{takes};

use crate::cursor::Position;
use std::marker::Model;

/// A step of a mask.
#[derive(Clone, Copy, Debug, PartialEq, Eq)]
pub enum PathStep {
    /// One position, one of whose numbers is in this range, both ends in.
    Within(u32, u32),
    /// Any one position.
    AnyOne,
    /// Any number of positions, also none.
    AnyNumber,
}

impl PathStep {
    /// Whether the step, which is no `AnyNumber`, matches a position.
    pub(crate) fn takes(self, position: &Position<'_>) -> bool
        ensures { result ≡ takes self position.now }
    {
        match self {
            PathStep::Within(first, last) => position.has_within(first, last),
            PathStep::AnyOne | PathStep::AnyNumber => true,
        }
    }
}

/// A mask of AS paths: its steps in order, which have to match the whole path.
#[derive(Debug, Drop)]
pub struct PathMask {
    steps: Vec<PathStep>,
}

impl Model for PathMask {
    ghost use Rattle.std.specs.Prelude.{List};
    ghost use Rattle.route_choice.specs.declared.path_mask.PathStep.{PathStep as Step};

    ghost Value = { List Step };

    ghost view = { λ m. m.steps.items };
}

impl PathMask {
    /// Returns the mask of these steps.
    pub fn of_steps(steps: Vec<PathStep>) -> PathMask
        ensures { result ≡ steps.items }
    {
        PathMask { steps }
    }

    /// Its steps, in order.
    pub fn steps(&self) -> &[PathStep]
        ensures { result.now ≡ self.now }
    {
        self.steps.as_slice()
    }
}
