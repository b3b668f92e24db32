//! Matching a mask with a path. What stands between two `*` is taken where it fits first: what is behind it can't fit
//! worse from there. So each position is compared at most once with each step.

ghost use Rattle.std.specs.Prelude.{◌≡◌, drop, IfSome};
ghost use Rattle.route_choice.specs.Masks.{some_rest, mask_matches};
ghost use Rattle.route_choice.specs.Pieces.{EndsPiece};

use crate::cursor::PathCursor;
use crate::path_mask::PathStep;

/// How the steps of a mask up to its next `*` end at a path.
#[derive(Clone, Copy)]
pub(crate) enum PieceEnd {
    /// The mask ends with them, and so does the path: it matches.
    Whole,
    /// The path ends before them: the mask matches neither here nor further on.
    Short,
    /// They don't match here, or the path goes on behind the last one.
    Other,
    /// They match up to a `*`, and the steps behind that begin at this index.
    Star(usize),
}

/// Takes positions by the steps of a mask up to its next `*`.
fn end_of_piece(mask: &[PathStep], path: &mut PathCursor<'_>) -> PieceEnd
    ensures { EndsPiece mask.now path.old path.new result }
{
    for (i, step) in mask.iter().enumerate() {
        if let PathStep::AnyNumber = step {
            return PieceEnd::Star(i + 1);
        }
        match path.next() {
            None => return PieceEnd::Short,
            Some(position) => {
                if !step.takes(&position) {
                    return PieceEnd::Other;
                }
            }
        }
    }
    if path.is_end() {
        PieceEnd::Whole
    } else {
        PieceEnd::Other
    }
}

/// Whether a mask matches some rest of a path.
fn matches_some_rest(mask: &[PathStep], path: PathCursor<'_>) -> bool
    ensures { result ≡ some_rest (mask_matches mask.now) path.entry }
{
    let mut steps = mask;
    let mut start = path;
    'starts: loop {
        let mut at = start.same();
        match end_of_piece(steps, &mut at) {
            PieceEnd::Whole => return true,
            PieceEnd::Short => return false,
            PieceEnd::Star(behind) => {
                steps = &steps[behind..];
                start = at;
            }
            PieceEnd::Other => {
                if start.next().is_none() {
                    return false;
                }
            }
        }
    }
}

/// Whether a mask matches a path, all of it.
pub(crate) fn matches(mask: &[PathStep], path: PathCursor<'_>) -> bool
    ensures { result ≡ mask_matches mask.now path.entry }
{
    let mut at = path;
    match end_of_piece(mask, &mut at) {
        PieceEnd::Whole => true,
        PieceEnd::Short | PieceEnd::Other => false,
        PieceEnd::Star(behind) => matches_some_rest(&mask[behind..], at),
    }
}
