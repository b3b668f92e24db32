//! Masks as text.

ghost use Rattle.std.specs.Prelude.{◌≡◌, IfSome};
ghost use Rattle.route_choice.specs.Masks.{IsOrdered};
ghost use Rattle.route_choice.specs.declared.mask_text.MaskError.TheVariants.{Memory};

use crate::number::read_number;
use crate::path_mask::{PathMask, PathStep};
use std::alloc::{AllocError, AllocFailed, Global};

/// What stands between words.
const BLANKS: [char; 2] = [' ', '\t'];

/// Why a text is no mask.
#[derive(Clone, Copy, Debug, PartialEq, Eq)]
pub enum MaskError {
    /// It has no word, and no brackets.
    Empty,
    /// One bracket stands without the other.
    Bracket,
    /// A word is no step: neither `?`, nor `*`, nor a number below 2^32, nor two of them with `..` between them, of
    /// which the second one isn't less.
    Word,
    /// An allocation failed.
    Memory,
}

impl From<AllocError> for MaskError {
    ghost from_gives = { λ _ error. error ≡ Memory };

    fn from(_error: AllocError) -> MaskError {
        MaskError::Memory
    }
}

impl<T: Drop> From<AllocFailed<T>> for MaskError {
    ghost from_gives = { λ _ error. error ≡ Memory };

    fn from(_error: AllocFailed<T>) -> MaskError {
        MaskError::Memory
    }
}

/// Returns the step of a range, unless its first number is above its last one.
fn range_of(first: u32, last: u32) -> Option<PathStep>
    ensures { IfSome result IsOrdered }
{
    if first <= last {
        Some(PathStep::Within(first, last))
    } else {
        None
    }
}

/// Returns the step of a word.
fn step_of(word: &str) -> Option<PathStep>
    ensures { IfSome result IsOrdered }
{
    if word == "?" {
        return Some(PathStep::AnyOne);
    }
    if word == "*" {
        return Some(PathStep::AnyNumber);
    }
    match word.split_once("..") {
        Some((first, last)) => range_of(read_number(first)?, read_number(last)?),
        None => {
            let number = read_number(word)?;
            range_of(number, number)
        }
    }
}

/// Appends the steps of the words of a text.
fn push_steps(steps: &mut Vec<PathStep>, text: &str) -> Result<(), MaskError> {
    for word in text.split(BLANKS) {
        if !word.is_empty() {
            steps.push(step_of(word).ok_or(MaskError::Word)?)?;
        }
    }
    Ok(())
}

/// Returns what stands between the brackets, if there are some.
fn bracketed(text: &str) -> Result<Option<&str>, MaskError> {
    match text.strip_prefix("[=") {
        Some(rest) => match rest.strip_suffix("=]") {
            Some(inner) => Ok(Some(inner)),
            None => Err(MaskError::Bracket),
        },
        None => {
            if text.ends_with("=]") {
                Err(MaskError::Bracket)
            } else {
                Ok(None)
            }
        }
    }
}

/// Returns the mask of a text: words with spaces or tabs between them, with or without `[=` and `=]` round them. A word
/// is a number, a range as `64496..64511`, `?` for any one position, or `*` for any number of positions. Within
/// brackets there may be no word: that is the empty mask.
pub fn read_mask(alloc: Global, text: &str) -> Result<PathMask, MaskError> {
    let text = text.trim_matches(BLANKS);
    let mut steps = Vec::new(alloc);
    match bracketed(text)? {
        Some(inner) => push_steps(&mut steps, inner)?,
        None => {
            if text.is_empty() {
                return Err(MaskError::Empty);
            }
            push_steps(&mut steps, text)?;
        }
    }
    Ok(PathMask::of_steps(steps))
}
