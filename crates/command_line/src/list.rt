//! Prefixes in a text, one a line.

ghost use Rattle.std.specs.Prelude.{◌≡◌, ◌<◌, ◌++◌, ◌∷◌, [], true, false, List, ℕ, IfErr, IfNone, IfOk, IfSome, length, position, ◌==◌};
ghost use Rattle.command_line.specs.Choices.{IsNoChoice};
ghost use Rattle.command_line.specs.Lists.{IsListError, NameChoices, is_blank, is_passed, lines_of, trimmed};
ghost use Rattle.command_line.specs.declared.list.ListError.TheVariants.{Memory};
ghost use Rattle.command_line.specs.Families.{SpellsIn};

use crate::address_text::AddressText;
use crate::choice::{choice_in, fault_of_reach, hint_of_reach};
use crate::names::FileName;
use bgp_prefix::Prefix;
use peer_units::PrefixChoice;
use std::alloc::{AllocError, Global};

/// Why a text doesn't choose prefixes.
#[derive(Debug, Drop)]
pub enum ListError {
    /// The line of this number, from 1, is the first one that is in none of the forms.
    Line(usize),
    /// An allocation failed.
    Memory,
}

impl From<AllocError> for ListError {
    ghost from_gives = { λ _ error. error ≡ Memory };

    fn from(_error: AllocError) -> ListError {
        ListError::Memory
    }
}

/// Whether a byte is no part of a line where it stands at its end.
fn is_blank(byte: u8) -> bool
    ensures { result ≡ is_blank byte }
{
    byte == b' ' || byte == b'\t' || byte == b'\r'
}

/// Returns a line without the blanks at its end.
#[tactic(auto, using(crate::proofs::Lines::trimmed_blank, crate::proofs::Lines::trimmed_kept))]
fn trimmed(line: &[u8]) -> &[u8]
    ensures { result.now ≡ trimmed line.now }
{
    let mut kept = line;
    while let Some((last, front)) = kept.split_last() {
        if !is_blank(*last) {
            return kept;
        }
        kept = front;
    }
    kept
}

/// Whether a line without blanks at its end is empty or a comment.
fn is_passed(line: &[u8]) -> bool
    ensures { result ≡ is_passed line.now }
{
    match line {
        [] => true,
        [first, ..] => *first == b'#',
    }
}

/// Returns the position of the first line feed.
fn first_feed(text: &[u8]) -> Option<usize>
    ensures { result ≡ position (λ byte. byte == 10) text.now }
{
    text.iter().position(|byte| *byte == b'\n')
}

/// Returns the first line of a text, and what is behind its line feed, if there is one.
fn first_line(text: &[u8]) -> (&[u8], Option<&[u8]>)
    ensures last { IfNone result.1 (lines_of text.now ≡ result.0.now ∷ []) }
    ensures more { IfSome result.1 (λ behind. lines_of text.now ≡ result.0.now ∷ lines_of behind.now) }
    ensures shorter { IfSome result.1 (λ behind. length behind.now < length text.now) }
{
    match first_feed(text) {
        Some(feed) => (&text[..feed], Some(&text[feed + 1..])),
        None => (text, None),
    }
}

/// Appends what a line chooses. Returns whether it is passed over or in one of the forms.
#[tactic(auto, using(crate::proofs::Lines::passed_over, crate::proofs::Lines::one_named))]
fn take_line<F: AddressText>(
    line: &[u8],
    choices: &mut Vec<PrefixChoice<Prefix<F>>>,
) -> Result<bool, AllocError>
    ensures taken { IfOk result (λ taken. taken ≡ true → (before : List (List ℕ)) →
        NameChoices (SpellsIn F.FAMILY) F.WIDTH before choices.old.items → NameChoices (SpellsIn F.FAMILY) F.WIDTH (before ++ line.now ∷ []) choices.new.items) }
    ensures refused { IfOk result (λ taken. taken ≡ false →
        (is_passed (trimmed line.now) ≡ false) × IsNoChoice (SpellsIn F.FAMILY) F.WIDTH (trimmed line.now)) }
    ensures kept { IfOk result (λ taken. taken ≡ false → choices.new.items ≡ choices.old.items) }
{
    let text = trimmed(line);
    if is_passed(text) {
        return Ok(true);
    }
    match choice_in::<F>(text) {
        Some(choice) => {
            choices.push(choice)?;
            Ok(true)
        }
        None => Ok(false),
    }
}

/// Returns what the lines of a text choose, in order: each that isn't empty and doesn't begin with `#` is a prefix as
/// `--prefix` takes it. Blanks, tabs and carriage returns at a line's end are no part of it.
pub fn read_list<F: AddressText>(
    alloc: Global,
    text: &[u8],
) -> Result<Vec<PrefixChoice<Prefix<F>>>, ListError>
    ensures choices { IfOk result (λ choices. NameChoices (SpellsIn F.FAMILY) F.WIDTH (lines_of text.now) choices.items) }
    ensures error { IfErr result (IsListError (SpellsIn F.FAMILY) F.WIDTH text.now) }
{
    let mut choices = Vec::new(alloc);
    let mut rest = text;
    let mut number = 1usize;
    'lines: loop {
        let (line, behind) = first_line(rest);
        if !take_line(line, &mut choices)? {
            return Err(ListError::Line(number));
        }
        match behind {
            Some(behind) => rest = behind,
            None => return Ok(choices),
        }
        number += 1;
    }
}

/// Returns the line of this number, from 1, without the blanks at its end.
fn line_at(text: &[u8], number: usize) -> &[u8] {
    let mut rest = text;
    for _ in 1..number {
        let (_, behind) = first_line(rest);
        rest = behind.unwrap_or(&[]);
    }
    trimmed(first_line(rest).0)
}

/// Returns why the prefixes in a file can't be used, in words for whoever wrote it.
pub fn fault_of_list<F: AddressText>(
    alloc: Global,
    name: &str,
    text: &[u8],
    number: usize,
) -> Result<String, AllocError> {
    let line = line_at(text, number);
    let shown = line.escape_ascii();
    let fault = fault_of_reach::<F>(line);
    let example = F::WORDS.example;
    let hint = hint_of_reach::<F>(alloc, line)?;
    let file = FileName(name);
    format!(in alloc;
        "error: invalid line {number} '{shown}' in '--prefixes {file}': {fault}\n  it may be {example}, {example}+ (more specifics too), {example}- (less specifics too) or an address; a line that begins with # is passed over\n{hint}"
    )
}
