//! Names of files in a text, one a line or each ended by a NUL byte.

ghost use Rattle.std.specs.Prelude.{◌≡◌, ◌<◌, ◌++◌, ◌∷◌, [], IfErr, IfNone, IfOk, IfSome, length, map, position, string_bytes, ◌==◌};
ghost use Rattle.command_line.specs.FileLists.{IsFileListError, IsNameError, end_of, is_passed, names_in, names_of, pieces_of};
ghost use Rattle.command_line.specs.declared.file_list.FileListError.TheVariants.{Memory};

use crate::names::FileName;
use std::alloc::{AllocError, AllocFailed, Global};

/// Why a text doesn't name files.
#[derive(Debug, Drop)]
pub enum FileListError {
    /// The name of this number, from 1, isn't UTF-8. Empty names count.
    NotText(usize),
    /// An allocation failed.
    Memory,
}

impl From<AllocError> for FileListError {
    ghost from_gives = { λ _ error. error ≡ Memory };

    fn from(_error: AllocError) -> FileListError {
        FileListError::Memory
    }
}

impl<T: Drop> From<AllocFailed<T>> for FileListError {
    ghost from_gives = { λ _ error. error ≡ Memory };

    fn from(_error: AllocFailed<T>) -> FileListError {
        FileListError::Memory
    }
}

/// Returns the byte that ends each name: a NUL byte if the text has one, else a line feed.
fn end_of(text: &[u8]) -> u8
    ensures { result ≡ end_of text.now }
{
    if text.contains(&0) { 0 } else { b'\n' }
}

/// Returns the position of the first such byte.
fn first_end(text: &[u8], end: u8) -> Option<usize>
    ensures { result ≡ position (λ byte. byte == end) text.now }
{
    text.iter().position(|byte| *byte == end)
}

/// Returns what is before the first such byte, and what is behind it, if there is one.
fn first_piece(text: &[u8], end: u8) -> (&[u8], Option<&[u8]>)
    ensures last { IfNone result.1 (pieces_of end text.now ≡ result.0.now ∷ []) }
    ensures more { IfSome result.1 (λ behind. pieces_of end text.now ≡ result.0.now ∷ pieces_of end behind.now) }
    ensures shorter { IfSome result.1 (λ behind. length behind.now < length text.now) }
{
    match first_end(text, end) {
        Some(at) => (&text[..at], Some(&text[at + 1..])),
        None => (text, None),
    }
}

/// Whether nothing is named here: an empty line, or what is behind the last end.
fn is_passed(piece: &[u8], end: u8, is_last: bool) -> bool
    ensures { result ≡ is_passed end is_last piece.now }
{
    piece.is_empty() && (is_last || end == b'\n')
}

/// Returns a name as text.
fn text_of(alloc: Global, name: &[u8], number: usize) -> Result<String, FileListError>
    ensures text { IfOk result (λ text. string_bytes text ≡ name.now) }
    ensures error { IfErr result (IsNameError name.now number) }
{
    match str::from_utf8(name) {
        Ok(text) => Ok(String::from_str(alloc, text)?),
        Err(_) => Err(FileListError::NotText(number)),
    }
}

/// Returns the names in a text, in order: each is ended by a NUL byte if the text has one, and else each line that
/// isn't empty is one. Nothing is taken off them.
pub fn read_file_list(alloc: Global, text: &[u8]) -> Result<Vec<String>, FileListError>
    ensures names { IfOk result (λ names. map string_bytes names.items ≡ names_in text.now) }
    ensures error { IfErr result (IsFileListError text.now) }
{
    let end = end_of(text);
    let mut names = Vec::new(alloc);
    let mut rest = text;
    let mut number = 1usize;
    'names: loop {
        let (name, behind) = first_piece(rest, end);
        if !is_passed(name, end, behind.is_none()) {
            names.push(text_of(alloc, name, number)?)?;
        }
        match behind {
            Some(behind) => rest = behind,
            None => return Ok(names),
        }
        number += 1;
    }
}

/// Returns the name of this number, from 1.
fn name_at(text: &[u8], number: usize) -> &[u8] {
    let end = end_of(text);
    let mut rest = text;
    for _ in 1..number {
        let (_, behind) = first_piece(rest, end);
        rest = behind.unwrap_or(&[]);
    }
    first_piece(rest, end).0
}

/// Returns why the names in a file can't be used, in words for whoever wrote it.
pub fn fault_of_file_list(
    alloc: Global,
    file: &str,
    text: &[u8],
    number: usize,
) -> Result<String, AllocError> {
    let shown = name_at(text, number).escape_ascii();
    let file = FileName(file);
    format!(in alloc;
        "error: name {number} '{shown}' in '--files-from {file}' is not UTF-8 text\n  give such a file by a symbolic link with another name\n"
    )
}
