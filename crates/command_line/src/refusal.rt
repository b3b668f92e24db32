//! Why an argument is refused, in words.

use crate::options::OPTIONS;
use std::alloc::{AllocError, Global};

/// Returns the word that a refusal by the parser names as no argument of the command.
fn unknown_word(text: &str) -> Option<&str> {
    let rest = text.strip_prefix("error: unexpected argument '")?;
    let (word, _) = rest.split_once("' found")?;
    Some(word)
}

/// Returns the commands that have an option of this name, if not all have it.
fn owners_of(word: &str) -> Option<&'static str> {
    let name = word.strip_prefix("--")?;
    for row in &OPTIONS {
        if row.name == name && !row.commands.is_empty() {
            return Some(row.commands);
        }
    }
    None
}

/// Returns the whole argument that begins with this word: the parser names of `-dump` the letter alone.
fn whole_of<'a>(word: &'a str, words: &'a [String]) -> &'a str {
    for whole in words {
        if whole.as_str().starts_with(word) {
            return whole.as_str();
        }
    }
    word
}

/// Returns the parser's tip that names an option like a word that it doesn't know, if there is one.
fn similar_tip(alloc: Global, text: &str) -> Result<Option<String>, AllocError> {
    let begin = "  tip: a similar argument exists: ";
    let Some((_, rest)) = text.split_once(begin) else {
        return Ok(None);
    };
    let option = rest.split('\n').next().unwrap_or("");
    Ok(Some(format!(in alloc; "{begin}{option}")?))
}

/// Returns a tip on an option of other commands.
fn owners_tip(alloc: Global, word: &str, owners: &str) -> Result<String, AllocError> {
    let owners = owners.replace(alloc, " ", ", ")?;
    format!(in alloc; "  tip: '{word}' is an option of {owners}")
}

/// Returns a tip on a word that the parser doesn't know: which commands have such an option, or how to pass it where it
/// may be a file, since its name has a point.
fn tip_on(alloc: Global, word: &str, words: &[String]) -> Result<String, AllocError> {
    if let Some(owners) = owners_of(word) {
        let tip = owners_tip(alloc, word, owners)?;
        return format!(in alloc; "\n\n{tip}");
    }
    let whole = whole_of(word, words);
    let name = whole.split('=').next().unwrap_or("");
    if name.contains('.') {
        format!(in alloc; "\n\n  tip: to pass '{whole}' as a file, use '-- {whole}'")
    } else {
        Ok(String::new(alloc))
    }
}

/// Returns the parser's refusal of a word, with a tip on that word in place of the parser's, which takes each word
/// for a file. Where a similar option exists, the refusal names that alone, unless the word is an option of another
/// command.
pub fn refusal_of(alloc: Global, text: &str, words: &[String]) -> Result<String, AllocError> {
    let Some(word) = unknown_word(text) else {
        return String::from_str(alloc, text);
    };
    let as_value = format!(in alloc; "\n  tip: to pass '{word}' as a value, use '-- {word}'")?;
    if let Some(similar) = similar_tip(alloc, text)? {
        let named = text.replace(alloc, as_value.as_str(), "")?;
        return match owners_of(word) {
            Some(owners) => {
                let tip = owners_tip(alloc, word, owners)?;
                named
                    .as_str()
                    .replace(alloc, similar.as_str(), tip.as_str())
            }
            None => Ok(named),
        };
    }
    let paragraph = format!(in alloc; "\n{as_value}")?;
    let tip = tip_on(alloc, word, words)?;
    text.replace(alloc, paragraph.as_str(), tip.as_str())
}
