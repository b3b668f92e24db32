//! What the program says of itself.

use crate::commands::version;
use crate::wrap::push_blanks;
use std::alloc::{AllocError, Global};

/// What the build records: 120 bytes between two marks, which `make` replaces in the program that is built.
static BUILD: &str =
    "@build:not recorded, built without make                                                                                        @";

/// How many bytes stand before what is recorded.
const MARK: usize = 7;

/// How many bytes are recorded.
const ROOM: usize = 120;

/// Returns what the build recorded, without the blanks round it. It is read character by character, so that no compiler
/// takes its length for known.
fn recorded(alloc: Global) -> Result<String, AllocError> {
    let mut text = String::new(alloc);
    let mut blanks = 0usize;
    for c in BUILD.chars().skip(MARK).take(ROOM) {
        if c == ' ' {
            blanks = blanks.saturating_add(1);
        } else {
            if !text.is_empty() {
                push_blanks(&mut text, blanks)?;
            }
            blanks = 0;
            text.push(c)?;
        }
    }
    Ok(text)
}

/// Returns the two lines of `--version`.
pub fn version_text(alloc: Global) -> Result<String, AllocError> {
    let version = version();
    let recorded = recorded(alloc)?;
    format!(in alloc; "bgp_replay {version}\n{recorded}\n")
}
