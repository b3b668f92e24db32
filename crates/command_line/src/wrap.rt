//! Texts broken into lines of a terminal's width.

use std::alloc::{AllocError, Global};

/// The width of a terminal that doesn't say.
pub const PLAIN_WIDTH: usize = 80;

/// The least width that lines are broken at.
const LEAST_WIDTH: usize = 40;

/// Returns the number of columns that a text, as of the variable COLUMNS, says, or 80 if it says none.
pub fn read_width(text: &str) -> usize {
    match text.trim().parse::<usize>() {
        Ok(width) if width > 0 => width,
        _ => PLAIN_WIDTH,
    }
}

pub fn push_blanks(text: &mut String, count: usize) -> Result<(), AllocError> {
    for _ in 0..count {
        text.push(' ')?;
    }
    Ok(())
}

/// Returns the column at which the rest of a broken line begins: that of what stands behind two blanks, or else that of
/// its first word.
fn hanging_column(line: &str) -> usize {
    let mut blanks = 0usize;
    let mut first = None;
    for (i, c) in line.chars().enumerate() {
        if c == ' ' {
            blanks = blanks.saturating_add(1);
            continue;
        }
        match first {
            Some(_) if blanks > 1 => return i,
            Some(_) => {}
            None => first = Some(i),
        }
        blanks = 0;
    }
    first.unwrap_or(0)
}

/// Appends a line, broken at blanks where it is wider.
fn push_line(text: &mut String, line: &str, width: usize) -> Result<(), AllocError> {
    if line.chars().count() <= width {
        return text.push_str(line);
    }
    let mut column = hanging_column(line);
    if column > width / 2 {
        column = 0;
    }
    let mut used = 0usize;
    for (i, word) in line.split(' ').enumerate() {
        let len = word.chars().count();
        if i > 0 && !word.is_empty() && used > column && used.saturating_add(len) >= width {
            text.push('\n')?;
            push_blanks(text, column)?;
            used = column;
        } else if i > 0 {
            text.push(' ')?;
            used = used.saturating_add(1);
        }
        text.push_str(word)?;
        used = used.saturating_add(len);
    }
    Ok(())
}

/// Returns the text with no line wider than this, or than 40 columns, unless a word is. Lines are broken at blanks, and
/// the rest of a line is indented as what stands behind two blanks in it, or as its first word.
pub fn wrapped(alloc: Global, text: &str, width: usize) -> Result<String, AllocError> {
    let width = width.max(LEAST_WIDTH);
    let mut wrapped = String::new(alloc);
    for (i, line) in text.split('\n').enumerate() {
        if i > 0 {
            wrapped.push('\n')?;
        }
        push_line(&mut wrapped, line, width)?;
    }
    Ok(wrapped)
}
