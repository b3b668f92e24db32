//! Names of files as messages print them.

use std::fmt;

/// A file's name in a message: unchanged if it is printable ASCII without blanks and quotes, otherwise
/// in quotes, with what can't be printed escaped. `-` is standard input.
#[derive(Clone, Copy)]
pub struct FileName<'a>(pub &'a str);

fn is_plain(byte: u8) -> bool {
    byte.is_ascii_graphic() && byte != b'"' && byte != b'\'' && byte != b'\\'
}

impl fmt::Display for FileName<'_> {
    fn fmt<W: fmt::Write>(&self, f: &mut fmt::Formatter<W>) -> fmt::Result {
        let name = self.0;
        if name == "-" {
            f.write_str("standard input")
        } else if name.as_bytes().iter().all(|byte| is_plain(*byte)) {
            f.write_str(name)
        } else {
            write!(f, "{name:?}")
        }
    }
}
