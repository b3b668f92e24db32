//! In which form a file is.

ghost use Rattle.std.specs.Prelude.{◌≡◌};
ghost use Rattle.packed_io.specs.Formats.{format_of};

use bzip2_reader::is_bzip2;
use gzip_reader::is_gzip;

/// In which form a file is.
#[derive(Clone, Copy, Debug, PartialEq, Eq, Drop)]
pub enum Format {
    /// Read as it is.
    Plain,
    /// RFC 1952.
    Gzip,
    Bzip2,
}

/// The form of a file that begins with these bytes. Ten bytes tell; fewer are those of a file that has no more.
pub fn format_of(first: &[u8]) -> Format
    ensures { result ≡ format_of first.now }
{
    if is_gzip(first) {
        Format::Gzip
    } else if is_bzip2(first) {
        Format::Bzip2
    } else {
        Format::Plain
    }
}
