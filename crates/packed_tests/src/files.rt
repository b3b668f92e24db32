//! Files of the same text in each form, as `gzip` 1.12 and `bzip2` 1.0.8 wrote them.

use fixtures::bytes_of;
use std::alloc::Global;
use std::process::Abort;

/// "MRT dump bytes, three formats" and a line feed.
pub const PLAIN: &str = "4d52542064756d702062797465732c20746872656520666f726d6174730a";

/// The same by `gzip -9n`.
pub const GZIP: &str =
    "1f8b0800000000000203 f30d0a514829cd2d5048aa2c492dd65128c9284a4d5548cb2fca4d2c29e60200 d6bafcb91e000000";

/// The same by `bzip2 -9`.
pub const BZIP2: &str =
    "425a6839 314159265359 1611fc5c000003578000104004000214003742de202000314c269a034c4280f420308be2d0be08fa \
92256b52aea19c1c23447c5dc914e142405847f170";

/// Nothing, by `gzip -9n` and by `bzip2 -9`.
pub const EMPTY_GZIP: &str = "1f8b0800000000000203 0300 0000000000000000";

pub const EMPTY_BZIP2: &str = "425a6839 177245385090 00000000";

/// The bytes that these digits spell.
pub fn file_of(rt: &impl Abort, alloc: Global, digits: &str) -> Vec<u8> {
    bytes_of(alloc, digits).expect(rt, "memory for a file")
}
