//! Members by name, as `gzip` and zlib wrote them, and the bytes of files made of them.

use fixtures::bytes_of;
use std::alloc::Global;
use std::process::Abort;

/// "announcement" by `gzip -n`: a block with fixed codes.
pub const FIXED: &str = "1f8b0800000000000003 4bcccbcb2fcd4b4ecd4dcd2b0100 1cd9b94d0c000000";

/// "withdrawal" by zlib at level 0: a stored block.
pub const STORED: &str = "1f8b0800000000000403 010a00f5ff7769746864726177616c 453b2d6d0a000000";

/// Nothing, by `gzip -n`.
pub const EMPTY: &str = "1f8b0800000000000303 0300 0000000000000000";

/// `NUMBERS` by zlib at level 9: a block with codes of its own.
pub const DYNAMIC: &str =
    "1f8b0800000000000203 45cccb0dc0400803d1562801089fa5ffc6422691e2c393e5832b624a6a6d3c386b\
aaa2a1b317fdc2c0c4776f3cc883f16026e1fae5afcf3a7bd93e2937ca8ccff487000000";

pub const NUMBERS: &str =
    "64496 64497 64498 64499 64500 64501 64502 64496 64503 64504 64505 64506 64507 64508 64509 \
64510 64511 4200000000 4200000001 4294967295 ";

/// "announcement" below a header with an extra field of four bytes, a name, a comment and its own check.
pub const NAMED: &str = "1f8b081e000000000003 0400 41420000 72696200 70656572730017a8 \
4bcccbcb2fcd4b4ecd4dcd2b0100 1cd9b94d0c000000";

/// The bytes of the files that these digits spell, one behind the other.
pub fn file_of(rt: &impl Abort, alloc: Global, parts: &[&str]) -> Vec<u8> {
    let mut file = Vec::new(alloc);
    for part in parts {
        let bytes = bytes_of(alloc, part).expect(rt, "memory for a part");
        file.extend_from_slice(bytes.as_slice())
            .expect(rt, "memory for a file");
    }
    file
}

/// A byte b and 127 matches of 258 bytes at distance 1, a byte c, and then 508 matches at distance 32768, the greatest.
/// The bytes in between are repeated, since so many matches are a whole number of bytes.
pub fn far_matches(rt: &impl Abort, alloc: Global) -> Vec<u8> {
    let near = "05a360148c8251300a46c12818";
    let far = "e8fdffa3f7ff8fdeff3f7affff";
    let mut file = file_of(rt, alloc, &["1f8b08000000000000034b1a"]);
    for _ in 0..15 {
        push(rt, alloc, &mut file, near);
    }
    push(rt, alloc, &mut file, "05a360148c8251300a4641f2");
    for _ in 0..126 {
        push(rt, alloc, &mut file, far);
    }
    push(
        rt,
        alloc,
        &mut file,
        "e8fdffa3f7ff8fdeff3f7aff3f008d4da197f87f0200",
    );
    file
}

fn push(rt: &impl Abort, alloc: Global, file: &mut Vec<u8>, digits: &str) {
    let bytes = bytes_of(alloc, digits).expect(rt, "memory for digits");
    file.extend_from_slice(bytes.as_slice())
        .expect(rt, "memory for a file");
}
