//! What a reader gives, in reads of a few bytes.

use bzip2_reader::{Bunzip, Damage, Team};
use mrt_frame::{Counted, Failures, Source};
use std::alloc::{AllocError, Global};
use std::io::Read;

/// A file of one block, in 55 bytes: its block begins at bit 32, and its stream's end at bit 357.
pub const HELLO: [u8; 55] = [
    0x42, 0x5a, 0x68, 0x39, 0x31, 0x41, 0x59, 0x26, 0x53, 0x59, 0xb1, 0x23, 0xde, 0x43, 0x00, 0x00,
    0x03, 0x59, 0x80, 0x00, 0x10, 0x40, 0x04, 0x10, 0x00, 0x12, 0x64, 0xc0, 0x10, 0x20, 0x00, 0x31,
    0x03, 0x40, 0xd0, 0x20, 0x01, 0xa6, 0x91, 0x03, 0xab, 0x6c, 0x82, 0x84, 0xf8, 0xbb, 0x92, 0x29,
    0xc2, 0x84, 0x85, 0x89, 0x1e, 0xf2, 0x18,
];

/// The text of `HELLO`.
pub const TEXT: &str = "hello, bzip2\n";

/// A file of no bytes: a stream with no block.
pub const EMPTY: &str = "425a683917724538509000000000";

/// A file of one block with runs of 1 to 6, 255, 256, 258, 259, 260 and 3 equal bytes.
pub const RUNS: &str =
    "425a6831314159265359e426e016000009c100f000380000082000310c009029a531e827cfa846616f0e15a8cc81ce25 \
    5a373e2ee48a70a121c84dc02c";

/// A file of four blocks: 150,000 times the bytes `ab`.
pub const PAIRS: &str =
    "425a6831314159265359f14b8b270061a30100300020003080291942505aa1282e6282b24ca6b2037dbcf800c3460200 \
    600040006100523542505942505cc50564994d67c52e2c9c01868c0400c0008000c200a46509416a84a0b98a0ac9329a \
    ce6c7e143800007008018001000184026a32351c5dc914e142428effd01c";

/// What reading until the end gave.
#[derive(Drop)]
pub struct Reading {
    pub bytes: Vec<u8>,
    pub has_failed: bool,
    pub damage: Option<Damage>,
    pub failures: u64,
}

/// Reads until the end or a failure, and then once more.
pub fn read_by<D: Read, T: Team>(
    alloc: Global,
    reader: &mut Bunzip<Counted<D>>,
    team: &T,
) -> Result<Reading, AllocError>
    requires { T.is_ready team.now }
{
    let mut bytes = Vec::new(alloc);
    let mut has_failed = false;
    let mut block = [0u8; 700];
    for _ in 0..10_000 {
        match reader.read_by(team, &mut block) {
            Ok(0) => break,
            Ok(count) => bytes.extend_from_slice(&block[..count])?,
            Err(_) => {
                has_failed = true;
                break;
            }
        }
    }
    let again = reader.read_some(&mut block);
    if has_failed && again.is_ok() || !has_failed && again != Ok(0) {
        bytes.extend_from_slice(b"read on after the end")?;
    }
    Ok(Reading {
        bytes,
        has_failed,
        damage: reader.damage(),
        failures: reader.failures(),
    })
}
