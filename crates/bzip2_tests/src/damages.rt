//! Files that are cut off or changed.

use super::reading::{HELLO, Reading, TEXT, read_by};
use bzip2_reader::{Alone, Bunzip, Cause, Damage};
use mrt_frame::Counted;
use std::alloc::Global;
use std::process::Abort;

/// What this file gives, which is no failure to read.
fn reading_of(rt: &impl Abort, alloc: Global, file: &[u8]) -> Reading {
    let mut reader = Bunzip::new(alloc, Counted::new(file));
    let reading = read_by(alloc, &mut reader, &Alone).expect(rt, "memory for a file");
    assert!(rt; !reading.has_failed && reading.failures == 0);
    reading
}

/// The block's last bit is 356, in byte 44: from 45 bytes on the text is whole.
#[test]
fn a_file_that_ends_early_gives_what_is_whole(rt: HostRuntime) {
    for length in 1..55usize {
        let reading = reading_of(&rt, rt.alloc(), &HELLO[..length]);
        let (bytes, offset) = match length {
            0..=3 => ("", 0),
            4..=44 => ("", 4),
            _ => (TEXT, 44),
        };
        let cause = Cause::EarlyEnd;
        assert!(rt; reading.bytes.as_slice() == bytes.as_bytes(), "{length}");
        assert!(rt;
            reading.damage == Some(Damage { offset, cause }),
            "{length}"
        );
    }
}

/// The bits that bzip2 itself reads past with no error: those of the level, lengths of codes that no symbol has, and
/// the bits after the stream's checksum. A table with more codes than bits allow is refused here, and not there.
const HARMLESS: [usize; 17] = [
    28, 31, 253, 254, 256, 257, 262, 263, 264, 266, 272, 273, 274, 276, 437, 438, 439,
];

/// Whatever bit is changed, no other bytes come.
#[test]
fn a_changed_bit_gives_no_other_bytes(rt: HostRuntime) {
    for place in 0..88usize {
        let bit = 5 * place + 3;
        let mut file = HELLO;
        file[bit / 8] ^= 0x80 >> (bit % 8);
        let reading = reading_of(&rt, rt.alloc(), &file);
        let is_whole = reading.bytes.as_slice() == TEXT.as_bytes();
        assert!(rt; is_whole || reading.bytes.is_empty(), "{bit}");
        if reading.damage.is_none() {
            assert!(rt; is_whole && HARMLESS.contains(&bit), "{bit}");
        } else {
            assert!(rt; bit != 28 && bit != 31 && bit < 437, "{bit}");
        }
    }
}

#[test]
fn bytes_after_the_last_stream_are_damage(rt: HostRuntime) {
    let alloc = rt.alloc();
    let mut file = Vec::from_slice(alloc, &HELLO).expect(&rt, "memory for a file");
    file.extend_from_slice(b"BZip")
        .expect(&rt, "memory for a file");
    let reading = reading_of(&rt, alloc, file.as_slice());
    assert!(rt; reading.bytes.as_slice() == TEXT.as_bytes());
    let cause = Cause::NoStream;
    assert!(rt; reading.damage == Some(Damage { offset: 55, cause }));
}
