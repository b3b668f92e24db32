//! Whole members, and what may follow them.

use crate::files::{DYNAMIC, EMPTY, FIXED, NAMED, NUMBERS, STORED, far_matches, file_of};
use crate::reading::read_file;
use gzip_reader::{Flaw, is_gzip};

/// The forms of blocks and headers, several members, empty ones, and zero bytes behind them.
#[test]
fn members_hold_their_bytes(rt: HostRuntime) {
    let alloc = rt.alloc();
    let files: [(&[&str], &str); 9] = [
        (&[FIXED], "announcement"),
        (&[STORED], "withdrawal"),
        (&[DYNAMIC], NUMBERS),
        (&[NAMED], "announcement"),
        (&[EMPTY], ""),
        (&[FIXED, STORED], "announcementwithdrawal"),
        (
            &[EMPTY, STORED, EMPTY, EMPTY, NAMED],
            "withdrawalannouncement",
        ),
        (&[FIXED, "000000"], "announcement"),
        (&[STORED, "00", FIXED, "00"], "withdrawalannouncement"),
    ];
    for (parts, want) in files {
        let file = file_of(&rt, alloc, parts);
        for size in [1usize, 5, 1000] {
            let read = read_file(&rt, alloc, file.as_slice(), size);
            assert!(rt; read.fault.is_none());
            assert!(rt; read.bytes.as_slice() == want.as_bytes());
        }
    }
}

/// The greatest length and distance, and more bytes than are held. The checksum is zlib's.
#[test]
fn matches_reach_back_32768_bytes(rt: HostRuntime) {
    let alloc = rt.alloc();
    let file = far_matches(&rt, alloc);
    for size in [1000usize, 200_000] {
        let read = read_file(&rt, alloc, file.as_slice(), size);
        assert!(rt; read.fault.is_none());
        assert!(rt; read.bytes.len() == 163_832);
        for (at, byte) in read.bytes.iter().enumerate() {
            assert!(rt; *byte == if at % 32_768 == 32_767 { b'c' } else { b'b' });
        }
    }
}

/// Other data behind a member ends the data. What begins a member is one.
#[test]
fn bytes_that_begin_no_member_end_the_data(rt: HostRuntime) {
    let alloc = rt.alloc();
    let tails = [
        ("41", Flaw::Trailing, 32),
        ("000041", Flaw::Trailing, 34),
        ("1f8c08", Flaw::Trailing, 32),
        ("001f", Flaw::Truncated, 34),
        ("1f8b08", Flaw::Truncated, 35),
        ("1f8b09", Flaw::Method, 35),
    ];
    for (tail, flaw, offset) in tails {
        let file = file_of(&rt, alloc, &[FIXED, tail]);
        let read = read_file(&rt, alloc, file.as_slice(), 100);
        assert!(rt; read.flaw() == Some(flaw));
        assert!(rt; read.fault.map(|fault| fault.offset) == Some(offset));
        assert!(rt; read.bytes.as_slice() == "announcement".as_bytes());
    }
}

#[test]
fn a_file_is_told_by_three_bytes(rt: HostRuntime) {
    assert!(rt; is_gzip(&[0x1f, 0x8b, 8]) && is_gzip(&[0x1f, 0x8b, 8, 0, 1]));
    assert!(rt; !is_gzip(&[]) && !is_gzip(&[0x1f, 0x8b]) && !is_gzip(&[0x1f, 0x8b, 7]));
    assert!(rt; !is_gzip(&[0x1f, 0x9d, 8]) && !is_gzip(&[0x42, 0x8b, 8]));
}
