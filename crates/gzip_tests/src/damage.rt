//! Files that are cut short, and files that are damaged.

use crate::files::{FIXED, NAMED, STORED, file_of};
use crate::reading::read_file;
use gzip_reader::Flaw;

/// The first ten bytes of a member.
const HEADER: &str = "1f8b0800000000000003";

/// Wherever a file of two members is cut, its front is read, and only a cut between them isn't noticed.
#[test]
fn a_file_that_is_cut_short_ends_there(rt: HostRuntime) {
    let alloc = rt.alloc();
    let file = file_of(&rt, alloc, &[NAMED, STORED]);
    for end in 0..file.len() {
        let read = read_file(&rt, alloc, &file.as_slice()[..end], 100);
        let whole = b"announcementwithdrawal";
        assert!(rt; whole.starts_with(read.bytes.as_slice()));
        if end == 50 {
            assert!(rt; read.fault.is_none() && read.bytes.len() == 12);
        } else {
            assert!(rt; read.flaw() == Some(Flaw::Truncated) && read.failures == 0);
        }
        assert!(rt; end < 42 || 12 <= read.bytes.len());
        assert!(rt; end < 75 || read.bytes.len() == 22);
    }
}

fn turn_bit(file: &mut Vec<u8>, at: usize, bit: u32) {
    if let Some(byte) = file.get_mut(at) {
        *byte ^= 1u8.wrapping_shl(bit);
    }
}

/// Whichever bit is turned, other bytes are never read without a fault. zlib too accepts 55 of these files.
#[test]
fn a_turned_bit_changes_nothing_or_is_a_fault(rt: HostRuntime) {
    let alloc = rt.alloc();
    let mut file = file_of(&rt, alloc, &[FIXED]);
    let mut accepted = 0u32;
    for at in 0..file.len() {
        for bit in 0..8u32 {
            turn_bit(&mut file, at, bit);
            let read = read_file(&rt, alloc, file.as_slice(), 100);
            turn_bit(&mut file, at, bit);
            if read.fault.is_none() {
                accepted = accepted.wrapping_add(1);
                assert!(rt; read.bytes.as_slice() == "announcement".as_bytes());
            }
        }
    }
    assert!(rt; accepted == 55);
}

/// Each flaw, in a file that zlib refuses for the same reason.
#[test]
fn each_flaw_is_named(rt: HostRuntime) {
    let alloc = rt.alloc();
    let files = [
        ("418b0800000000000003", "", Flaw::Magic),
        ("1f8b0700000000000003", "", Flaw::Method),
        ("1f8b0820000000000003", "", Flaw::Flags),
        ("1f8b0802000000000003", "0000", Flaw::HeaderCheck),
        (HEADER, "07", Flaw::BlockType),
        (HEADER, "0105000500", Flaw::StoredLength),
        (HEADER, "f500000000000000000000", Flaw::Symbols),
        (HEADER, "05e003040000000000040000000000000000", Flaw::Repeat),
        (
            HEADER,
            "05e081040000000000fcffff030000000000000000",
            Flaw::Repeat,
        ),
        (
            HEADER,
            "05e081000000000000000000000000000000",
            Flaw::CodeLengths,
        ),
        (
            HEADER,
            "05e081040000000010000000000000000000",
            Flaw::CodeLengths,
        ),
        (
            HEADER,
            "05e081000000008020f85b1f0000000000000000",
            Flaw::CodeLengths,
        ),
        (
            HEADER,
            "05e081040000000000fc6f030000000000000000",
            Flaw::NoEndOfBlock,
        ),
        (
            HEADER,
            "05e081000000000010fc5f130000000000000000",
            Flaw::Code,
        ),
        (HEADER, "1b030000000000000000", Flaw::Code),
        (HEADER, "4b043e0000000000000000", Flaw::Code),
        (HEADER, "4b04420000000000000000", Flaw::Distance),
        (
            HEADER,
            "4bcccbcb2fcd4b4ecd4dcd2b01001dd9b94d0c000000",
            Flaw::Checksum,
        ),
        (
            HEADER,
            "4bcccbcb2fcd4b4ecd4dcd2b01001cd9b94d0d000000",
            Flaw::Length,
        ),
    ];
    for (header, body, flaw) in files {
        let file = file_of(&rt, alloc, &[header, body]);
        let read = read_file(&rt, alloc, file.as_slice(), 100);
        assert!(rt; read.flaw() == Some(flaw) && read.failures == 1);
    }
    // A distance doesn't reach back to an earlier member.
    let file = file_of(&rt, alloc, &[FIXED, HEADER, "03020000000000000000"]);
    let read = read_file(&rt, alloc, file.as_slice(), 100);
    assert!(rt; read.flaw() == Some(Flaw::Distance));
    assert!(rt; read.bytes.as_slice() == "announcement".as_bytes());
}
