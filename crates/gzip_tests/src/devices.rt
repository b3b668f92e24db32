//! Devices that give little at a time, or fail, and files whose first bytes were read before.

use crate::files::{DYNAMIC, FIXED, NUMBERS, STORED, file_of};
use crate::reading::read_all;
use fixtures::Dripping;
use gzip_reader::{Flaw, Gunzip, LONGEST_HEAD};
use mrt_frame::{Counted, Source};
use std::io::ErrorKind;

#[test]
fn a_device_may_give_one_byte_at_a_time(rt: HostRuntime) {
    let alloc = rt.alloc();
    let file = file_of(&rt, alloc, &[DYNAMIC, STORED]);
    let device = Counted::new(Dripping::new(file.as_slice(), None));
    let mut reader = Gunzip::new(alloc, device).expect(&rt, "memory for a reader");
    let read = read_all(&rt, alloc, &mut reader, 7);
    assert!(rt; read.fault.is_none());
    assert!(rt; read.bytes.as_slice().starts_with(NUMBERS.as_bytes()));
    assert!(rt; read.bytes.len() == NUMBERS.len() + 10);
}

/// Wherever a device fails, the front that was decoded is read, and then the failure, by its name.
#[test]
fn a_failing_device_is_a_failure(rt: HostRuntime) {
    let alloc = rt.alloc();
    let file = file_of(&rt, alloc, &[FIXED, STORED]);
    for end in 0..file.len() {
        let dripping = Dripping::new(&file.as_slice()[..end], Some(ErrorKind::Other));
        let mut reader = Gunzip::new(alloc, Counted::new(dripping)).expect(
            &rt,
            "memory for a reader",
        );
        let read = read_all(&rt, alloc, &mut reader, 100);
        assert!(rt; read.flaw() == Some(Flaw::Device) && read.failures == 1);
        assert!(rt; b"announcementwithdrawal".starts_with(read.bytes.as_slice()));
        // The device isn't asked again.
        assert!(rt; reader.source().device().asked as usize == end.wrapping_add(1));
    }
}

#[test]
fn the_first_bytes_may_be_read_before(rt: HostRuntime) {
    let alloc = rt.alloc();
    let file = file_of(&rt, alloc, &[FIXED, STORED]);
    for count in 0..file.len() + 1 {
        let (head, rest) = file.as_slice().split_at(count);
        assert!(rt; head.len() <= LONGEST_HEAD);
        let device = Counted::new(rest);
        let mut reader = Gunzip::with_head(alloc, head, device).expect(&rt, "memory for a reader");
        // A buffer without room says nothing about the end.
        assert!(rt; reader.read_some(&mut []) == Ok(0));
        let read = read_all(&rt, alloc, &mut reader, 100);
        assert!(rt; read.fault.is_none());
        assert!(rt; read.bytes.as_slice() == "announcementwithdrawal".as_bytes());
    }
}
