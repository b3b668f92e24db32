//! Devices that give little at a time, fail, or were read before, and memory that runs out.

use super::reading::{HELLO, TEXT, read_by};
use bzip2_reader::{Alone, Bunzip, Cause, Damage};
use fixtures::Dripping;
use mrt_frame::{Counted, Source};
use std::io::ErrorKind;

#[test]
fn reads_of_one_byte_give_the_same_bytes(rt: HostRuntime) {
    let alloc = rt.alloc();
    let mut reader = Bunzip::new(alloc, Counted::new(Dripping::new(&HELLO, None)));
    let reading = read_by(alloc, &mut reader, &Alone).expect(&rt, "memory for a file");
    assert!(rt; reading.bytes.as_slice() == TEXT.as_bytes() && reading.damage.is_none());
}

#[test]
fn bytes_that_were_read_before_come_first(rt: HostRuntime) {
    let alloc = rt.alloc();
    for length in [0usize, 1, 4, 10, 45, 55] {
        let (front, rest) = HELLO.split_at(length);
        let front = Vec::from_slice(alloc, front).expect(&rt, "memory for a front");
        let mut reader = Bunzip::with_front(front, Counted::new(rest));
        let reading = read_by(alloc, &mut reader, &Alone).expect(&rt, "memory for a file");
        assert!(rt; reading.bytes.as_slice() == TEXT.as_bytes() && reading.damage.is_none());
    }
}

/// A device that fails in place of each byte: what is whole comes before, and then each read fails.
#[test]
fn a_device_that_fails_is_a_failure_for_good(rt: HostRuntime) {
    let alloc = rt.alloc();
    for length in 0..=55usize {
        let device = Dripping::new(&HELLO[..length], Some(ErrorKind::Interrupted));
        let mut reader = Bunzip::new(alloc, Counted::new(device));
        let reading = read_by(alloc, &mut reader, &Alone).expect(&rt, "memory for a file");
        let (bytes, offset) = match length {
            0..=3 => ("", 0),
            4..=44 => ("", 4),
            45..=54 => (TEXT, 44),
            _ => (TEXT, 55),
        };
        let cause = Cause::Device;
        assert!(rt; reading.bytes.as_slice() == bytes.as_bytes(), "{length}");
        assert!(rt; reading.has_failed && reading.failures == 2, "{length}");
        assert!(rt;
            reading.damage == Some(Damage { offset, cause }),
            "{length}"
        );
    }
}

/// Where an allocation fails, so does the read, for good.
#[test]
fn want_of_memory_is_a_failure_for_good(rt: HostRuntime) {
    let device: &[u8] = &HELLO;
    let mut reader = Bunzip::new(rt.alloc(), Counted::new(device));
    let mut block = [0u8; 100];
    match reader.read_some(&mut block) {
        Ok(count) => {
            assert!(rt; &block[..count] == TEXT.as_bytes());
            assert!(rt; reader.read_some(&mut block) == Ok(0) && reader.damage().is_none());
        }
        Err(_) => {
            assert!(rt; reader.read_some(&mut block).is_err());
            assert!(rt;
                matches!(
                    reader.damage(),
                    Some(Damage {
                        cause: Cause::Memory,
                        ..
                    })
                )
            );
        }
    }
}
