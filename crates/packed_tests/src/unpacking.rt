//! Files in each form, whatever their device gives at a time.

use crate::files::{BZIP2, GZIP, PLAIN, file_of};
use crate::reading::{Failing, read_all, read_on};
use packed_io::{Effect, Format, Unpacked};
use std::io::ErrorKind;

const FORMS: [(&str, Format); 3] = [
    (PLAIN, Format::Plain),
    (GZIP, Format::Gzip),
    (BZIP2, Format::Bzip2),
];

/// The same text is read of a file in each form, in pieces of one byte, of some and of all.
#[test]
fn a_file_in_each_form_gives_its_text(rt: HostRuntime) {
    let alloc = rt.alloc();
    let text = file_of(&rt, alloc, PLAIN);
    for (digits, format) in FORMS {
        let file = file_of(&rt, alloc, digits);
        for piece in [1, 3, 9, 10, 11, 1000] {
            let device = Failing::new(file.as_slice(), piece, 0);
            let mut reader = Unpacked::new(alloc, device);
            assert!(rt; reader.format().is_none() && reader.packed_bytes() == 0);
            let read = read_all(&rt, alloc, &mut reader);
            assert!(rt; read.error.is_none() && reader.fault().is_none());
            assert!(rt; read.bytes.as_slice() == text.as_slice());
            assert!(rt; reader.format() == Some(format));
            let counted = if format == Format::Plain {
                0
            } else {
                file.len() as u64
            };
            assert!(rt; reader.packed_bytes() == counted);
        }
    }
}

/// Whichever read fails, the error is the device's. Nothing is lost of a plain file, or of the first ten bytes.
#[test]
fn a_failed_read_loses_nothing_of_a_plain_file(rt: HostRuntime) {
    let alloc = rt.alloc();
    let text = file_of(&rt, alloc, PLAIN);
    for (digits, format) in FORMS {
        let file = file_of(&rt, alloc, digits);
        for failing in 1..32u32 {
            let mut reader = Unpacked::new(alloc, Failing::new(file.as_slice(), 1, failing));
            let read = read_all(&rt, alloc, &mut reader);
            assert!(rt; read.error == Some(ErrorKind::TimedOut));
            let begun = failing > 10;
            assert!(rt; reader.format().is_some() == begun);
            let read = read_on(&rt, &mut reader, read.bytes);
            if format == Format::Plain || !begun {
                assert!(rt; read.error.is_none() && read.bytes.as_slice() == text.as_slice());
            } else {
                assert!(rt; read.error == Some(ErrorKind::TimedOut));
            }
        }
    }
}

/// Without memory for a block or for what unpacks, a read fails and the next one gives all. Of bzip2 a block may want
/// memory later, which is told.
#[test]
fn a_refused_growth_loses_nothing(rt: HostRuntime) {
    let alloc = rt.alloc();
    let text = file_of(&rt, alloc, PLAIN);
    for (digits, _) in FORMS {
        let file = file_of(&rt, alloc, digits);
        let bytes = Vec::with_capacity(alloc, 100).expect(&rt, "memory for the bytes");
        let mut reader = Unpacked::new(alloc, file.as_slice());
        let mut read = read_on(&rt, &mut reader, bytes);
        if read.error.is_some() {
            assert!(rt; read.error == Some(ErrorKind::OutOfMemory));
            read = read_on(&rt, &mut reader, read.bytes);
        }
        match reader.fault() {
            None => assert!(rt; read.error.is_none() && read.bytes.as_slice() == text.as_slice()),
            Some(fault) => {
                assert!(rt; fault.effect() == Effect::NoMemory && fault.format() == Format::Bzip2);
                assert!(rt; read.error == Some(ErrorKind::OutOfMemory) && read.bytes.is_empty());
            }
        }
    }
}
