//! Reading a file to its end.

use gzip_reader::{Fault, Flaw, Gunzip};
use mrt_frame::{Failures, Source};
use std::alloc::Global;
use std::process::Abort;

/// What was read of a file.
#[derive(Drop)]
pub struct Outcome {
    pub bytes: Vec<u8>,
    pub fault: Option<Fault>,
    pub failures: u64,
}

impl Outcome {
    pub fn flaw(&self) -> Option<Flaw> {
        self.fault.map(|fault| fault.flaw)
    }
}

/// Reads until the end or a failure, this many bytes at a time, and once more: it has to stay so.
pub fn read_all<R: Source>(
    rt: &impl Abort,
    alloc: Global,
    reader: &mut Gunzip<R>,
    size: usize,
) -> Outcome {
    let mut bytes = Vec::new(alloc);
    let mut block = vec![in alloc; 0u8; size].expect(rt, "memory for a block");
    for _ in 0..1_000_000u32 {
        match reader.read_some(block.as_mut_slice()) {
            Ok(count) if 0 < count && count <= block.len() => {
                bytes
                    .extend_from_slice(&block.as_slice()[..count])
                    .expect(rt, "memory for the bytes");
            }
            _ => break,
        }
    }
    let failures = reader.failures();
    let fault = reader.fault();
    let again = reader.read_some(block.as_mut_slice());
    if failures == 0 {
        assert!(rt; again == Ok(0) && reader.failures() == 0);
    } else {
        assert!(rt; again.is_err() && failures == 1 && reader.failures() == 2);
    }
    assert!(rt; reader.fault() == fault);
    assert!(rt; failures == fault.map_or(0, |fault| u64::from(!fault.flaw.ends_the_data())));
    Outcome {
        bytes,
        fault,
        failures,
    }
}

/// Reads a file that stands in memory.
pub fn read_file(rt: &impl Abort, alloc: Global, file: &[u8], size: usize) -> Outcome {
    let device = mrt_frame::Counted::new(file);
    let mut reader = Gunzip::new(alloc, device).expect(rt, "memory for a reader");
    read_all(rt, alloc, &mut reader, size)
}
