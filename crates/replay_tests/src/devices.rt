//! Devices that fail: at each read and at each write.

use crate::harness::{PLAN, full, replay_readers};
use adj_rib::RouteId;
use fixtures::{Dripping, THREE_PEERS, THREE_ROUTES, bytes_of};
use lane_deal::{ByTurns, NoGate, Plan};
use mrt_frame::{Counted, Logged, ReplayError, Sink};
use mrt_replay::run;
use peer_units::Selection;
use prefix_maps::Radix;
use replay_summary::{Summary, status};
use report_request::Request;
use std::alloc::Global;
use std::io::{self, ErrorKind, Write};
use std::marker::Sync;
use std::process::Abort;
use std::test::Fail;
use std::thread::Threads;

/// Takes so many bytes and no more: then it fails, or takes none.
#[derive(Drop)]
struct Full {
    room: usize,
    fails: bool,
    flushes: bool,
    written: Vec<u8>,
}

impl Write for Full {
    fn write(&mut self, bytes: &[u8]) -> io::Result<usize> {
        let count = bytes.len().min(self.room);
        if count == 0 && self.fails {
            return Err(io::Error::from(ErrorKind::BrokenPipe));
        }
        if self.written.extend_from_slice(&bytes[..count]).is_err() {
            return Err(io::Error::from(ErrorKind::OutOfMemory));
        }
        self.room -= count;
        Ok(count)
    }

    fn flush(&mut self) -> io::Result<()> {
        if self.flushes {
            Ok(())
        } else {
            Err(io::Error::from(ErrorKind::BrokenPipe))
        }
    }
}

/// Expects that a run over a reader that fails in place of its end fails with it, and writes nothing.
fn expect_read(
    rt: &(impl Threads + Abort + Sync),
    alloc: Global,
    rest: &[u8],
    kind: ErrorKind,
    workers: usize,
) -> Result<(), Fail> {
    let plan = Plan { workers, ..PLAN };
    let mut readers = [Counted::new(Dripping::new(rest, Some(kind)))];
    let outcome = replay_readers::<Radix<u32, RouteId>, _>(
        rt,
        alloc,
        &mut readers,
        &Request::Tables,
        &plan,
    )?;
    let k = rest.len();
    assert!(rt;
        outcome.failed_with(ReplayError::Read { file: 0 }),
        "a read that fails at {k}, {workers} workers"
    );
    Ok(())
}

/// The read of each byte, and of the end, fails in turn. An interrupted read is a failure like any other.
#[test]
fn every_failed_read_leaves_nothing_written(rt: HostRuntime) -> Result<(), Fail> {
    let alloc = rt.alloc();
    let bytes = bytes_of(alloc, THREE_PEERS)?;
    assert_eq!(rt; bytes.len(), 385);
    for (kind, workers) in [
        (ErrorKind::Other, 1),
        (ErrorKind::Other, 4),
        (ErrorKind::Interrupted, 1),
        (ErrorKind::Interrupted, 4),
    ] {
        for k in 0..=bytes.len() {
            expect_read(&rt, alloc, &bytes.as_slice()[..k], kind, workers)?;
        }
    }
    Ok(())
}

/// A replay reads a file whole: what the reads of a device return that comes byte by byte is the file.
#[test]
fn what_reads_returned_is_the_file(rt: HostRuntime) -> Result<(), Fail> {
    let alloc = rt.alloc();
    let bytes = bytes_of(alloc, THREE_PEERS)?;
    for workers in [1, 4] {
        let plan = Plan { workers, ..PLAN };
        let device = Counted::new(Dripping::new(bytes.as_slice(), None));
        let mut readers = [Logged::new(alloc, device)];
        let outcome = replay_readers::<Radix<u32, RouteId>, _>(
            &rt,
            alloc,
            &mut readers,
            &Request::Tables,
            &plan,
        )?;
        assert!(rt; outcome.result.is_ok(), "{workers} workers");
        assert!(rt; readers[0].log() == bytes.as_slice(), "{workers} workers");
    }
    Ok(())
}

/// What a run over one file in memory answers, to a writer.
fn run_into(
    rt: &(impl Threads + Abort + Sync),
    alloc: Global,
    bytes: &[u8],
    writer: Full,
) -> Result<(Result<Summary, ReplayError>, Vec<u8>), Fail> {
    let mut readers = [Counted::new(bytes)];
    let mut out = Counted::new(writer);
    let result = run::<_, Radix<u32, RouteId>, _, _, _, _, _>(
        rt,
        alloc,
        &mut readers,
        &Request::Tables,
        full(),
        Selection::all(alloc),
        &PLAN,
        &ByTurns,
        &NoGate,
        &mut out,
    );
    assert!(rt; out.is_flushed() == result.is_ok(), "the flush");
    let written = Vec::from_slice(alloc, out.device().written.as_slice())?;
    Ok((result, written))
}

fn is_write_error(outcome: &Result<Summary, ReplayError>) -> bool {
    match outcome {
        Err(error) => *error == ReplayError::Write,
        Ok(_) => false,
    }
}

/// Expects that a writer with room for so many bytes, which then fails or takes none, has this front of the report.
fn expect_front(
    rt: &(impl Threads + Abort + Sync),
    alloc: Global,
    bytes: &[u8],
    room: usize,
    fails: bool,
) -> Result<(), Fail> {
    let writer = Full {
        room,
        fails,
        flushes: true,
        written: Vec::new(alloc),
    };
    let (result, written) = run_into(rt, alloc, bytes, writer)?;
    let text = THREE_ROUTES.as_bytes();
    assert!(rt; room <= text.len());
    assert!(rt;
        is_write_error(&result) && status(&result) == 3,
        "a write that fails at {room}"
    );
    assert!(rt;
        written.as_slice() == &text[..room],
        "what was written before {room}"
    );
    Ok(())
}

#[test]
fn every_failed_write_leaves_the_front_before_it(rt: HostRuntime) -> Result<(), Fail> {
    let alloc = rt.alloc();
    let bytes = bytes_of(alloc, THREE_PEERS)?;
    for room in 0..THREE_ROUTES.len() {
        expect_front(&rt, alloc, bytes.as_slice(), room, true)?;
        expect_front(&rt, alloc, bytes.as_slice(), room, false)?;
    }
    Ok(())
}

#[test]
fn a_failed_flush_is_a_failed_write(rt: HostRuntime) -> Result<(), Fail> {
    let alloc = rt.alloc();
    let bytes = bytes_of(alloc, THREE_PEERS)?;
    for flushes in [false, true] {
        let writer = Full {
            room: 1000,
            fails: true,
            flushes,
            written: Vec::new(alloc),
        };
        let (result, written) = run_into(&rt, alloc, bytes.as_slice(), writer)?;
        assert!(rt;
            written.as_slice() == THREE_ROUTES.as_bytes(),
            "all is written"
        );
        assert!(rt; is_write_error(&result) != flushes && result.is_ok() == flushes);
    }
    Ok(())
}

#[test]
fn a_second_file_that_fails_at_once_is_named(rt: HostRuntime) -> Result<(), Fail> {
    let alloc = rt.alloc();
    let bytes = bytes_of(alloc, "announcement")?;
    let mut readers = [
        Counted::new(Dripping::new(bytes.as_slice(), None)),
        Counted::new(Dripping::new(&[], Some(ErrorKind::Other))),
    ];
    let outcome = replay_readers::<Radix<u32, RouteId>, _>(
        &rt,
        alloc,
        &mut readers,
        &Request::Tables,
        &PLAN,
    )?;
    assert!(rt; outcome.failed_with(ReplayError::Read { file: 1 }));
    Ok(())
}
