//! Reports to writers that take little, fail, or take nothing more, made by one thread and by several.

use crate::tables::tables_of;
use adj_rib::RouteId;
use bgp_prefix::PrefixMap;
use mrt_frame::{Counted, Failures, ReplayError, Sink};
use prefix_maps::Radix;
use rib_report::{
    AddressForm, Layout, Tables, churn, faults, list_tables, matches, origins, peers, seen,
    table_rows, visibility, write_lines,
};
use std::alloc::Global;
use std::io::{self, ErrorKind, Write};
use std::process::Abort;
use std::test::Fail;
use std::thread::Threads;

/// Takes so many bytes a write, and so many in all: then it fails, or takes none. It can't be flushed.
#[derive(Drop)]
struct Narrow {
    most: usize,
    room: usize,
    fails: bool,
    writes: usize,
    longest: usize,
    written: Vec<u8>,
}

impl Narrow {
    fn new(alloc: Global, most: usize, room: usize, fails: bool) -> Counted<Narrow> {
        Counted::new(Narrow {
            most,
            room,
            fails,
            writes: 0,
            longest: 0,
            written: Vec::new(alloc),
        })
    }
}

impl Write for Narrow {
    fn write(&mut self, bytes: &[u8]) -> io::Result<usize> {
        self.writes = self.writes.saturating_add(1);
        self.longest = self.longest.max(bytes.len());
        let count = bytes.len().min(self.most).min(self.room);
        if count == 0 && self.fails {
            return Err(io::Error::from(ErrorKind::BrokenPipe));
        }
        if self.written.extend_from_slice(&bytes[..count]).is_err() {
            return Err(io::Error::from(ErrorKind::OutOfMemory));
        }
        self.room -= count;
        Ok(count)
    }

    fn flush(&mut self) -> io::Result<()> {
        Err(io::Error::from(ErrorKind::BrokenPipe))
    }
}

#[derive(Clone, Copy)]
enum Report {
    Tables,
    Rows,
    Visibility,
    Origins,
    Seen,
    Churn,
    Peers,
    Match,
    Faults,
}

const REPORTS: [Report; 9] = [
    Report::Tables,
    Report::Rows,
    Report::Visibility,
    Report::Origins,
    Report::Seen,
    Report::Churn,
    Report::Peers,
    Report::Match,
    Report::Faults,
];

/// Writes a report on tables, in so many threads.
fn write_report<M: PrefixMap<RouteId, Addr = u32> + Sync, T: Threads + Sync, W: Sink>(
    rt: &T,
    alloc: Global,
    threads: usize,
    out: &mut W,
    tables: &Tables<M>,
    report: Report,
) -> Result<(), ReplayError> {
    let layout = Layout::all(AddressForm::Full);
    match report {
        Report::Tables => list_tables(rt, alloc, threads, out, layout, tables),
        Report::Rows => write_lines(out, &layout, table_rows(alloc, tables)?.as_slice()),
        Report::Visibility => {
            let rows = visibility(rt, alloc, threads, tables)?;
            write_lines(out, &layout, rows.as_slice())
        }
        Report::Origins => {
            let rows = origins(rt, alloc, threads, tables)?;
            write_lines(out, &layout, rows.as_slice())
        }
        Report::Seen => {
            let rows = seen(rt, alloc, threads, tables)?;
            write_lines(out, &layout, rows.as_slice())
        }
        Report::Churn => write_lines(out, &layout, churn(alloc, tables)?.as_slice()),
        Report::Peers => write_lines(out, &layout, peers(alloc, tables)?.as_slice()),
        Report::Match => write_lines(out, &layout, matches(alloc, tables, 0)?.as_slice()),
        Report::Faults => write_lines(out, &layout, faults(alloc, tables)?.as_slice()),
    }
}

/// A writer holds of the report what it has room for. Where that isn't all, one write fails, and there is no other.
fn expect_front<T: Abort + Threads + Sync>(
    rt: &T,
    alloc: Global,
    threads: usize,
    tables: &Tables<Radix<u32, RouteId>>,
    report: Report,
    mut out: Counted<Narrow>,
    whole: &[u8],
) {
    let room = out.device().room;
    let (answer, failures) = if room < whole.len() {
        (Err(ReplayError::Write), 1)
    } else {
        (Ok(()), 0)
    };
    let answered = write_report(rt, alloc, threads, &mut out, tables, report);
    assert!(rt;
        answered == answer && out.failures() == failures,
        "room for {room}"
    );
    let front = &whole[..room.min(whole.len())];
    assert!(rt; out.device().written.as_slice() == front, "room for {room}");
}

/// Writers that have room for each number of bytes, up to the report's.
fn expect_fronts<T: Abort + Threads + Sync>(
    rt: &T,
    alloc: Global,
    tables: &Tables<Radix<u32, RouteId>>,
    report: Report,
) {
    let mut out = Counted::new(Vec::<u8>::new(alloc));
    assert!(rt; write_report(rt, alloc, 1, &mut out, tables, report).is_ok());
    let whole = out.device().as_slice();
    assert!(rt; !whole.is_empty());
    for room in 0..=whole.len() {
        for (most, fails) in [(7, true), (7, false), (1, true)] {
            let narrow = Narrow::new(alloc, most, room, fails);
            expect_front(rt, alloc, 1, tables, report, narrow, whole);
        }
    }
}

#[test]
fn each_report_stops_at_the_write_that_fails(rt: HostRuntime) -> Result<(), Fail> {
    let alloc = rt.alloc();
    let tables = tables_of(&rt, alloc, [3, 0, 2])?;
    for report in REPORTS {
        expect_fronts(&rt, alloc, &tables, report);
    }
    Ok(())
}

/// A text that passes the buffer's 65,536 bytes once. No write has more than 8,192 bytes, and at most two have fewer:
/// the last one of each buffer.
#[test]
fn a_report_is_written_8_kib_at_a_time(rt: HostRuntime) -> Result<(), Fail> {
    let alloc = rt.alloc();
    let tables = tables_of(&rt, alloc, [6_000, 0, 0])?;
    let report = Report::Visibility;
    let mut out = Narrow::new(alloc, usize::MAX, usize::MAX, true);
    assert!(rt; write_report(&rt, alloc, 1, &mut out, &tables, report).is_ok());
    let narrow = out.device();
    let whole = narrow.written.as_slice();
    assert!(rt; whole.len() > 65_537 && whole.len() < 131_072);
    assert!(rt; narrow.longest == 8_192 && narrow.writes <= whole.len() / 8_192 + 2);
    for room in [0, 1, 65_535, 65_536, 65_537, whole.len() - 1] {
        let narrow = Narrow::new(alloc, usize::MAX, room, false);
        expect_front(&rt, alloc, 1, &tables, report, narrow, whole);
    }
    Ok(())
}

/// Tables that are large enough for several threads to make their lines, in more than 3,000,000 bytes.
#[test]
fn threads_make_the_lines_in_order(rt: HostRuntime) -> Result<(), Fail> {
    let alloc = rt.alloc();
    let tables = tables_of(&rt, alloc, [17_000, 3, 16_400])?;
    let mut out = Counted::new(Vec::<u8>::new(alloc));
    assert!(rt; write_report(&rt, alloc, 1, &mut out, &tables, Report::Rows).is_ok());
    let whole = out.device().as_slice();
    assert!(rt; whole.len() > 3_000_000);
    for (threads, room) in [
        (1, usize::MAX),
        (2, usize::MAX),
        (3, usize::MAX),
        (4, 0),
        (4, 65_537),
        (4, 2_999_999),
    ] {
        let narrow = Narrow::new(alloc, usize::MAX, room, false);
        expect_front(&rt, alloc, threads, &tables, Report::Tables, narrow, whole);
    }
    Ok(())
}
