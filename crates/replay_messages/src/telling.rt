//! What the program reports on standard error. Lines after the first are indented by two spaces, and
//! say which file and why. A failure to write them doesn't change the status.

use bzip2_reader::{BlockFault, Cause};
use command_line::{FileName, Kind, Records};
use mrt_frame::ReplayError;
use packed_io::{Effect, Format, PackedCause, PackedFault};
use replay_io::{Counts, Device, Dump, FileCounts, Input, Output};
use replay_summary::Summary;
use report_request::Request;
use std::fmt::Display;
use std::io::{self, ErrorKind};
use std::time::Duration;

/// Says why what has this name couldn't be used, in the system's words.
fn tell_cause<N: Display + Drop>(rt: &HostRuntime, name: N, error: &io::Error) {
    if let Ok(text) = format!(in rt.alloc(); "{error}") {
        // The number after the system's words adds nothing.
        let words = text.as_str().split(" (os error ").next().unwrap_or("");
        let _ = eprintln!(rt; "  {name}: {words}");
    }
}

/// Reports that memory ran out, and during what.
pub fn tell_memory(rt: &HostRuntime, during: &str) {
    let _ = eprintln!(rt; "no memory\n  the system refused memory while {during}");
}

/// Reports that a file couldn't be opened.
pub fn tell_open(rt: &HostRuntime, number: usize, name: &str, error: &io::Error) {
    let _ = eprintln!(rt; "open failed: file {number}");
    tell_cause(rt, FileName(name), error);
}

/// Reports that the file of this number among those that an option names couldn't be opened or read.
pub fn tell_list(
    rt: &HostRuntime,
    what: &str,
    option: &str,
    number: usize,
    name: &str,
    error: &io::Error,
) {
    let _ = eprintln!(rt; "{what} failed: {option} {number}");
    tell_cause(rt, FileName(name), error);
}

/// Reports that standard output couldn't be written, unless its reader is gone, as `head` is after
/// some lines.
pub fn tell_write(rt: &HostRuntime, error: Option<io::Error>) {
    match error {
        Some(error) if error.kind() == ErrorKind::BrokenPipe => {}
        Some(error) => {
            let _ = eprintln!(rt; "write failed");
            tell_cause(rt, "standard output", &error);
        }
        None => {
            let _ = eprintln!(rt; "write failed\n  standard output: it takes no more bytes");
        }
    }
}

/// Returns the name of a form in which files are packed.
fn name_of(format: Format) -> &'static str {
    match format {
        Format::Plain => "plain",
        Format::Gzip => "gzip",
        Format::Bzip2 => "bzip2",
    }
}

/// Returns what begins at the offset of a fault, where that is the first byte of what is damaged and not that of the
/// damage: a part of bzip2's data is read whole.
fn begins_there(cause: PackedCause) -> &'static str {
    match cause {
        PackedCause::Bzip2(Cause::Block(BlockFault::NoBlock)) => "",
        PackedCause::Bzip2(Cause::Block(_)) => "; the block begins there",
        PackedCause::Bzip2(Cause::EarlyEnd) => "; what is cut off begins there",
        PackedCause::Bzip2(Cause::StreamChecksum) => "; the stream's end begins there",
        _ => "",
    }
}

/// Reports what is wrong with packed data, and where, in bytes of the compressed file.
fn tell_packed(rt: &HostRuntime, name: &str, fault: &PackedFault) {
    let shown = FileName(name);
    let format = name_of(fault.format());
    let offset = fault.offset;
    let words = fault.words();
    let part = begins_there(fault.cause);
    let _ = eprintln!(rt; "  {shown}: {format} data, offset {offset}: {words}{part}");
}

/// Reports where packed files ended early.
fn tell_ended(rt: &HostRuntime, inputs: &[Input<'_, '_>]) {
    for input in inputs {
        let dump = input.device();
        if let Some(fault) = dump.packed_fault() {
            tell_packed(rt, dump.name(), &fault);
        }
    }
}

/// Whether the data of a packed file ended early, so that the report is without what stood behind.
pub fn has_ended_early(inputs: &[Input<'_, '_>]) -> bool {
    for input in inputs {
        if input.device().packed_fault().is_some() {
            return true;
        }
    }
    false
}

/// Reports that a file couldn't be read, or that memory ran out if an allocation for it failed.
fn tell_read(rt: &HostRuntime, file: usize, inputs: &[Input<'_, '_>]) {
    let number = file.saturating_add(1);
    let dump = match inputs.get(file) {
        Some(input) => Some(input.device()),
        None => None,
    };
    let error = dump.and_then(|dump| dump.error());
    match (dump, error) {
        (Some(_), Some(error)) if error.kind() == ErrorKind::OutOfMemory => {
            tell_memory(rt, "the dumps were read");
        }
        (Some(dump), Some(error)) => {
            let _ = eprintln!(rt; "read failed: file {number}");
            match dump.packed_fault() {
                Some(fault) if fault.effect() == Effect::Failed => {
                    tell_packed(rt, dump.name(), &fault);
                }
                _ => tell_cause(rt, FileName(dump.name()), &error),
            }
        }
        _ => {
            let _ = eprintln!(rt; "read failed: file {number}");
        }
    }
}

/// Returns the command of a request.
fn command_of<A>(request: &Request<A>) -> &'static str {
    match request {
        Request::Tables => "tables",
        Request::Visibility => "visibility",
        Request::Origins => "origins",
        Request::Seen => "seen",
        Request::Churn { since: _ } => "churn",
        Request::Peers => "peers",
        Request::Match(_) => "match --address A",
        Request::History { since: _, same: _ } => "history",
        Request::Faults => "faults",
    }
}

/// Reports how to unpack a packed file for a command.
fn tell_unpacking(rt: &HostRuntime, command: &str, unpacker: &str, kind: Kind, name: &str) {
    let data = kind.name();
    let shown = FileName(name);
    let _ = if name == "-" {
        eprintln!(rt; "  {shown}: looks like {data}; try: {unpacker} FILE | bgp_replay {command} -")
    } else {
        eprintln!(rt;
            "  {shown}: looks like {data}; try: bgp_replay {command} <({unpacker} {shown})"
        )
    };
}

/// Reports, for each file that doesn't look like a dump, what it looks like.
fn tell_kinds<A>(rt: &HostRuntime, request: &Request<A>, inputs: &[Input<'_, '_>]) {
    for input in inputs {
        let dump = input.device();
        if let Some(kind) = dump.kind() {
            match kind.unpacker() {
                Some(unpacker) => {
                    tell_unpacking(rt, command_of(request), unpacker, kind, dump.name());
                }
                None => {
                    let shown = FileName(dump.name());
                    let data = kind.name();
                    let _ = eprintln!(rt; "  {shown}: looks like {data}, and not like an MRT dump");
                }
            }
        }
    }
}

/// Reports why the status isn't 0.
pub fn tell<A>(
    rt: &HostRuntime,
    outcome: &Result<Summary, ReplayError>,
    request: &Request<A>,
    inputs: &[Input<'_, '_>],
    out: &Output<'_>,
) {
    match outcome {
        Ok(summary) => {
            let damaged = summary.damaged;
            if damaged > 0 {
                let _ = eprintln!(rt; "damaged: {damaged}");
            }
            tell_ended(rt, inputs);
            if damaged > 0 || summary.units == 0 {
                tell_kinds(rt, request, inputs);
            }
        }
        Err(ReplayError::Read { file }) => tell_read(rt, *file, inputs),
        Err(ReplayError::Write) => tell_write(rt, out.device().error()),
        Err(ReplayError::Records) => {
            let _ = eprintln!(rt; "too many records");
        }
        Err(ReplayError::Memory) | Err(ReplayError::Spent) => {
            tell_memory(rt, "the dumps were replayed");
        }
    }
}

/// Returns how many bytes were read from all files.
fn all_bytes(inputs: &[Input<'_, '_>]) -> u64 {
    inputs.iter().fold(
        0u64,
        |sum, input| sum.saturating_add(input.device().bytes()),
    )
}

/// Reports a number, or `-` if there is none.
fn tell_or_none(rt: &HostRuntime, number: usize, key: &str, value: Option<u64>) {
    let _ = match value {
        Some(value) => eprintln!(rt; "file {number} {key}: {value}"),
        None => eprintln!(rt; "file {number} {key}: -"),
    };
}

/// Reports the records of a file, and those that aren't interpreted, by type and subtype.
fn tell_records(rt: &HostRuntime, number: usize, records: &Records) {
    let count = records.count();
    let aside = records.aside();
    let _ = eprintln!(rt; "file {number} records: {count}\nfile {number} aside: {aside}");
    let mut others = aside;
    for row in records.kinds() {
        let kind = row.kind;
        let count = row.count;
        others = others.saturating_sub(count);
        let _ = eprintln!(rt; "file {number} aside {kind}: {count}");
    }
    if others > 0 {
        let _ = eprintln!(rt; "file {number} aside others: {others}");
    }
    tell_or_none(rt, number, "first", records.first().map(u64::from));
    tell_or_none(rt, number, "last", records.last().map(u64::from));
}

/// Reports what was read from a file.
fn tell_file(rt: &HostRuntime, number: usize, dump: &Dump<'_, Device<'_>>) {
    let name = FileName(dump.name());
    let bytes = dump.bytes();
    let _ = eprintln!(rt; "file {number}: {name}\nfile {number} bytes: {bytes}");
    if let Some((format, packed_bytes)) = dump.packed() {
        let format = name_of(format);
        let _ = eprintln!(rt;
            "file {number} packed: {format}\nfile {number} packed bytes: {packed_bytes}"
        );
    }
    tell_or_none(rt, number, "unread", dump.unread());
    if let Some(records) = dump.records() {
        tell_records(rt, number, records);
    }
}

/// Reports what the replay counted. A line `damaged: N` is already there if there is damage.
fn tell_counts(rt: &HostRuntime, summary: &Summary) {
    let Summary {
        records,
        units,
        aside,
        damaged,
        rounds,
        peers,
        routes,
        ..
    } = *summary;
    let _ = eprintln!(rt; "records: {records}\nunits: {units}\naside: {aside}");
    if damaged == 0 {
        let _ = eprintln!(rt; "damaged: 0");
    }
    let _ = eprintln!(rt; "peers: {peers}\nroutes: {routes}\nrounds: {rounds}");
}

/// Returns the process's peak memory, in kibibytes, if the system has a file that reports it, as Linux
/// does.
fn peak_memory(rt: &HostRuntime) -> Option<u64> {
    let text = std::fs::read_to_string(rt, "/proc/self/status").ok()?;
    for line in text.as_str().lines() {
        if let Some(rest) = line.strip_prefix("VmHWM:") {
            let number = rest.trim().split(' ').next()?;
            return number.parse::<u64>().ok();
        }
    }
    None
}

/// Reports the units and faults of a file. They are known after a complete run.
fn tell_units(rt: &HostRuntime, number: usize, counts: &FileCounts) {
    let units = counts.units();
    let refused = counts.refused();
    let damaged = counts.damaged();
    let _ = eprintln!(rt;
        "file {number} units: {units}\nfile {number} refused: {refused}\nfile {number} damaged: {damaged}"
    );
}

/// Reports what was read, in lines of a key and a value. The key of a line about a file contains the file's
/// number.
pub fn tell_summary(
    rt: &HostRuntime,
    outcome: &Result<Summary, ReplayError>,
    inputs: &[Input<'_, '_>],
    counts: Option<&Counts>,
    workers: usize,
    elapsed: Option<Duration>,
) {
    for (i, input) in inputs.iter().enumerate() {
        let number = i.saturating_add(1);
        tell_file(rt, number, input.device());
        if let (Ok(_), Some(counts)) = (outcome, counts) {
            if let Some(counts) = counts.of(i) {
                tell_units(rt, number, counts);
            }
        }
    }
    let files = inputs.len();
    let bytes = all_bytes(inputs);
    let _ = eprintln!(rt; "files: {files}\nbytes: {bytes}");
    if let Ok(summary) = outcome {
        tell_counts(rt, summary);
    }
    let _ = eprintln!(rt; "workers: {workers}");
    if let Some(elapsed) = elapsed {
        let seconds = elapsed.as_secs();
        let millis = elapsed.subsec_millis();
        let _ = eprintln!(rt; "seconds: {seconds}.{millis:03}");
    }
    if let Some(peak) = peak_memory(rt) {
        let _ = eprintln!(rt; "peak_kib: {peak}");
    }
}
