//! `bgp_replay`: the replay of MRT route-collector dumps into one table per peer, and reports on it.
//!
//! The program reads arguments, opens files, calls `run` and reports the outcome. All that it can leave to a library is
//! in one, since a function of a program can't be called by a test.
//!
//! - **A run replays the routes of one family**, whose type of addresses is a parameter of all that has a job: the two
//!   are told apart where the arguments were read (`Asked`), and the map of routes is chosen with it.
//! - **Packed files are unpacked by threads beside the replay** (`PackedFiles`), where there may be more than one and a
//!   regular file is packed; else no such thread is started. Whether a file is packed is told when it is opened.
//! - **The first line on standard error is fixed** for each status, so that scripts can read it. Further lines begin
//!   with two spaces and say which file and why, in the system's words. If the reader of a pipe is gone, nothing is
//!   reported: `head` needs no message.
//! - **What a file looks like is reported only if there is damage or no unit.**
//! - **An argument that isn't UTF-8** is bad, since the kit's arguments and paths are text. What is reported says which
//!   one it is, and what helps.
//! - **`--version` names no commit**: there are no build scripts, and no `env!` that reads the build's environment.
//! - **The plan**: batches of 65,536 units for each worker and 1,048,576 at most, a million looks, and one look for a
//!   single worker, which then shares the dealer's thread. A worker that leaves a round ends it for all, since nobody
//!   empties its ring; with a million looks, rounds end by their batch even where the input is slow.
//! - **`--summary` takes its peak of memory** from `/proc/self/status`. Nothing is proved of it but that it is safe.
#![tactic(auto)]

ghost use Rattle.std.specs.Prelude.{◌≡◌, ◌≤◌, ◌*◌, map, min, IfOk, IsTrue};
ghost use Rattle.bgp_update.specs.Families.{by_errors, rules_of};
ghost use Rattle.mrt_frame.specs.Devices.{counted_device, counted_failures, counted_flush};
ghost use Rattle.mrt_replay.specs.Headline.{IsPromised};
ghost use Rattle.report_request.specs.Requests.{request_of};
ghost use Rattle.replay_io.specs.Devices.{dump_remaining, report_contents};
ghost use Rattle.lane_deal.specs.Plans.{IsPlan};

use adj_rib::RouteId;
use bgp_prefix::{Ipv6, Memory, Prefix};
use bgp_update::Unicast;
use chunked_map::ChunkedMap;
use command_line::{
    AddressFamily, AddressText, Asked, Job, Usage, hint_of_address, read_words,
    standard_input_fault, wrapped,
};
use lane_deal::{ByTurns, Plan};
use mrt_frame::{Counted, ReplayError};
use mrt_replay::run;
use packed_io::PackedFiles;
use peer_units::{ChosenPrefixes, PrefixChoice, Reach, Selection};
use replay_io::{
    Board, Counter, Counts, Device, Dump, Files, Input, Naps, OpenError, Output, Report, Watched,
    header_of, inputs_of, packed_files_of, terminal_width,
};
use replay_messages::{
    NoteContext, has_ended_early, listed_dumps, listed_prefixes, tell, tell_memory, tell_notes,
    tell_open, tell_summary, tell_write,
};
use replay_summary::{Summary, status};
use report_request::{Format, Request};
use rib_report::WrittenAddress;
use std::alloc::{AllocError, Global};
use std::env::{Env, FillError};
use std::io::{ErrorKind, Read, Write};
use std::marker::{Send, Sync};
use std::process::ExitCode;
use std::thread::{Threads, available_parallelism, join};
use std::time::{Duration, Instant};

/// A family whose routes are replayed by threads: its addresses are read and written.
trait Replayed: AddressText + WrittenAddress + Send + Sync {}

impl Replayed for u32 {}

impl Replayed for Ipv6 {}

/// How many units are dealt in a round for each worker. Each round starts its threads anew, and at its end the dealer
/// waits for the slowest worker. Routes are counted between rounds.
const BATCH_EACH: u64 = 65_536;

/// The maximum number of units dealt in a round.
const MOST_BATCH: u64 = 1_048_576;

/// Empty looks at its ring after which a worker ends its round. The gate sleeps between them, so they take more than
/// a minute: only a round whose input is very slow takes longer. A worker that leaves ends the round for all, since
/// nobody empties its ring.
const LOOKS: u32 = 1_000_000;

/// A single worker runs in the calling thread: it looks once more at its ring when the round's dealing is over.
const LOOKS_ALONE: u32 = 1;

/// The maximum number of whole records cut.
const MAX_RECORDS: u64 = 1 << 47;

/// The exit status for bad arguments.
const REFUSED: u8 = 2;

/// The exit status if the dumps are damaged.
const DAMAGED: u8 = 1;

/// The exit status if a file, the writer or memory failed.
const FAILED: u8 = 3;

/// How many arguments are searched for one that isn't text.
const MOST_WORDS: usize = 100_000;

/// The maximum number of workers.
const MOST_WORKERS: usize = 64;

/// How many routes are few among all: about those of an IPv4 prefix of length 6, or of an IPv6 prefix of length 18.
const MOST_NARROW: u64 = 1 << 14;

/// Returns the length of a prefix that has about one route in a whole table of the family. Of IPv4 that is a table's
/// mean: it has a million routes to nearly all addresses. Of IPv6 it is the least block that the registries allocate.
fn length_each(family: AddressFamily) -> u8
    ensures { result ≤ 32 }
{
    match family {
        AddressFamily::Ipv4 => 20,
        AddressFamily::Ipv6 => 32,
    }
}

/// Returns about how many routes of a whole table a choice takes.
fn routes_of<F: AddressText>(choice: &PrefixChoice<Prefix<F>>) -> u64 {
    match choice.reach {
        Reach::Inside => {
            1u64 << length_each(F::FAMILY).saturating_sub(choice.prefix.len()) as u32
        }
        Reach::Exact | Reach::Around => 1,
    }
}

/// Whether few routes are chosen. Then nearly all the time goes into reading, and threads only cost.
fn is_narrow<F: AddressText>(choices: &[PrefixChoice<Prefix<F>>]) -> bool {
    let mut routes = 0u64;
    for choice in choices {
        routes = routes.saturating_add(routes_of(choice));
    }
    !choices.is_empty() && routes <= MOST_NARROW
}

/// Whether what happened is listed, or a part of it counted, which one thread does.
fn is_history<F: Unicast>(request: &Request<F>, choices: &[PrefixChoice<Prefix<F>>]) -> bool {
    match request {
        Request::History { since: _, same: _ } => true,
        Request::Churn { since } => since.is_some() || !choices.is_empty(),
        _ => false,
    }
}

/// Returns as many workers as the arguments ask for, otherwise one if few prefixes are chosen or what happened is
/// listed or a part of it counted, else one per processor; if the system doesn't report how many there are, as many as
/// the job has.
fn workers_of<F: AddressText>(threads: &impl Threads, job: &Job<F>) -> usize
    ensures least { 1 ≤ result }
    ensures most { result ≤ MOST_WORKERS }
    ensures asked { IsTrue job.now.has_workers → result ≡ job.now.workers }
{
    if job.has_workers {
        return job.workers;
    }
    if is_narrow(&job.prefixes) || is_history(&job.request, &job.prefixes) {
        return 1;
    }
    most_threads(threads, job)
}

/// Returns as many threads as the arguments ask for, else one per processor; if the system doesn't report how many
/// there are, as many as the job has.
fn most_threads<F: Unicast>(threads: &impl Threads, job: &Job<F>) -> usize
    ensures least { 1 ≤ result }
    ensures most { result ≤ MOST_WORKERS }
    ensures asked { IsTrue job.now.has_workers → result ≡ job.now.workers }
{
    if job.has_workers {
        return job.workers;
    }
    match available_parallelism(threads) {
        Ok(count) => count.get().min(MOST_WORKERS),
        Err(_) => job.workers,
    }
}

/// Returns which units a job asks for.
fn selection_of<F: Unicast>(alloc: Global, job: &Job<F>) -> Result<Selection<F>, Memory>
    ensures { IfOk result (λ selection. selection ≡ record {
      until = job.now.until;
      prefixes = job.now.prefixes.items;
      peers = job.now.peers.items;
      share = job.now.share;
      states = job.now.states;
      state_peers = job.now.state_peers;
      ribs = job.now.ribs;
      table_dumps = job.now.table_dumps;
      rules = by_errors job.now.errors (rules_of F.family job.now.layout.attributes);
      routes = job.now.routes;
    }) }
{
    let choices = Vec::from_slice(alloc, &job.prefixes)?;
    let prefixes = ChosenPrefixes::new(alloc, choices)?;
    let peers = Vec::from_slice(alloc, &job.peers)?;
    let routes = job.routes.copied(alloc)?;
    Ok(
        Selection::all(alloc)
            .up_to(job.until)
            .of_prefixes(prefixes)
            .of_peers(peers)
            .of_share(job.share)
            .by_states(job.states)
            .by_state_peers(job.state_peers)
            .by_ribs(job.ribs)
            .by_table_dumps(job.table_dumps)
            .keeping(job.layout.attributes)
            .by_errors(job.errors)
            .of_routes(routes),
    )
}

/// Returns the empty looks after which each of this many workers ends its round.
fn looks_of(workers: usize) -> u32 {
    if workers < 2 { LOOKS_ALONE } else { LOOKS }
}

/// Returns the maximum number of units that are dealt to this many workers in a round.
fn batch_of(workers: usize) -> u64
    requires { workers ≤ MOST_WORKERS }
    ensures { result ≡ min (BATCH_EACH * workers) MOST_BATCH }
{
    (BATCH_EACH * workers as u64).min(MOST_BATCH)
}

fn plan_of<F: Unicast>(job: &Job<F>, workers: usize) -> Plan
    requires least { 1 ≤ workers }
    requires most { workers ≤ MOST_WORKERS }
    ensures plan { IsPlan result }
    ensures workers { result.workers ≡ workers }
    ensures ring { result.ring ≡ job.now.ring }
{
    Plan {
        workers,
        ring: job.ring,
        batch: batch_of(workers),
        looks: looks_of(workers),
        max_records: MAX_RECORDS,
    }
}

/// Reports that memory ran out, and returns the status.
fn without_memory(rt: &HostRuntime, during: &str) -> u8 {
    tell_memory(rt, during);
    FAILED
}

/// Prints a help, in lines of the terminal's width, and returns the status.
fn print_help(rt: &HostRuntime, text: &str) -> u8 {
    let Ok(lines) = wrapped(rt.alloc(), text, terminal_width(rt)) else {
        return without_memory(rt, "the words were read");
    };
    match print!(rt; "{lines}") {
        Ok(()) => 0,
        Err(error) => {
            tell_write(rt, Some(error));
            FAILED
        }
    }
}

/// Prints what the arguments led to instead of a job, and returns the status.
fn explain(rt: &HostRuntime, usage: &Usage) -> u8 {
    match usage {
        Usage::Help(text) => print_help(rt, text.as_str()),
        Usage::Words(text) => {
            let _ = eprint!(rt; "{text}");
            REFUSED
        }
        Usage::Address(family, text) => {
            let _ = eprintln!(rt; "bad address: {text}");
            if let Ok(hint) = hint_of_address(rt.alloc(), *family, text.as_str()) {
                let _ = eprint!(rt; "{hint}");
            }
            REFUSED
        }
        Usage::Memory => without_memory(rt, "the words were read"),
    }
}

/// Reports which arguments aren't text, and returns the status.
fn explain_bytes(rt: &HostRuntime) -> u8 {
    let _ = eprintln!(rt; "error: an argument is not UTF-8 text");
    let mut buf = [0; 4096];
    for i in 1..MOST_WORDS {
        match rt.arg(i, &mut buf) {
            Ok(count) => explain_word(rt, i, &buf[..count]),
            Err(FillError::TooLong) => {}
            Err(FillError::NotPresent) => break,
        }
    }
    REFUSED
}

/// Reports how a file whose name isn't text can be given.
fn explain_word(rt: &HostRuntime, number: usize, word: &[u8]) {
    if str::from_utf8(word).is_err() {
        let shown = word.escape_ascii();
        let _ = eprintln!(rt;
            "  argument {number}: {shown}; give such a file by a symbolic link with another name, or as <(cat FILE)"
        );
    }
}

/// Returns the arguments after the program's name, or the status to exit with.
fn given_words(rt: &HostRuntime) -> Result<Vec<String>, u8> {
    match std::env::args(rt) {
        Ok(args) => match args.skip(1).collect::<Vec<String>>(rt.alloc()) {
            Ok(words) => Ok(words),
            Err(_) => Err(without_memory(rt, "the words were read")),
        },
        Err(error) if error.kind() == ErrorKind::InvalidData => Err(explain_bytes(rt)),
        Err(_) => Err(without_memory(rt, "the words were read")),
    }
}

/// Adds what the files that the arguments name list, or returns the status to exit with.
fn add_listed<F: AddressText>(rt: &HostRuntime, job: &mut Job<F>) -> Result<(), u8> {
    let mut prefixes = listed_prefixes::<F>(rt, job.lists.as_slice())?;
    if job.prefixes.append(&mut prefixes).is_err() {
        return Err(without_memory(rt, "the prefixes were read"));
    }
    let mut dumps = listed_dumps(rt, job.file_lists.as_slice())?;
    if job.files.append(&mut dumps).is_err() {
        return Err(without_memory(rt, "the names of files were read"));
    }
    match standard_input_fault(&job.lists, &job.file_lists, &job.files) {
        Some(text) => {
            let _ = eprint!(rt; "{text}");
            Err(REFUSED)
        }
        None => Ok(()),
    }
}

/// Returns the job that the command line asks for, or the status to exit with.
fn given_job(rt: &HostRuntime) -> Result<Asked, u8> {
    let words = given_words(rt)?;
    match read_words(rt.alloc(), words.as_slice()) {
        Ok(asked) => Ok(asked),
        Err(usage) => Err(explain(rt, &usage)),
    }
}

/// Returns the files, opened, or the status to exit with.
fn opened(rt: &HostRuntime, names: &[String], asks_format: bool) -> Result<Files, u8> {
    match Files::open(rt, names, asks_format) {
        Ok(files) => Ok(files),
        Err(OpenError::File(number, error)) => {
            let name = names.get(number.saturating_sub(1));
            tell_open(rt, number, name.map_or("", |name| name.as_str()), &error);
            Err(FAILED)
        }
        Err(OpenError::Memory) => Err(without_memory(rt, "the files were opened")),
    }
}

/// Returns how long ago a moment was, if the clock reports it.
fn since(rt: &HostRuntime, start: Option<Instant>) -> Option<Duration> {
    start?.elapsed(rt).ok()
}

/// Returns the board that shows the progress, if that is asked for and the clock reports the time.
fn board_of<F: Unicast>(rt: &HostRuntime, job: &Job<F>, start: Option<Instant>) -> Option<Board> {
    match start {
        Some(start) if job.progress => Some(Board::new(rt, job.files.len(), start)),
        _ => None,
    }
}

/// Returns the counts of the dumps, if the summary is asked for, or the status to exit with.
fn counts_of<F: Unicast>(rt: &HostRuntime, job: &Job<F>) -> Result<Option<Counts>, u8> {
    if !job.summary {
        return Ok(None);
    }
    match Counts::new(rt.alloc(), job.files.len()) {
        Ok(counts) => Ok(Some(counts)),
        Err(_) => Err(without_memory(rt, "the files were opened")),
    }
}

/// What a replay is given beside its dumps.
#[derive(Drop)]
struct Given<'a, F: Unicast> {
    job: &'a Job<F>,
    plan: Plan,
    watched: Watched<'a>,
    ghost planned: { IsPlan plan },
}

/// Replays dumps.
fn replay<F: Replayed, R: Threads + Sync, D: Read + Drop + Send, W: Write>(
    rt: &HostRuntime,
    threads: &R,
    given: &Given<'_, F>,
    selection: Selection<F>,
    inputs: &mut [Counted<Dump<'_, D>>],
    out: &mut Counted<Report<'_, W>>,
) -> Result<Summary, ReplayError>
    ensures promised { IsPromised (record {
      request = request_of F.bits given.now.job.now.request;
      layout = given.now.job.now.layout;
      selection = selection;
      plan = given.now.plan;
      told = map (λ input. dump_remaining D.remaining (counted_device input)) inputs.old;
      held = report_contents W.contents (counted_device out.old);
      held_after = report_contents W.contents (counted_device out.new);
      readers = map counted_failures inputs.old;
      readers_after = map counted_failures inputs.new;
      writer = counted_failures out.old;
      writer_after = counted_failures out.new;
      flushed_after = counted_flush out.new;
      result = result;
    }) }
{
    run::<F, ChunkedMap<F, RouteId>, _, _, _, _, _>(
        threads,
        rt.alloc(),
        inputs,
        &given.job.request,
        given.job.layout,
        selection,
        &given.plan,
        &ByTurns,
        &Counter {
            rt: *rt,
            board: given.watched.board,
            counts: given.watched.counts,
        },
        out,
    )
}

/// Replays dumps, while other threads unpack packed ones.
fn replay_ahead<F: Replayed, R: Threads + Sync>(
    rt: &HostRuntime,
    threads: &R,
    given: &Given<'_, F>,
    selection: Selection<F>,
    packed: &PackedFiles<Device<'_>>,
    inputs: &mut [Input<'_, '_>],
    out: &mut Output<'_>,
) -> Result<Summary, ReplayError> {
    if packed.is_empty() {
        return replay(rt, threads, given, selection, inputs, out);
    }
    let naps = Naps::new(rt, given.watched.files);
    let (_, outcome) = join(
        threads,
        || packed.unpack(threads, &naps),
        || {
            let outcome = replay(rt, threads, given, selection, inputs, out);
            packed.end();
            outcome
        },
    );
    outcome
}

/// Returns what notes depend on of what a job asks for.
fn note_context_of<F: Replayed>(job: &Job<F>) -> NoteContext {
    NoteContext {
        family: F::FAMILY,
        ribs: job.ribs,
        state_peers: job.state_peers,
        of_prefixes: !job.prefixes.is_empty(),
        of_share: job.share.is_some(),
        has_since: match &job.request {
            Request::Churn { since } | Request::History { since, same: _ } => since.is_some(),
            _ => false,
        },
    }
}

/// Returns the line of the columns' names, if the job asks for it and its lines are text.
fn header_of_job<F: Unicast>(alloc: Global, job: &Job<F>) -> Result<String, AllocError> {
    match job.layout.format {
        Format::Text if job.header => header_of(alloc, &job.request, job.layout.attributes),
        _ => Ok(String::new(alloc)),
    }
}

/// Replays the files of a job with threads, and returns the status.
fn replay_files<F: Replayed>(
    rt: &HostRuntime,
    threads: &(impl Threads + Sync),
    job: &Job<F>,
    watched: Watched<'_>,
    start: Option<Instant>,
) -> u8 {
    let names = job.files.as_slice();
    let threads_ahead = most_threads(threads, job);
    let Ok((packed, pieces)) = packed_files_of(rt, names, watched.files, threads_ahead) else {
        return without_memory(rt, "the files were opened");
    };
    let Ok(mut inputs) = inputs_of(rt, names, watched.files, &packed, pieces, watched) else {
        return without_memory(rt, "the files were opened");
    };
    let Ok(selection) = selection_of(rt.alloc(), job) else {
        return without_memory(rt, "the words were read");
    };
    let workers = workers_of(threads, job);
    let given = Given {
        job,
        plan: plan_of(job, workers),
        watched,
    };
    let Ok(header) = header_of_job(rt.alloc(), job) else {
        return without_memory(rt, "the words were read");
    };
    let mut out = Counted::new(Report::new(rt.stdout(), header.as_str(), watched.board));
    let outcome = replay_ahead(
        rt,
        threads,
        &given,
        selection,
        &packed,
        inputs.as_mut_slice(),
        &mut out,
    );
    if let Some(board) = watched.board {
        board.clear();
    }
    tell(rt, &outcome, &job.request, inputs.as_slice(), &out);
    if let (Ok(summary), false) = (&outcome, job.quiet) {
        tell_notes(rt, summary, note_context_of(job), inputs.as_slice());
    }
    if job.summary {
        let elapsed = since(rt, start);
        tell_summary(
            rt,
            &outcome,
            inputs.as_slice(),
            watched.counts,
            workers,
            elapsed,
        );
    }
    match status(&outcome) {
        0 if has_ended_early(inputs.as_slice()) => DAMAGED,
        code => code,
    }
}

/// Replays the dumps of a job with threads, and returns the status.
fn replay_job<F: Replayed>(rt: &HostRuntime, threads: &(impl Threads + Sync), job: &Job<F>) -> u8 {
    let start = Instant::now(rt).ok();
    let board = board_of(rt, job, start);
    let counts = match counts_of(rt, job) {
        Ok(counts) => counts,
        Err(code) => return code,
    };
    let asks_format = most_threads(threads, job) > 1;
    let files = match opened(rt, job.files.as_slice(), asks_format) {
        Ok(files) => files,
        Err(code) => return code,
    };
    let watched = Watched {
        family: F::FAMILY,
        table_dumps: job.table_dumps,
        files: &files,
        counts: counts.as_ref(),
        board: board.as_ref(),
    };
    replay_files(rt, threads, job, watched, start)
}

/// Replays the dumps of a job and those that its lists name, and returns the status.
fn replay_listed<F: Replayed>(
    rt: &HostRuntime,
    threads: &(impl Threads + Sync),
    mut job: Job<F>,
) -> u8 {
    match add_listed(rt, &mut job) {
        Ok(()) => replay_job(rt, threads, &job),
        Err(code) => code,
    }
}

fn main(rt: HostRuntime) -> ExitCode {
    let code = match given_job(&rt) {
        Ok(Asked::Ipv4(job)) => replay_listed(&rt, &rt, job),
        Ok(Asked::Ipv6(job)) => replay_listed(&rt, &rt, job),
        Err(code) => code,
    };
    ExitCode::from(code)
}
