//! The replay of dumps into a report.

ghost use Rattle.std.specs.Prelude.{◌≡◌, ◌⊎◌, Err, IfErr, None, OnOk, Some, map};
ghost use Rattle.std.specs.Io.KnownBytes.{Appends};
ghost use Rattle.mrt_frame.specs.Devices.{HasFailed};
ghost use Rattle.mrt_frame.specs.Writes.{WritesFront};
ghost use Rattle.mrt_frame.specs.declared.error.ReplayError.TheVariants as errors;
ghost use Rattle.lane_deal.specs.Plans.{IsPlan};
ghost use Rattle.mrt_replay.specs.Headline.{IsPromised, run_on};
ghost use Rattle.mrt_replay.specs.Reports.{counting_of, lines_of, listed_by, listing_of, told_lines};
ghost use Rattle.peer_units.specs.Choices.{choices_of};
ghost use Rattle.report_request.specs.Requests.{request_of};

use crate::replayed::replay;
use adj_rib::RouteId;
use bgp_prefix::{Family, PrefixMap};
use bgp_update::Unicast;
use history_replay::{Told, count_faults, list_history};
use lane_deal::{Dealing, Gate, Plan};
use mrt_frame::{ReplayError, Sink, Source};
use peer_tables::{Listed, Listing, Watched};
use peer_units::{Chosen, Damage, Selection};
use replay_summary::Summary;
use report_request::{LayoutOf, Request};
use rib_report::{
    Tables, WrittenAddress, churn, faults, list_tables, matches, origins, peers, seen, visibility,
    watched_churn, write_lines,
};
use std::alloc::Global;
use std::marker::Sync;
use std::mem;
use std::thread::Threads;

/// Replays the files in order and writes the report on them, and then flushes the writer once.
///
/// Nothing is written before the last record has been read and the report's rows have been made, so `Read`,
/// `Memory` and `Records` leave nothing written; `Write` leaves a leading part of the report. Workers, ring,
/// batch and dealing don't affect what is written.
pub fn run<F, M, T, R, W, D, G>(
    rt: &T,
    alloc: Global,
    files: &mut [R],
    request: &Request<F>,
    layout: LayoutOf<F>,
    selection: Selection<F>,
    plan: &Plan,
    dealing: &D,
    gate: &G,
    out: &mut W,
) -> Result<Summary, ReplayError>
where
    F: WrittenAddress + Send + Sync,
    M: PrefixMap<RouteId, Addr = F> + Send + Sync + Drop,
    T: Threads + Sync,
    R: Source + Send,
    W: Sink,
    D: Dealing + Sync,
    G: Gate + Sync,
    requires { IsPlan plan.now }
    // A run that completes wrote the report on the selected units of the files' bytes, byte for byte, counted them,
    // flushed the writer after that, and met no failure. An error has its cause, and leaves nothing written, or a
    // leading part of the report. With sound devices and records within the limit it completes, unless it runs out of
    // memory.
    ensures promised { IsPromised (record {
      request = request_of F.bits request.now;
      layout = layout;
      selection = selection;
      plan = plan.now;
      told = map R.remaining files.old;
      held = W.contents out.old;
      held_after = W.contents out.new;
      readers = map R.failure_count files.old;
      readers_after = map R.failure_count files.new;
      writer = W.failure_count out.old;
      writer_after = W.failure_count out.new;
      flushed_after = W.is_flushed out.new;
      result = result;
    }) }
    // Any error except the writer's leaves it untouched.
    ensures untouched { IfErr result (λ e. (e ≡ errors.Write → ⊥) → out.new ≡ out.old) }
{
    match listing_of(request, selection.chosen()) {
        Some(listing) => run_history::<F, M, R, W, G>(
            alloc, files, request, layout, listing, selection, plan, gate, out,
        ),
        None => run_on_tables::<F, M, T, R, W, D, G>(
            rt, alloc, plan, dealing, gate, files, selection, request, layout, out,
        ),
    }
}

/// Returns from when on what happened is counted, if a second, prefixes or routes are named.
fn counting_of<F: Family>(since: Option<u64>, chosen: &Chosen<F>) -> Option<Listing>
    ensures { result ≡ counting_of since chosen.now }
{
    if since.is_some() || !chosen.is_open() {
        return Some(Listing {
            since,
            listed: Listed::Nothing,
        });
    }
    None
}

/// Returns what a history lists: announcements of the route that was there only if they are asked for.
fn listed_by(same: bool) -> Listed
    ensures { result ≡ listed_by same }
{
    if same { Listed::All } else { Listed::Changes }
}

/// Returns which of the things that happened are asked for, if a history is, or counts of a part of them.
fn listing_of<F: Family>(request: &Request<F>, chosen: &Chosen<F>) -> Option<Listing>
    ensures { result ≡ listing_of (request_of F.bits request.now) chosen.now }
{
    match request {
        Request::Churn { since } => counting_of(*since, chosen),
        Request::History { since, same } => Some(Listing {
            since: *since,
            listed: listed_by(*same),
        }),
        Request::Tables => None,
        Request::Visibility => None,
        Request::Origins => None,
        Request::Seen => None,
        Request::Peers => None,
        Request::Match(_) => None,
        Request::Faults => None,
    }
}

/// Replays the files into tables, by workers in lanes, and writes the report on them.
fn run_on_tables<
    F: WrittenAddress + Send + Sync,
    M: PrefixMap<RouteId, Addr = F> + Send + Sync + Drop,
    T: Threads + Sync,
    R: Source + Send,
    W: Sink,
    D: Dealing + Sync,
    G: Gate + Sync,
>(
    rt: &T,
    alloc: Global,
    plan: &Plan,
    dealing: &D,
    gate: &G,
    files: &mut [R],
    selection: Selection<F>,
    request: &Request<F>,
    layout: LayoutOf<F>,
    out: &mut W,
) -> Result<Summary, ReplayError>
    requires plan { IsPlan plan.now }
    requires tables { listing_of (request_of F.bits request.now) (choices_of selection) ≡ None }
    ensures promised { IsPromised (run_on R.remaining R.failure_count W.contents W.failure_count W.is_flushed
        (request_of F.bits request.now) layout selection plan.now files.old files.new out.old out.new result) }
    ensures untouched { IfErr result (λ e. (e ≡ errors.Write → ⊥) → out.new ≡ out.old) }
{
    let replayed = match replay::<F, M, T, R, D, G>(
        rt, alloc, files, selection, plan, dealing, gate,
    ) {
        Ok(replayed) => replayed,
        Err(error) => return Err(error),
    };
    let tables = &replayed.tables;
    if let Err(error) = write_report(rt, alloc, plan.workers, request, layout, tables, out) {
        return Err(error);
    }
    if out.flush_all().is_err() {
        return Err(ReplayError::Write);
    }
    tell_faults(gate, &replayed.tables);
    let summary = Summary {
        records: replayed.records,
        units: replayed.units,
        aside: replayed.aside,
        damaged: replayed.tables.damaged(),
        rounds: replayed.rounds,
        peers: replayed.tables.peers(),
        routes: replayed.tables.routes(),
        remarks: replayed.remarks,
        peer_remarks: replayed.peer_remarks,
    };
    // Tables aren't taken apart route by route, since the process ends after the run (docs/DECISIONS.md).
    mem::forget(replayed);
    Ok(summary)
}

/// Replays the files into rows of what happened and its counts, in one thread, and writes what is asked for of these.
fn run_history<F, M, R, W, G>(
    alloc: Global,
    files: &mut [R],
    request: &Request<F>,
    layout: LayoutOf<F>,
    listing: Listing,
    selection: Selection<F>,
    plan: &Plan,
    gate: &G,
    writer: &mut W,
) -> Result<Summary, ReplayError>
where
    F: WrittenAddress,
    M: PrefixMap<RouteId, Addr = F> + Drop,
    R: Source,
    W: Sink,
    G: Gate + Sync,
    requires plan { IsPlan plan.now }
    requires history { listing_of (request_of F.bits request.now) (choices_of selection) ≡ Some listing }
    ensures promised { IsPromised (run_on R.remaining R.failure_count W.contents W.failure_count W.is_flushed
        (request_of F.bits request.now) layout selection plan.now files.old files.new writer.old writer.new result) }
    ensures untouched { IfErr result (λ e. (e ≡ errors.Write → ⊥) → writer.new ≡ writer.old) }
{
    let history = match list_history::<F, M, R>(
        alloc,
        files,
        listing,
        selection,
        plan.max_records,
    ) {
        Ok(history) => history,
        Err(cause) => return Err(cause),
    };
    if let Err(error) = write_told(alloc, layout, listing.listed, &history.told, writer) {
        return Err(error);
    }
    if writer.flush_all().is_err() {
        return Err(ReplayError::Write);
    }
    let watches = history.told.watches.watched();
    let refused = history.told.refused.as_slice();
    tell_history_faults(gate, refused, watches);
    let summary = Summary {
        records: history.records,
        units: history.told.units,
        aside: history.aside,
        damaged: count_faults(refused.len() as u64, watches),
        rounds: 0,
        peers: watches.len(),
        routes: history.routes,
        remarks: history.remarks,
        peer_remarks: history.peer_remarks,
    };
    mem::forget(history);
    Ok(summary)
}

/// Writes the rows of what happened, or where none is listed the counts of the watches.
fn write_told<F: WrittenAddress, M: PrefixMap<RouteId, Addr = F> + Drop, W: Sink>(
    alloc: Global,
    layout: LayoutOf<F>,
    listed: Listed,
    told: &Told<M>,
    out: &mut W,
) -> Result<(), ReplayError>
    ensures ok { OnOk result (Appends (W.contents out.old) (W.contents out.new)
        (told_lines layout listed told.now.rows.listed told.now.watches)) }
    ensures sound { OnOk result (W.failure_count out.new ≡ W.failure_count out.old) }
    ensures errors { IfErr result (λ e. (e ≡ errors.Memory) ⊎ (e ≡ errors.Write)) }
    ensures untouched { result ≡ Err errors.Memory → out.new ≡ out.old }
    ensures front { result ≡ Err errors.Write → WritesFront (W.contents out.old) (W.contents out.new)
        (told_lines layout listed told.now.rows.listed told.now.watches) }
    ensures risen { result ≡ Err errors.Write → HasFailed (W.failure_count out.old) (W.failure_count out.new) }
{
    match listed {
        Listed::Nothing => write_lines(
            out,
            &layout,
            watched_churn(alloc, told.watches.watched())?.as_slice(),
        ),
        Listed::Changes => write_lines(out, &layout, &told.rows),
        Listed::All => write_lines(out, &layout, &told.rows),
    }
}

/// Reports each listed fault to the gate.
fn tell_history_faults<F: Unicast, M: PrefixMap<RouteId, Addr = F>, G: Gate>(
    gate: &G,
    refused: &[Damage],
    watches: &[Watched<M>],
) {
    for damage in refused {
        gate.listed(damage, true);
    }
    for watched in watches {
        for damage in watched.watch.faults() {
            gate.listed(damage, false);
        }
    }
}

/// Reports each listed fault to the gate.
fn tell_faults<F: Unicast, M: PrefixMap<RouteId, Addr = F>, G: Gate>(gate: &G, tables: &Tables<M>) {
    for damage in tables.refused() {
        gate.listed(damage, true);
    }
    for seat in tables.seats() {
        for damage in seat.session.faults() {
            gate.listed(damage, false);
        }
    }
}

/// Writes the report that is asked for. As many threads as there are workers make the lines of large tables, and two,
/// if there are so many workers, the rows of `visibility`, `origins` and `seen`.
fn write_report<
    F: WrittenAddress + Send + Sync,
    M: PrefixMap<RouteId, Addr = F> + Sync + Drop,
    T: Threads + Sync,
    W: Sink,
>(
    rt: &T,
    alloc: Global,
    workers: usize,
    request: &Request<F>,
    layout: LayoutOf<F>,
    tables: &Tables<M>,
    out: &mut W,
) -> Result<(), ReplayError>
    ensures ok { OnOk result (Appends (W.contents out.old) (W.contents out.new)
        (lines_of (request_of F.bits request.now) layout tables.now)) }
    ensures sound { OnOk result (W.failure_count out.new ≡ W.failure_count out.old) }
    ensures errors { IfErr result (λ e. (e ≡ errors.Memory) ⊎ (e ≡ errors.Write)) }
    ensures untouched { result ≡ Err errors.Memory → out.new ≡ out.old }
    ensures front { result ≡ Err errors.Write → WritesFront (W.contents out.old) (W.contents out.new)
        (lines_of (request_of F.bits request.now) layout tables.now) }
    ensures risen { result ≡ Err errors.Write → HasFailed (W.failure_count out.old) (W.failure_count out.new) }
{
    match request {
        Request::Tables => list_tables(rt, alloc, workers, out, layout, tables),
        Request::Visibility => {
            let rows = visibility(rt, alloc, workers, tables)?;
            write_lines(out, &layout, rows.as_slice())
        }
        Request::Origins => {
            let rows = origins(rt, alloc, workers, tables)?;
            write_lines(out, &layout, rows.as_slice())
        }
        Request::Seen => {
            let rows = seen(rt, alloc, workers, tables)?;
            write_lines(out, &layout, rows.as_slice())
        }
        Request::Churn { since: _ } => write_lines(out, &layout, churn(alloc, tables)?.as_slice()),
        Request::Peers => write_lines(out, &layout, peers(alloc, tables)?.as_slice()),
        Request::Match(addr) => write_lines(
            out,
            &layout,
            matches(alloc, tables, *addr)?.as_slice(),
        ),
        Request::Faults => write_lines(out, &layout, faults(alloc, tables)?.as_slice()),
        Request::History { since: _, same: _ } => Ok(()),
    }
}
