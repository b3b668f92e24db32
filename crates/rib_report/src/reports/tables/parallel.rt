//! The lines of a large table, made by several threads. They fill blocks while the calling thread writes those before.

ghost use Rattle.std.specs.Prelude.{◌≡◌, ◌<◌, ◌≤◌, length, map};
ghost use Rattle.std.specs.List.{All};
ghost use Rattle.std.specs.Thread.{IsSync};
ghost use Rattle.report_lines.specs.Texts.{Adds};
ghost use Rattle.rib_report.specs.Listings.{reached_lines};
ghost use Rattle.rib_report.specs.LineBlocks.{AreRanges, IsFilled, AreSuccessive, lines_between, range_of};

use super::line_block::{LineBlock, put_line_block};
use super::put_entries;
use bgp_prefix::{Memory, Prefix, RouteKey};
use bgp_update::RouteRef;
use ip_text::WrittenAddress;
use report_lines::{ShownPeerOf, Text};
use std::alloc::Global;
use std::marker::Sync;
use std::mem;
use std::thread::{Threads, join_mut};

/// The maximum number of workers for which there are blocks: more threads would wait for the one that writes.
const MOST_FORMATTERS: usize = 8;

/// How many blocks there are for each worker.
const PIECES: usize = 16;

/// How many blocks a thread fills at most. With four workers three threads do: a fourth one would take processor time
/// from the writing thread, and from the program that reads what it writes.
const PIECES_EACH: usize = 22;

/// How many entries a block has at first: usually there is room for their lines.
const MOST_ENTRIES: usize = 448;

/// How many entries a block has if lines are very long.
const LEAST_ENTRIES: usize = 14;

/// The number of entries from which on it pays to start threads.
const LARGE: usize = 16_384;

/// Blocks that are filled, and as many that are written meanwhile.
#[derive(Drop)]
pub(crate) struct LineBlocks {
    writing: Vec<LineBlock>,
    filling: Vec<LineBlock>,
}

/// Returns so many blocks.
fn make_line_blocks(alloc: Global, count: usize) -> Result<Vec<LineBlock>, Memory> {
    let mut line_blocks = Vec::with_capacity(alloc, count)?;
    for _ in 0..count {
        line_blocks.push(LineBlock::new())?;
    }
    Ok(line_blocks)
}

impl LineBlocks {
    /// Returns the blocks with which the lines of tables of at most so many entries are made for so many workers; none
    /// if it doesn't pay.
    pub(crate) fn new(alloc: Global, workers: usize, most: usize) -> Result<LineBlocks, Memory> {
        let wanted = workers.min(MOST_FORMATTERS) * PIECES;
        let count = if workers < 2 || most < LARGE {
            0
        } else {
            wanted.min(most / MOST_ENTRIES)
        };
        Ok(LineBlocks {
            writing: make_line_blocks(alloc, count)?,
            filling: make_line_blocks(alloc, count)?,
        })
    }
}

/// Returns how many of these blocks the next thread fills: no fewer than the others, by one at most.
fn next_share(line_blocks: usize) -> usize
    requires { 0 < line_blocks }
    ensures { (0 < result) × (result ≤ line_blocks) }
{
    line_blocks.div_ceil(line_blocks.div_ceil(PIECES_EACH))
}

/// Gives each block its entries: at most so many, and from one of them on. Returns the first entry that is left.
fn deal_entries(line_blocks: &mut [LineBlock], start: usize, size: usize, count: usize) -> usize
    requires { (start ≤ count) × (0 < size) }
    ensures ranges { AreRanges count line_blocks.new }
    ensures successive { AreSuccessive start (map range_of line_blocks.new) result }
    ensures within { result ≤ count }
    ensures some { 0 < length line_blocks.old → start < count → start < result }
    ensures len { length line_blocks.new ≡ length line_blocks.old }
{
    let mut next = start;
    for at in 0..line_blocks.len() {
        let end = next.saturating_add(size).min(count);
        let line_block = &mut line_blocks[at];
        line_block.start = next;
        line_block.end = end;
        next = end;
    }
    next
}

/// Returns how many entries to give to each block after these: fewer if there was no room for the lines of some.
fn next_size(size: usize, line_blocks: &[LineBlock]) -> usize
    requires { 0 < size }
    ensures { 0 < result }
{
    for line_block in line_blocks {
        if !line_block.is_whole() {
            return (size / 2).max(LEAST_ENTRIES);
        }
    }
    size
}

/// Fills blocks in the calling thread.
fn fill_each<F: WrittenAddress>(
    peer: &ShownPeerOf<F>,
    entries: &[(RouteKey<Prefix<F>>, RouteRef<'_>)],
    line_blocks: &mut [LineBlock],
)
    requires { AreRanges (length entries.now) line_blocks.old }
    ensures ranges { map range_of line_blocks.new ≡ map range_of line_blocks.old }
    ensures filled { All (IsFilled peer.now entries.now) line_blocks.new }
{
    for at in 0..line_blocks.len() {
        line_blocks[at].fill(peer, entries);
    }
}

/// Adds the lines of blocks, in order.
fn put_line_blocks<T: Text, F: WrittenAddress>(
    text: &mut T,
    peer: &ShownPeerOf<F>,
    entries: &[(RouteKey<Prefix<F>>, RouteRef<'_>)],
    line_blocks: &[LineBlock],
    start: usize,
    end: usize,
)
    requires filled { All (IsFilled peer.now entries.now) line_blocks.now }
    requires successive { AreSuccessive start (map range_of line_blocks.now) end }
    ensures { Adds (T.state text.old) (T.state text.new) (lines_between peer.now start end entries.now) }
{
    for line_block in line_blocks {
        put_line_block(text, peer, entries, line_block);
    }
}

/// Fills the one half of the blocks, a few in each thread if these can be started, and meanwhile adds the lines of the
/// other one, in the calling thread. It starts every thread itself: a thread that waits for another one ends later.
#[cycle(threads)]
fn fill_and_put<R: Threads + Sync, T: Text, F: WrittenAddress + Sync>(
    rt: &R,
    text: &mut T,
    peer: &ShownPeerOf<F>,
    entries: &[(RouteKey<Prefix<F>>, RouteRef<'_>)],
    writing: &[LineBlock],
    filling: &mut [LineBlock],
    start: usize,
    end: usize,
)
    requires filled { All (IsFilled peer.now entries.now) writing.now }
    requires successive { AreSuccessive start (map range_of writing.now) end }
    requires next { AreRanges (length entries.now) filling.old }
    ensures put { Adds (T.state text.old) (T.state text.new) (lines_between peer.now start end entries.now) }
    ensures ranges { map range_of filling.new ≡ map range_of filling.old }
    ensures filled { All (IsFilled peer.now entries.now) filling.new }
{
    if filling.is_empty() {
        return put_line_blocks(text, peer, entries, writing, start, end);
    }
    let (some, others) = filling.split_at_mut(next_share(filling.len()));
    fill_some_and_put(rt, text, peer, entries, writing, some, others, start, end);
}

/// Fills some blocks in a thread of their own, and meanwhile does what `fill_and_put` does with the others.
#[cycle(threads)]
fn fill_some_and_put<R: Threads + Sync, T: Text, F: WrittenAddress + Sync>(
    rt: &R,
    text: &mut T,
    peer: &ShownPeerOf<F>,
    entries: &[(RouteKey<Prefix<F>>, RouteRef<'_>)],
    writing: &[LineBlock],
    some: &mut [LineBlock],
    others: &mut [LineBlock],
    start: usize,
    end: usize,
)
    requires filled { All (IsFilled peer.now entries.now) writing.now }
    requires successive { AreSuccessive start (map range_of writing.now) end }
    requires some { 0 < length some.old }
    requires next { AreRanges (length entries.now) some.old × AreRanges (length entries.now) others.old }
    ensures put { Adds (T.state text.old) (T.state text.new) (lines_between peer.now start end entries.now) }
    ensures some { (map range_of some.new ≡ map range_of some.old) × All (IsFilled peer.now entries.now) some.new }
    ensures others { (map range_of others.new ≡ map range_of others.old) ×
        All (IsFilled peer.now entries.now) others.new }
{
    let mut fill = || -> ()
        requires { AreRanges (length entries.now) some.now }
        ensures { (map range_of some.exit.now ≡ map range_of some.entry.now) ×
            All (IsFilled peer.entry.now entries.entry.now) some.exit.now }
    { fill_each(peer, entries, some) };
    let mut put = || -> ()
        requires { IsSync R.row × IsSync F.row × All (IsFilled peer.now entries.now) writing.now ×
            AreSuccessive start (map range_of writing.now) end × AreRanges (length entries.now) others.now }
        ensures { Adds (T.state text.entry.now) (T.state text.exit.now)
            (lines_between peer.entry.now start end entries.entry.now) ×
            (map range_of others.exit.now ≡ map range_of others.entry.now) ×
            All (IsFilled peer.entry.now entries.entry.now) others.exit.now }
    { fill_and_put(rt, text, peer, entries, writing, others, start, end) };
    join_mut(rt, &mut fill, &mut put);
}

/// Adds the lines of the entries of one peer. After a failed write, no more lines are made.
fn put_by_line_blocks<R: Threads + Sync, T: Text, F: WrittenAddress + Sync>(
    rt: &R,
    writing: &mut Vec<LineBlock>,
    filling: &mut Vec<LineBlock>,
    text: &mut T,
    peer: &ShownPeerOf<F>,
    entries: &[(RouteKey<Prefix<F>>, RouteRef<'_>)],
)
    requires { (0 < length writing.old.items) × (0 < length filling.old.items) }
    ensures { Adds (T.state text.old) (T.state text.new) (reached_lines peer.now entries.now) }
{
    let mut size = MOST_ENTRIES;
    let mut start = 0;
    let mut end = deal_entries(writing.as_mut_slice(), 0, size, entries.len());
    fill_and_put(rt, text, peer, entries, &[], writing.as_mut_slice(), 0, 0);
    while end < entries.len() {
        if text.buffer().has_failed() {
            return;
        }
        let next = deal_entries(filling.as_mut_slice(), end, size, entries.len());
        fill_and_put(
            rt,
            text,
            peer,
            entries,
            writing.as_slice(),
            filling.as_mut_slice(),
            start,
            end,
        );
        mem::swap(writing, filling);
        size = next_size(size, writing.as_slice());
        start = end;
        end = next;
    }
    put_line_blocks(text, peer, entries, writing.as_slice(), start, end);
}

/// Adds the lines of the entries of one peer, by several threads where there are blocks and it pays.
pub(crate) fn put_all_entries<R: Threads + Sync, T: Text, F: WrittenAddress + Sync>(
    rt: &R,
    line_blocks: &mut LineBlocks,
    text: &mut T,
    peer: &ShownPeerOf<F>,
    entries: &[(RouteKey<Prefix<F>>, RouteRef<'_>)],
)
    ensures { Adds (T.state text.old) (T.state text.new) (reached_lines peer.now entries.now) }
{
    if line_blocks.writing.is_empty() || line_blocks.filling.is_empty() || entries.len() < LARGE {
        put_entries(text, peer, entries);
    } else {
        put_by_line_blocks(
            rt,
            &mut line_blocks.writing,
            &mut line_blocks.filling,
            text,
            peer,
            entries,
        );
    }
}
