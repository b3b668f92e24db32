//! The lines of some successive entries of one peer, which a thread makes while another one writes.

ghost use Rattle.std.specs.Prelude.{◌≡◌, ◌<◌, ◌≤◌, length, take};
ghost use Rattle.report_lines.specs.Texts.{Adds};
ghost use Rattle.rib_report.specs.Listings.{reached_lines};
ghost use Rattle.rib_report.specs.LineBlocks.{IsFilled, lines_between, range_of};

use super::{prefetch_entries, put_entries};
use crate::write::NEAR_ROWS;
use bgp_prefix::{Prefix, RouteKey};
use bgp_update::RouteRef;
use ip_text::WrittenAddress;
use report_lines::{
    AsJson, AsText, PIECE_BYTES, PeerText, RowFormat, ShownPeerOf, Text, TextAhead, TextBuffer,
};
use report_request::Format;

/// The most bytes of a line in either format without the numbers of its path, and the room that its last piece asks
/// for.
const MOST_WITHOUT_PATH: usize = 640 + PIECE_BYTES;

/// Lines of successive entries.
#[derive(Drop)]
pub(crate) struct LineBlock {
    /// The first of its entries.
    pub(crate) start: usize,
    /// The first entry whose line isn't in the text.
    pub(crate) done: usize,
    /// The first entry after its entries.
    pub(crate) end: usize,
    pub(crate) text: TextAhead,
}

/// Returns about how many bytes the line of a route takes at most. A line that takes more costs time, and nothing else.
fn most_bytes(route: &RouteRef<'_>) -> usize {
    route
        .as_bytes()
        .len()
        .saturating_mul(4)
        .saturating_add(MOST_WITHOUT_PATH)
}

/// Adds the lines of these entries in a format, in order, while there should be room for one more. Returns how many.
fn put_fitting_as<R: RowFormat, T: Text, F: WrittenAddress>(
    text: &mut T,
    peer: &PeerText<F>,
    entries: &[(RouteKey<Prefix<F>>, RouteRef<'_>)],
) -> usize
    requires { peer.now.layout.format ≡ R.format }
    ensures few { result ≤ length entries.now }
    ensures lines { Adds (T.state text.old) (T.state text.new) (reached_lines peer.now (take result entries.now)) }
{
    for at in 0..entries.len() {
        let entry = &entries[at];
        let route = &entry.1;
        if text.buffer().room() < most_bytes(route) {
            return at;
        }
        R::put_row(text, peer, &entry.0, route);
    }
    entries.len()
}

/// Adds the lines of these entries, in order, while there should be room for one more. Returns how many. The format is
/// asked once, and not at each line.
fn put_fitting<T: Text, F: WrittenAddress>(
    text: &mut T,
    peer: &PeerText<F>,
    entries: &[(RouteKey<Prefix<F>>, RouteRef<'_>)],
) -> usize
    ensures few { result ≤ length entries.now }
    ensures lines { Adds (T.state text.old) (T.state text.new) (reached_lines peer.now (take result entries.now)) }
{
    match peer.layout().format {
        Format::Text => put_fitting_as::<AsText, T, F>(text, peer, entries),
        Format::Json => put_fitting_as::<AsJson, T, F>(text, peer, entries),
    }
}

/// Adds the lines of entries from one to before another, while there should be room for one more. Returns the first
/// entry whose line wasn't added.
fn put_while_fitting<T: Text, F: WrittenAddress>(
    text: &mut T,
    peer: &ShownPeerOf<F>,
    entries: &[(RouteKey<Prefix<F>>, RouteRef<'_>)],
    start: usize,
    end: usize,
) -> usize
    requires { (start ≤ end) × (end ≤ length entries.now) }
    ensures within { (start ≤ result) × (result ≤ end) }
    ensures lines { Adds (T.state text.old) (T.state text.new) (lines_between peer.now start result entries.now) }
{
    let peer_text = text.buffer().peer_text(peer);
    let mut done = start;
    let mut writing = NEAR_ROWS;
    while done < end {
        let next = end.min(done.saturating_add(writing));
        let block = &entries[done..next];
        writing = prefetch_entries(block);
        let count = put_fitting(text, &peer_text, block);
        done += count;
        if done < next {
            return done;
        }
    }
    done
}

impl LineBlock {
    pub(crate) fn new() -> LineBlock {
        LineBlock {
            start: 0,
            done: 0,
            end: 0,
            text: TextAhead {
                buffer: TextBuffer::new(),
            },
        }
    }

    /// Makes the lines of its entries: of all, or of the first ones, as many as there is room for.
    pub(crate) fn fill<F: WrittenAddress>(
        &mut self,
        peer: &ShownPeerOf<F>,
        entries: &[(RouteKey<Prefix<F>>, RouteRef<'_>)],
    )
        requires { (self.old.start ≤ self.old.end) × (self.old.end ≤ length entries.now) }
        ensures range { range_of self.new ≡ range_of self.old }
        ensures filled { IsFilled peer.now entries.now self.new }
    {
        self.text.buffer.clear();
        self.done = put_while_fitting(&mut self.text, peer, entries, self.start, self.end);
        if self.text.buffer.has_failed() {
            self.text.buffer.clear();
            self.done = self.start;
        }
    }

    /// Whether the lines of all its entries are in the text.
    pub(crate) fn is_whole(&self) -> bool {
        self.done == self.end
    }
}

/// Adds the lines of a block: its text, and then those that it had no room for.
pub(crate) fn put_line_block<T: Text, F: WrittenAddress>(
    text: &mut T,
    peer: &ShownPeerOf<F>,
    entries: &[(RouteKey<Prefix<F>>, RouteRef<'_>)],
    line_block: &LineBlock,
)
    requires { IsFilled peer.now entries.now line_block.now }
    ensures { Adds (T.state text.old) (T.state text.new)
        (lines_between peer.now line_block.now.start line_block.now.end entries.now) }
{
    text.put_text(line_block.text.buffer.as_slice());
    put_entries(text, peer, &entries[line_block.done..line_block.end]);
}
