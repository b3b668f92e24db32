//! The RIB records of a family (RFC 6396, 4.3.2 and 4.3.4), and their forms with path identifiers (RFC 8050, 4).

ghost use Rattle.std.specs.Prelude.{◌≡◌, ◌≤◌, ◌+◌, ◌-◌, ◌/◌, IfOk, length, drop, map, max, vec_capacity};
ghost use Rattle.std.specs.List.{All};
ghost use Rattle.mrt_frame.specs.Cuts.{body_limit};
ghost use Rattle.mrt_frame.specs.Fields.{Reads};
ghost use Rattle.bgp_update.specs.Results.{Gives};
ghost use Rattle.mrt_body.specs.Listed.{AreNumbered, IsListed, read_listed};
ghost use Rattle.mrt_body.specs.Many.{many};
ghost use Rattle.mrt_body.specs.RibRecords as ribs;

use bgp_prefix::Prefix;
use bgp_update::{AttrError, Unicast, prefix_at};
use mrt_frame::{Fault, byte_at, bytes_at, u16_at, u32_at};

/// What precedes the entries of a record.
#[derive(Clone, Copy)]
pub(crate) struct RibHead<P> {
    pub(crate) prefix: P,
    pub(crate) count: u16,
}

/// An entry, whose attributes are still bytes.
#[derive(Clone, Copy)]
pub(crate) struct RibEntry<'a> {
    pub(crate) peer: u16,
    pub(crate) identifier: u32,
    pub(crate) attributes: &'a [u8],
}

/// Reads the fields before the entries, and returns them with the bytes after them.
#[tactic(auto, using(crate::proofs::HeadParts::head_parts))]
pub(crate) fn rib_head_at<F: Unicast>(bytes: &[u8]) -> Result<(RibHead<Prefix<F>>, &[u8]), Fault>
    ensures reads { Reads (λ x. (record { prefix = x.0.prefix; count = x.0.count }, x.1.now)) result
        (ribs.read_head_at F.family bytes.now) }
    ensures few { IfOk result (λ x. x.0.count ≤ 65535) }
{
    let (_, rest) = u32_at(bytes, Fault::ShortRecord)?;
    let (len, rest) = byte_at(rest, Fault::ShortRecord)?;
    match prefix_at(len, rest) {
        Ok((prefix, rest)) => {
            let (count, rest) = u16_at(rest, Fault::ShortRecord)?;
            Ok((RibHead { prefix, count }, rest))
        }
        Err(fault) => Err(fault),
    }
}

/// Reads the number of one of this many peers.
fn peer_index_at(bytes: &[u8], peers: usize) -> Result<(u16, &[u8]), Fault>
    ensures { Reads (λ x. (x.0, x.1.now)) result (ribs.peer_index_at peers bytes.now) }
{
    let (index, rest) = u16_at(bytes, Fault::ShortRecord)?;
    if index as usize >= peers {
        return Err(Fault::BadPeerIndex);
    }
    Ok((index, rest))
}

/// Reads a path identifier, 0 in a record without them.
fn identifier_at(bytes: &[u8], add_path: bool) -> Result<(u32, &[u8]), Fault>
    ensures { Reads (λ x. (x.0, x.1.now)) result (ribs.identifier_at add_path bytes.now) }
{
    if add_path {
        u32_at(bytes, Fault::ShortRecord)
    } else {
        Ok((0, bytes))
    }
}

/// Reads an entry against an index of this many peers, and returns it with the bytes after it.
#[tactic(auto, unfolding(crate::specs::RibRecords::read_entry_at, crate::specs::RibRecords::entry_at))]
pub(crate) fn entry_at(
    bytes: &[u8],
    add_path: bool,
    peers: usize,
) -> Result<(RibEntry<'_>, &[u8]), Fault>
    ensures reads { Reads
        (λ x. (record { peer = x.0.peer; identifier = x.0.identifier; attributes = x.0.attributes.now }, x.1.now))
        result (ribs.read_entry_at add_path peers bytes.now) }
    ensures small { IfOk result (λ x. length x.0.attributes.now ≤ 65535) }
{
    let (peer, rest) = peer_index_at(bytes, peers)?;
    let (_, rest) = u32_at(rest, Fault::ShortRecord)?;
    let (identifier, rest) = identifier_at(rest, add_path)?;
    let (len, rest) = u16_at(rest, Fault::ShortRecord)?;
    let (attributes, rest) = bytes_at(rest, len as usize, Fault::ShortRecord)?;
    let entry = RibEntry {
        peer,
        identifier,
        attributes,
    };
    Ok((entry, rest))
}

/// What an entry says, and where its attributes are in the body of its record.
#[derive(Clone, Copy)]
pub(crate) struct ListedEntry {
    /// Where its attributes begin in the body.
    pub(crate) start: u32,
    pub(crate) identifier: u32,
    pub(crate) peer: u16,
    /// How many bytes its attributes have.
    pub(crate) len: u16,
    /// Its number in the record, from 1.
    pub(crate) number: u16,
}

/// The fewest bytes that an entry has.
const SHORTEST_ENTRY: usize = 8;

/// Returns an entry as it is listed. Its attributes are where this many bytes of a body are left after them.
fn listed_entry(
    number: u16,
    peer: u16,
    identifier: u32,
    attributes: &[u8],
    body: usize,
    left: usize,
) -> ListedEntry
    requires within { length attributes.now + left ≤ body }
    requires short { length attributes.now ≤ 65535 }
    requires small { body ≤ body_limit }
    ensures { result ≡ record {
      start = body - left - length attributes.now;
      identifier = identifier;
      peer = peer;
      len = length attributes.now;
      number = number;
    } }
{
    let len = attributes.len();
    ListedEntry {
        start: (body - left - len) as u32,
        identifier,
        peer,
        len: len as u16,
        number,
    }
}

/// Returns the bytes after the first n.
fn behind(bytes: &[u8], n: usize) -> &[u8]
    requires { n ≤ length bytes.now }
    ensures { result.now ≡ drop n bytes.now }
{
    &bytes[n..]
}

/// Lists the entries after the first `start` bytes of a body: this many, and nothing more.
pub(crate) fn list_entries(
    body: &[u8],
    start: usize,
    count: u16,
    add_path: bool,
    peers: usize,
    list: &mut Vec<ListedEntry>,
) -> Result<(), AttrError>
    requires within { start ≤ length body.now }
    requires small { length body.now ≤ body_limit }
    ensures listed { Gives (λ _. map (read_listed body.now) list.new.items) result
        (many (ribs.read_entry_at add_path peers) count (drop start body.now)) }
    ensures within { All (IsListed peers (length body.now)) list.new.items }
    ensures numbered { AreNumbered 1 list.new.items }
    // A false count allocates nothing.
    ensures room { vec_capacity list.new ≤ max (vec_capacity list.old) (length body.now / 8) }
{
    let mut rest = behind(body, start);
    list.clear();
    list.reserve_exact(usize::from(count).min(rest.len() / SHORTEST_ENTRY))?;
    for index in 0..count {
        match entry_at(rest, add_path, peers) {
            Ok((entry, after)) => {
                let RibEntry {
                    peer,
                    identifier,
                    attributes,
                } = entry;
                list.push_reserved(listed_entry(
                    index + 1,
                    peer,
                    identifier,
                    attributes,
                    body.len(),
                    after.len(),
                ));
                rest = after;
            }
            Err(fault) => return Err(AttrError::Bad(fault)),
        }
    }
    if !rest.is_empty() {
        return Err(AttrError::Bad(Fault::TrailingBytes));
    }
    Ok(())
}
