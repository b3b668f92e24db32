//! The units of a list. What they have in common with other ones of the list is listed once: the place and time of
//! their record, which are those of all entries of a RIB record, and their peer.

ghost use Rattle.std.specs.Prelude.{◌≡◌, true, IfOk};
ghost use Rattle.unit_rings.specs.ListedUnits.{AreKept, IsListedAt};

use bgp_prefix::{Memory, Prefix};
use bgp_update::{Rules, Span};
use peer_units::{Payload, PeerKey, Place};

/// Where the record of a unit is, and the unit's time.
#[derive(Drop)]
pub struct ListedRecord {
    pub file: usize,
    pub offset: u64,
    pub time: u64,
}

/// A peer with its number.
#[derive(Drop)]
pub struct NumberedPeer {
    pub number: usize,
    pub peer: PeerKey,
}

/// A unit of a list, in 32 bytes (IPv4): where its record, its peer and its bytes are among those of the list.
#[derive(Drop)]
pub struct ListedUnit<P = Prefix, K = Rules> {
    pub payload: Payload<Span, P, K>,
    pub entry: Option<u16>,
    pub record: u16,
    pub peer: u16,
}

/// The maximum number of records, and of peers, that units of one list refer to: far more than a list has units.
const MOST_INDEXED: usize = 65_536;

/// Whether the record at this index is at this place, and its unit has this time.
#[inline(always)]
fn is_record_at(records: &[ListedRecord], at: usize, place: &Place, time: u64) -> bool
    ensures { result ≡ true → IsListedAt records.now at
        (record { file = place.now.file; offset = place.now.offset; time = time }) }
{
    match records.get(at) {
        Some(record) => {
            record.offset == place.offset && record.time == time && record.file == place.file
        }
        None => false,
    }
}

/// Returns the index of the record at this place, whose unit has this time. It is usually the last one, and otherwise
/// comes after the others.
#[inline(always)]
pub fn index_of_record(
    records: &mut Vec<ListedRecord>,
    place: &Place,
    time: u64,
) -> Result<u16, Memory>
    ensures kept { AreKept records.old.items records.new.items }
    ensures found { IfOk result (λ at. IsListedAt records.new.items at
        (record { file = place.now.file; offset = place.now.offset; time = time })) }
{
    let count = records.len();
    if 0 < count && count <= MOST_INDEXED && is_record_at(records, count - 1, place, time) {
        return Ok((count - 1) as u16);
    }
    if MOST_INDEXED <= count {
        return Err(Memory);
    }
    records.push(ListedRecord {
        file: place.file,
        offset: place.offset,
        time,
    })?;
    Ok(count as u16)
}

/// Whether the peer at this index is this one, with this number.
#[inline(always)]
fn is_peer_at(peers: &[NumberedPeer], at: usize, number: usize, peer: &PeerKey) -> bool
    ensures { result ≡ true → IsListedAt peers.now at (record { number = number; peer = peer.now }) }
{
    match peers.get(at) {
        Some(listed) => listed.number == number && listed.peer == *peer,
        None => false,
    }
}

/// Returns the index of this peer with this number, which comes after the others if it is none of them.
#[inline(never)]
fn find_or_add_peer(
    peers: &mut Vec<NumberedPeer>,
    number: usize,
    peer: PeerKey,
) -> Result<u16, Memory>
    ensures kept { AreKept peers.old.items peers.new.items }
    ensures found { IfOk result (λ at. IsListedAt peers.new.items at (record { number = number; peer = peer })) }
{
    let count = peers.len();
    for at in 0..count.min(MOST_INDEXED) {
        if is_peer_at(peers, at, number, &peer) {
            return Ok(at as u16);
        }
    }
    if MOST_INDEXED <= count {
        return Err(Memory);
    }
    peers.reserve(1)?;
    peers.push_reserved(NumberedPeer { number, peer });
    Ok(count as u16)
}

/// Returns the index of this peer with this number, which probably is the given one.
#[inline(always)]
pub fn index_of_peer(
    peers: &mut Vec<NumberedPeer>,
    next_peer_hint: u16,
    number: usize,
    peer: PeerKey,
) -> Result<u16, Memory>
    ensures kept { AreKept peers.old.items peers.new.items }
    ensures found { IfOk result (λ at. IsListedAt peers.new.items at (record { number = number; peer = peer })) }
{
    if is_peer_at(peers, next_peer_hint as usize, number, &peer) {
        return Ok(next_peer_hint);
    }
    find_or_add_peer(peers, number, peer)
}
