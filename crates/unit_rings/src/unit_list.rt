//! Lists of units, which pass through a ring as one item.

ghost use Rattle.std.specs.Prelude.{◌≡◌, length};
ghost use Rattle.std.proofs.Props.{props};
ghost use Rattle.unit_rings.specs.PlacedProps.{meet_prop};
ghost use Rattle.std.specs.List.{AllByRecursion};
ghost use Rattle.bgp_update.specs.Decoded.{IsWithin, span_of};
ghost use Rattle.peer_units.specs.HeldBytes.{BytesMeet, payload_of_held};
ghost use Rattle.unit_rings.specs.ListedUnits.{IsListed};

use crate::listed_unit::{ListedRecord, ListedUnit, NumberedPeer, index_of_peer, index_of_record};
use crate::peer_unit::{PeerUnit, PeerUnitRef};
use bgp_prefix::{Memory, Prefix};
use bgp_update::{Rules, Span, Unicast};
use peer_units::{BytesRef, Payload, PayloadRef, Place, Unit, UnitRef};
use std::alloc::Global;

/// Units that were dealt to one lane, in order. Their records, their peers and their bytes are in blocks of memory of
/// their own, so a list takes four allocations, and one more each time one of these blocks is outgrown.
#[derive(Drop)]
pub struct UnitList<P = Prefix, K = Rules> {
    listed: Vec<ListedUnit<P, K>>,
    records: Vec<ListedRecord>,
    /// Those of the units, and others that the list had before.
    peers: Vec<NumberedPeer>,
    bytes: Vec<u8>,
    /// The index of the peer whose unit probably comes next: peers take turns in RIB records.
    next_peer_hint: u16,
    ghost within: { AllByRecursion
        (λ unit. IsListed (length records.items) (length peers.items) (length bytes.items) unit)
        listed.items } by { Prim.hlevel (props, meet_prop) },
}

/// Units of a family that were dealt to one lane.
pub type UnitListOf<F> = UnitList<Prefix<F>, Rules<F>>;

/// How many bytes there is room for at first for each unit of a list. More are made room for as they come.
const BYTES_EACH: usize = 64;

/// How many bytes a list that is filled again may have room for. One that long messages enlarged is freed.
const MOST_LIST_BYTES: usize = 16_384;

/// How many peers a list that is filled again may keep: few enough to look through them. They are usually those of its
/// next units.
const MOST_PEERS: usize = 24;

/// Lends a payload whose bytes are in this block.
#[inline(always)]
fn borrowed_from<'a, F: Unicast>(
    payload: &Payload<Span, Prefix<F>, Rules<F>>,
    block: &'a [u8],
) -> PayloadRef<'a, F>
    requires { BytesMeet (IsWithin (length block.now)) payload.now }
    ensures { result ≡ payload_of_held (span_of block.now) payload.now }
{
    match payload {
        Payload::Message { bytes, .. } => payload.with_bytes(BytesRef::new(bytes.of(block))),
        Payload::Entry { attrs, .. } => payload.with_bytes(BytesRef::new(attrs.of(block))),
        Payload::State { .. } | Payload::Clear => payload.with_bytes(BytesRef::new(&[])),
    }
}

/// Writes to all of the units and bytes. The processor of the worker that read them has their cache lines too, so
/// that a write to each waits for it. One after the other, these waits overlap; while a list is filled they wouldn't.
fn write_ahead<P, K>(listed: &mut [ListedUnit<P, K>], bytes: &mut [u8]) {
    for unit in listed.iter_mut() {
        unit.entry = None;
    }
    bytes.fill(0);
}

impl<F: Unicast> UnitList<Prefix<F>, Rules<F>> {
    ghost use Rattle.std.specs.Prelude.{◌<◌, [], ◌∷◌, ◌++◌, MatchOption, OnOk, OnErr, slice_index_or};
    ghost use Rattle.unit_rings.specs.UnitLists.{units_of};

    /// Returns a list without units. Allocates nothing.
    pub fn new(alloc: Global) -> UnitListOf<F>
        ensures { units_of result ≡ [] }
    {
        UnitList {
            listed: Vec::new(alloc),
            records: Vec::new(alloc),
            peers: Vec::new(alloc),
            bytes: Vec::new(alloc),
            next_peer_hint: 0,
        }
    }

    /// How many units there are.
    pub fn len(&self) -> usize
        ensures { result ≡ length (units_of self.now) }
    {
        self.listed.len()
    }

    /// Takes out all units. Their memory stays for other ones, which the calling thread is to add.
    pub fn clear(&mut self)
        ensures { units_of self.new ≡ [] }
    {
        write_ahead(self.listed.as_mut_slice(), self.bytes.as_mut_slice());
        self.listed.clear();
        self.records.clear();
        self.bytes.clear();
        if MOST_PEERS < self.peers.len() {
            self.peers.clear();
        }
    }

    /// Whether its memory should be kept for other units.
    pub fn is_worth_keeping(&self) -> bool {
        self.bytes.capacity() <= MOST_LIST_BYTES
    }

    /// Makes room for so many units, and for some bytes of each.
    #[inline(never)]
    pub fn reserve(&mut self, count: usize) -> Result<(), Memory>
        ensures { units_of self.new ≡ units_of self.old }
    {
        self.listed.reserve_exact(count)?;
        self.bytes.reserve_exact(count.saturating_mul(BYTES_EACH))?;
        Ok(())
    }

    /// Adds a copy of this unit of the peer with this number.
    #[inline(always)]
    pub fn push(&mut self, number: usize, unit: &UnitRef<'_, F>) -> Result<(), Memory>
        ensures pushed { OnOk result
            (units_of self.new ≡ units_of self.old ++ record { number = number; unit = unit.now } ∷ []) }
        ensures failed { OnErr result (units_of self.new ≡ units_of self.old) }
    {
        self.listed.reserve(1)?;
        let record = index_of_record(&mut self.records, &unit.place, unit.time)?;
        let peer = index_of_peer(&mut self.peers, self.next_peer_hint, number, unit.peer)?;
        let bytes = unit.payload.as_slice();
        let start = self.bytes.len();
        let place = Span::between(start, start.saturating_add(bytes.len()))?;
        self.bytes.extend_from_slice(bytes)?;
        self.listed.push_reserved(ListedUnit {
            payload: unit.payload.with_bytes(place),
            entry: unit.place.entry,
            record,
            peer,
        });
        self.next_peer_hint = self.after(peer);
        Ok(())
    }

    /// The index of the peer whose unit probably comes after one of this peer.
    #[inline(always)]
    fn after(&self, peer: u16) -> u16 {
        let next = peer.saturating_add(1);
        if self.peers.len() <= next as usize {
            return 0;
        }
        next
    }

    /// Lends the unit at this index.
    #[inline(always)]
    pub fn at(&self, at: usize) -> PeerUnitRef<'_, F>
        requires { at < length (units_of self.now) }
        ensures { (d : _) → slice_index_or (units_of self.now) at d ≡ result }
    {
        let unit = &self.listed[at];
        let record = &self.records[unit.record as usize];
        let source = &self.peers[unit.peer as usize];
        PeerUnit {
            number: source.number,
            unit: Unit {
                place: Place {
                    file: record.file,
                    offset: record.offset,
                    entry: unit.entry,
                },
                time: record.time,
                peer: source.peer,
                payload: borrowed_from(&unit.payload, self.bytes.as_slice()),
            },
        }
    }
}
