//! The routes of one peer in one block of bytes, each of which is held once and named by a number. A peer announces
//! many prefixes with the same attributes, and their keys have the same number.

ghost use Rattle.std.specs.Prelude.{◌≡◌, ◌↔◌, ◌<◌, ◌++◌, List, [], ℕ, drop, length, IfOk, IfSome, IsTrue, OnOk, vec_len};
ghost use Rattle.std.specs.List.{All};
ghost use Rattle.bgp_update.specs.Packing.{IsPacked, unpacked};
ghost use Rattle.bgp_update.specs.Equality.{route_eq};
ghost use Rattle.bgp_update.specs.Decoded.{IsGrown};
ghost use Rattle.adj_rib.specs.Routes.{AreSlots, IsFront, IsNamed, Names, StaysNamed};
ghost use Rattle.adj_rib.specs.Routes as routes;

use bgp_prefix::Memory;
use bgp_update::{HashedRoute, RouteRef, RouteSpan};
use byteorder::{BigEndian, ByteOrder};
use std::alloc::Global;
use std::marker::Model;

/// The number of a route among those of a peer.
#[derive(Clone, Copy, Debug)]
pub struct RouteId {
    pub(crate) at: u32,
}

/// Where a route is, with the hash of its bytes; or 0, where none is.
#[derive(Clone, Copy)]
pub(crate) struct IndexSlot {
    hash: u32,
    at: u32,
}

/// The first byte of a route whose length is in four bytes of its own.
const LONG: u8 = 255;

/// How many buckets there are at first. Their number is always a power of two.
const FIRST_BUCKETS: usize = 8;

/// In how many slots a route is looked for: that of its bucket, and those after it.
const PROBED_SLOTS: usize = 8;

/// Returns the packed bytes of the route at the front of these.
#[inline(always)]
fn front_of(rest: &[u8]) -> &[u8]
    requires { IsFront rest.now }
    ensures { result.now ≡ routes.front_of rest.now }
{
    if rest[0] == LONG {
        let len = BigEndian::read_u32(&rest[1..]) as usize;
        &rest[5..5 + len]
    } else {
        let len = rest[0] as usize;
        &rest[1..1 + len]
    }
}

/// Returns the packed bytes of the route at a position.
#[inline(always)]
fn bytes_at(bytes: &[u8], at: u32) -> &[u8]
    requires { IsNamed bytes.now at }
    ensures { result.now ≡ routes.front_of (drop at bytes.now) }
{
    front_of(&bytes[at as usize..])
}

/// Appends the length of a route's packed bytes.
fn push_head(bytes: &mut Vec<u8>, len: u32) -> Result<(), Memory>
    ensures ok { OnOk result (bytes.new.items ≡ bytes.old.items ++ routes.head_of len) }
    ensures grows { IsGrown bytes.old.items bytes.new.items }
{
    if len < LONG as u32 {
        bytes.push(len as u8)?;
        return Ok(());
    }
    bytes.push(LONG)?;
    bytes.extend_from_slice(&len.to_be_bytes())?;
    Ok(())
}

/// Makes room for some bytes, and for an eighth more of those that are there if there is none.
fn make_room(bytes: &mut Vec<u8>, len: usize) -> Result<(), Memory>
    ensures { bytes.new.items ≡ bytes.old.items }
{
    if bytes.capacity().saturating_sub(bytes.len()) < len {
        let more = (bytes.len() / 8).max(256);
        bytes.reserve_exact(more.saturating_add(len))?;
    }
    Ok(())
}

/// Appends a route, and returns where it begins. The first byte of a block belongs to no route.
fn push_route(bytes: &mut Vec<u8>, route: &[u8]) -> Result<RouteId, Memory>
    requires { IsPacked route.now }
    ensures names { IfOk result (λ id. Names bytes.new.items id (unpacked route.now)) }
    ensures grows { IsGrown bytes.old.items bytes.new.items }
{
    if bytes.is_empty() {
        bytes.push(0)?;
    }
    let Ok(at) = u32::try_from(bytes.len()) else {
        return Err(Memory);
    };
    let Ok(len) = u32::try_from(route.len()) else {
        return Err(Memory);
    };
    make_room(bytes, route.len().saturating_add(5))?;
    push_head(bytes, len)?;
    bytes.extend_from_slice(route)?;
    Ok(RouteId { at })
}

/// The byte at a position, or 0.
#[inline(always)]
fn byte_at(bytes: &[u8], at: usize) -> usize {
    match bytes.get(at) {
        Some(byte) => *byte as usize,
        None => 0,
    }
}

/// Whether bytes are equal.
#[inline(always)]
fn are_equal(one: &[u8], other: &[u8]) -> bool
    ensures { IsTrue result ↔ (one.now ≡ other.now) }
{
    one == other
}

/// The bucket of a hash among slots.
#[inline(always)]
fn bucket_of(slots: &[IndexSlot], hash: u32) -> usize
    ensures { 0 < length slots.now → result < length slots.now }
{
    hash as usize & slots.len().saturating_sub(PROBED_SLOTS + 1)
}

/// Returns where one more route goes: the first empty slot, or that of its bucket if there is none.
fn vacancy(slots: &[IndexSlot], hash: u32) -> usize
    requires { 0 < length slots.now }
    ensures { result < length slots.now }
{
    let bucket = bucket_of(slots, hash);
    for at in bucket..bucket.saturating_add(PROBED_SLOTS) {
        if let Some(slot) = slots.get(at) {
            if slot.at == 0 {
                return at;
            }
        }
    }
    bucket
}

/// Returns empty slots for this many buckets.
fn empty_slots(alloc: Global, buckets: usize) -> Result<Vec<IndexSlot>, Memory>
    ensures some { IfOk result (λ slots. 0 < vec_len slots) }
    ensures empty { IfOk result (λ slots. All (λ slot. slot.at ≡ 0) slots.items) }
{
    let count = buckets.saturating_add(PROBED_SLOTS);
    let slots = vec![in alloc; IndexSlot { hash: 0, at: 0 }; count]?;
    Ok(slots)
}

/// Returns this many buckets with the routes of other slots.
fn with_buckets(
    alloc: Global,
    slots: &[IndexSlot],
    buckets: usize,
) -> Result<Vec<IndexSlot>, Memory>
    ensures some { IfOk result (λ moved. 0 < vec_len moved) }
    ensures slots { (bytes : List ℕ) → AreSlots bytes slots.now → IfOk result (λ moved. AreSlots bytes moved.items) }
{
    let mut moved = empty_slots(alloc, buckets)?;
    for slot in slots {
        if slot.at != 0 {
            let at = vacancy(moved.as_slice(), slot.hash);
            moved[at] = *slot;
        }
    }
    Ok(moved)
}

/// Routes, which contracts see as a block of bytes (`specs/Routes.antt`). They are found by the hash of
/// their bytes (open addressing): at most three in four buckets have one, and if all slots of a bucket are taken, a
/// later route evicts the first, whose number still names it.
#[derive(Drop)]
pub struct Routes {
    bytes: Vec<u8>,
    /// One for each bucket, and those after the last bucket.
    slots: Vec<IndexSlot>,
    /// How many slots were filled.
    filled: usize,
}

impl Model for Routes {
    ghost use Rattle.std.specs.Prelude.{List, ℕ};

    ghost Value = { List ℕ };

    ghost use Rattle.adj_rib.specs.Routes.{AreSlots};

    ghost view = { λ r. r.bytes.items };

    ghost invariant = { λ r. AreSlots r.bytes.items r.slots.items };
}

impl Routes {
    /// Returns a block without routes. Allocates nothing.
    pub fn new(alloc: Global) -> Routes
        ensures { result ≡ [] }
    {
        Routes {
            bytes: Vec::new(alloc),
            slots: Vec::new(alloc),
            filled: 0,
        }
    }

    /// Removes all routes.
    pub(crate) fn clear(&mut self)
        ensures { self.new ≡ [] }
    {
        self.bytes.clear();
        self.slots.clear();
        self.filled = 0;
    }

    /// How many bytes there are.
    pub(crate) fn len(&self) -> usize
        ensures { result ≡ length self.now }
    {
        self.bytes.len()
    }

    /// Returns where a route with these bytes is, if a slot has one.
    #[inline(always)]
    fn find(&self, hash: u32, route: &[u8]) -> Option<RouteId>
        ensures { IfSome result (λ id. Names self.now id (unpacked route.now)) }
    {
        let bucket = bucket_of(self.slots.as_slice(), hash);
        for at in bucket..bucket.saturating_add(PROBED_SLOTS) {
            match self.slots.as_slice().get(at) {
                Some(slot) => {
                    if slot.at == 0 {
                        return None;
                    }
                    if slot.hash == hash
                        && are_equal(bytes_at(self.bytes.as_slice(), slot.at), route)
                    {
                        return Some(RouteId { at: slot.at });
                    }
                }
                None => return None,
            }
        }
        None
    }

    /// Makes buckets for one more route.
    fn make_buckets(&mut self, alloc: Global) -> Result<(), Memory>
        ensures { self.new ≡ self.old }
    {
        let buckets = self.slots.len().saturating_sub(PROBED_SLOTS);
        if self.filled >= buckets / 4 * 3 {
            let more = buckets.saturating_mul(2).max(FIRST_BUCKETS);
            self.slots = with_buckets(alloc, self.slots.as_slice(), more)?;
        }
        Ok(())
    }

    /// Adds a route that no slot has, and returns its number.
    #[inline(never)]
    fn add(&mut self, alloc: Global, hash: u32, route: &[u8]) -> Result<RouteId, Memory>
        requires { IsPacked route.now }
        ensures names { IfOk result (λ id. Names self.new id (unpacked route.now)) }
        ensures grows { IsGrown self.old self.new }
    {
        self.make_buckets(alloc)?;
        let id = push_route(&mut self.bytes, route)?;
        if !self.slots.is_empty() {
            let at = vacancy(self.slots.as_slice(), hash);
            self.slots[at] = IndexSlot { hash, at: id.at };
            self.filled = self.filled.saturating_add(1);
        }
        Ok(id)
    }

    /// Returns the number of a route with these packed bytes, which are added if no slot has them.
    #[inline(always)]
    fn intern_bytes(&mut self, alloc: Global, hash: u32, route: &[u8]) -> Result<RouteId, Memory>
        requires { IsPacked route.now }
        ensures names { IfOk result (λ id. Names self.new id (unpacked route.now)) }
        ensures grows { IsGrown self.old self.new }
    {
        match self.find(hash, route) {
            Some(id) => Ok(id),
            None => self.add(alloc, hash, route),
        }
    }

    /// Returns the number of a route, which is added if no slot has it. What numbers name stays.
    #[inline(always)]
    pub fn intern(&mut self, alloc: Global, hashed: &HashedRoute<'_>) -> Result<RouteId, Memory>
        ensures names { IfOk result (λ id. Names self.new id hashed.now.route) }
        ensures grows { IsGrown self.old self.new }
        ensures stays { StaysNamed self.old self.new }
    {
        self.intern_bytes(alloc, hashed.hash, hashed.route.as_bytes())
    }

    /// The route of a number.
    #[inline(always)]
    pub fn route(&self, id: RouteId) -> RouteRef<'_>
        requires { IsNamed self.now id.at }
        ensures { result ≡ routes.route_at self.now id.at }
    {
        RouteRef::of_bytes(bytes_at(self.bytes.as_slice(), id.at))
    }

    /// Whether two numbers name equal routes.
    #[inline(always)]
    pub(crate) fn are_same(&self, one: RouteId, other: RouteId) -> bool
        requires one { IsNamed self.now one.at }
        requires other { IsNamed self.now other.at }
        ensures { result ≡ route_eq (routes.route_at self.now one.at) (routes.route_at self.now other.at) }
    {
        self.route(one).is_same(&self.route(other))
    }

    /// Prefetches the slot where this route would be. The result only keeps the read alive.
    #[inline(always)]
    pub(crate) fn prefetch_slot(&self, route: RouteSpan) -> usize {
        let slots = self.slots.as_slice();
        match slots.get(bucket_of(slots, route.hash())) {
            Some(slot) => slot.at as usize,
            None => 0,
        }
    }

    /// Prefetches the route with this hash, if the slot of its bucket has it or the next one: its first and its last
    /// byte may be in different cache lines. The result only keeps the read alive.
    #[inline(always)]
    pub(crate) fn prefetch_route(&self, route: RouteSpan) -> usize {
        let slots = self.slots.as_slice();
        let bytes = self.bytes.as_slice();
        let bucket = bucket_of(slots, route.hash());
        // Nothing branches on which slot it is: a branch that is guessed wrong ends the reads of the routes after it.
        let next = match slots.get(bucket) {
            Some(slot) => (slot.hash != route.hash()) as usize,
            None => 0,
        };
        match slots.get(bucket.saturating_add(next)) {
            Some(slot) => {
                let first = slot.at as usize;
                byte_at(bytes, first) ^ byte_at(bytes, first.saturating_add(route.len()))
            }
            None => 0,
        }
    }
}
