//! The numbers of peers.

ghost use Rattle.std.specs.Prelude.{◌≡◌, [], IfOk, IfSome, OnErr, false, MatchOption, slice_get, Some, true};
ghost use Rattle.std.specs.List.{list_any};
ghost use Rattle.peer_tables.specs.Numbers.{NumbersPeer};
ghost use Rattle.peer_tables.specs.Peers.{addr_eq, peer_eq};

use bgp_prefix::Memory;
use peer_units::{PeerAddr, PeerKey};
use std::alloc::Global;
use std::collections::HashMap;
use std::marker::Model;

/// How many slots hold the number of a peer seen before: as many as ten bits can index.
const RECENT: usize = 1_024;

/// How many slots indexes have: a peer's slot is its index in the PEER_INDEX_TABLE modulo this.
const INDEX_SLOTS: u16 = 1_024;

/// The different peers so far, each of which has the next number when it first appears. Contracts see the list of
/// them, by number. To find a peer takes the same time however many there are.
#[derive(Drop)]
pub struct Peers {
    keys: Vec<PeerKey>,
    /// The number of each peer.
    numbers: HashMap<PeerKey, usize>,
    /// The number of the last peer at each slot: usually the one that is looked up. The slots of the peers of an index
    /// table are their indexes, so the numbers of its peers stay there.
    recent: Vec<usize>,
}

impl Model for Peers {
    ghost use Rattle.std.specs.Prelude.{List};
    ghost use Rattle.std.specs.HashMap as hash;
    ghost use Rattle.peer_units.specs.contracts.unit.PeerKeyPartialEq.TheImpl as key_impl;
    ghost use Rattle.peer_units.specs.declared.unit.PeerKey.{PeerKey as Peer};
    ghost use Rattle.peer_tables.specs.Numbers.{AreApart, FindsIndexIn};

    ghost Value = { List Peer };

    ghost view = { λ p. p.keys.items };

    ghost invariant = { λ p. AreApart p.keys.items ×
        FindsIndexIn (hash.get key_impl.eq-value.it p.numbers) p.keys.items };
}

/// The slot of a peer, below `RECENT`: its index in the index table, or a hash. Peers may share one.
#[inline(always)]
fn recent_slot(peer: &PeerKey, index: Option<u16>) -> usize {
    match index {
        Some(index) => (index % INDEX_SLOTS) as usize,
        None => hashed_slot(peer),
    }
}

/// Returns a hash of a peer, below `RECENT`.
fn hashed_slot(peer: &PeerKey) -> usize {
    let low = match peer.addr {
        PeerAddr::V4(addr) => u64::from(addr),
        PeerAddr::V6(addr) => (addr & 0xFFFF_FFFF_FFFF_FFFF) as u64,
    };
    let mixed = (low.rotate_left(32) ^ u64::from(peer.asn)).wrapping_mul(0x9e37_79b9_7f4a_7c15);
    (mixed >> 54) as usize
}

/// Whether they are the same peer.
fn is_same_peer(peer: &PeerKey, other: &PeerKey) -> bool
    ensures { result ≡ peer_eq peer.now other.now }
{
    peer.asn == other.asn && is_same_addr(&peer.addr, &other.addr)
}

fn is_same_addr(addr: &PeerAddr, other: &PeerAddr) -> bool
    ensures { result ≡ addr_eq addr.now other.now }
{
    match addr {
        PeerAddr::V4(a) => match other {
            PeerAddr::V4(b) => *a == *b,
            PeerAddr::V6(_) => false,
        },
        PeerAddr::V6(a) => match other {
            PeerAddr::V6(b) => *a == *b,
            PeerAddr::V4(_) => false,
        },
    }
}

/// Whether this peer has this number.
fn seen_at(keys: &[PeerKey], number: usize, peer: &PeerKey) -> bool
    ensures { result ≡ true → slice_get keys.now number ≡ Some peer.now }
{
    match keys.get(number) {
        Some(key) => is_same_peer(peer, key),
        None => false,
    }
}

impl Peers {
    /// Returns no peers.
    pub fn new(alloc: Global) -> Result<Peers, Memory>
        ensures { IfOk result (λ peers. peers ≡ []) }
    {
        Ok(Peers {
            keys: Vec::new(alloc),
            numbers: HashMap::new(alloc),
            recent: vec![in alloc; 0; RECENT]?,
        })
    }

    /// Returns the number of this peer if the slot holds it.
    #[inline(always)]
    fn recent_at(&self, slot: usize, peer: &PeerKey) -> Option<usize>
        ensures { IfSome result (NumbersPeer self.now self.now peer.now) }
    {
        let number = *self.recent.get(slot)?;
        if seen_at(&self.keys, number, peer) {
            Some(number)
        } else {
            None
        }
    }

    /// Lets the slot hold this number.
    #[inline(always)]
    fn remember(&mut self, slot: usize, number: usize)
        ensures { self.new ≡ self.old }
    {
        if let Some(recent) = self.recent.get_mut(slot) {
            *recent = number;
        }
    }

    /// Returns the number of a peer seen before, which no slot need hold.
    fn look_up(&self, peer: &PeerKey) -> Option<usize>
        ensures { MatchOption result
            (list_any (peer_eq peer.now) self.now ≡ false) (NumbersPeer self.now self.now peer.now) }
    {
        match self.numbers.get(peer).copied() {
            Some(number) => Some(number),
            None => None,
        }
    }

    /// Returns the number of a peer seen before, which has this index in the index table if it has one.
    pub fn find(&mut self, peer: &PeerKey, index: Option<u16>) -> Option<usize>
        ensures same { self.new ≡ self.old }
        ensures found { MatchOption result
            (list_any (peer_eq peer.now) self.old ≡ false) (λ number. slice_get self.old number ≡ Some peer.now) }
    {
        let slot = recent_slot(peer, index);
        if let Some(number) = self.recent_at(slot, peer) {
            return Some(number);
        }
        let number = self.look_up(peer)?;
        self.remember(slot, number);
        Some(number)
    }

    /// Gives a new peer the next number, which it returns.
    pub fn add(&mut self, peer: &PeerKey) -> Result<usize, Memory>
        requires { list_any (peer_eq peer.now) self.old ≡ false }
        ensures numbers { IfOk result (NumbersPeer self.old self.new peer.now) }
        ensures same { OnErr result (self.new ≡ self.old) }
    {
        let number = self.keys.len();
        self.keys.reserve(1)?;
        self.numbers.insert(*peer, number)?;
        self.keys.push_reserved(*peer);
        Ok(number)
    }

    /// Returns the number of a peer whose slot holds another one. It is seldom needed, and its locals are no part of
    /// the dealer's loop.
    #[inline(never)]
    fn find_or_add(&mut self, peer: &PeerKey) -> Result<usize, Memory>
        ensures numbers { IfOk result (NumbersPeer self.old self.new peer.now) }
        ensures same { OnErr result (self.new ≡ self.old) }
    {
        if let Some(number) = self.look_up(peer) {
            return Ok(number);
        }
        self.add(peer)
    }

    /// Returns the number of a peer, which has this index in the index table if it has one. A peer is numbered when it
    /// first appears.
    #[inline(always)]
    pub fn number_of(&mut self, peer: &PeerKey, index: Option<u16>) -> Result<usize, Memory>
        ensures numbers { IfOk result (NumbersPeer self.old self.new peer.now) }
        ensures same { OnErr result (self.new ≡ self.old) }
    {
        let slot = recent_slot(peer, index);
        if let Some(number) = self.recent_at(slot, peer) {
            return Ok(number);
        }
        let number = self.find_or_add(peer)?;
        self.remember(slot, number);
        Ok(number)
    }
}
