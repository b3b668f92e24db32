//! The units that are still to be returned, beside the entries of a RIB record.

ghost use Rattle.std.specs.Prelude.{◌≡◌, ◌∷◌, ◌++◌, ◌↔◌, [], IfSome, None, drop, false, map, option_to_list};
ghost use Rattle.mrt_body.specs.Waiting as waiting_spec;

use crate::bgp4mp::StateChange;
use crate::body_unit::{BodyUnit, block_of};
use crate::payload::change_unit;
use crate::record_place::RecordAt;
use bgp_update::Unicast;
use peer_units::{Payload, PeerKey, StateRule, Unit};
use std::alloc::Global;
use std::collections::VecDeque;
use std::marker::Model;

/// What one record says of several peers alike.
#[derive(Clone, Copy)]
pub(crate) enum Told {
    /// A RIB dump begins that clears their tables.
    Clear,
    /// A state change, and the rule by which it is taken.
    Change(StateChange, StateRule),
}

impl Told {
    /// Returns the unit of one of them, by a record at this place.
    fn unit<F: Unicast>(&self, at: &RecordAt, peer: PeerKey) -> BodyUnit<F>
        ensures { result ≡ waiting_spec.told_unit at.now self.now peer }
    {
        match self {
            Told::Clear => Unit {
                place: at.place(None),
                time: at.time(0),
                peer,
                payload: Payload::Clear,
            },
            Told::Change(change, rule) => change_unit(*rule, *at, change, peer),
        }
    }
}

/// The unit of the BGP4MP or TABLE_DUMP record that was cut last, or what it says of several peers, or the clears of
/// the RIB dump that began last, as far as they are still to be returned.
#[derive(Drop)]
pub(crate) struct Waiting<F: Unicast> {
    first: Option<BodyUnit<F>>,
    /// The peers of the units behind the first one.
    others: VecDeque<PeerKey>,
    /// What is said of them, and where.
    told: Told,
    at: RecordAt,
}

impl<F: Unicast> Model for Waiting<F> {
    ghost use Rattle.std.specs.Prelude.{◌≡◌, ◌++◌, List, [], None, map, option_to_list};
    ghost use Rattle.peer_units.specs.Plain.{Unit as ReplayUnit};
    ghost use Rattle.mrt_body.specs.Waiting.{told_unit};

    ghost Value = { List ReplayUnit };

    ghost view = { λ w. option_to_list w.first ++ map (told_unit w.at w.told) w.others.items };

    ghost invariant = { λ w. w.first ≡ None → w.others.items ≡ [] };
}

/// Takes out the unit of the first of these peers.
#[inline(never)]
fn next_told<F: Unicast>(
    at: &RecordAt,
    told: &Told,
    peers: &mut VecDeque<PeerKey>,
) -> Option<BodyUnit<F>>
    ensures gives { map (waiting_spec.told_unit at.now told.now) peers.old.items
        ≡ option_to_list result ++ map (waiting_spec.told_unit at.now told.now) peers.new.items }
    ensures none { result ≡ None → peers.new.items ≡ [] }
{
    let peer = peers.pop_front()?;
    Some(told.unit(at, peer))
}

impl<F: Unicast> Waiting<F> {
    /// Returns none. Allocates nothing.
    pub(crate) fn new(alloc: Global) -> Waiting<F>
        ensures { result ≡ [] }
    {
        Waiting {
            first: None,
            others: VecDeque::new(alloc),
            told: Told::Clear,
            at: RecordAt {
                file: 0,
                offset: 0,
                seconds: 0,
            },
        }
    }

    /// Whether a unit is to be returned.
    #[inline(always)]
    pub(crate) fn is_pending(&self) -> bool
        ensures { result ≡ false ↔ (self.now ≡ []) }
    {
        self.first.is_some()
    }

    /// Keeps a unit to be returned.
    #[inline(always)]
    pub(crate) fn put(&mut self, unit: BodyUnit<F>)
        requires { self.old ≡ [] }
        ensures { self.new ≡ unit ∷ [] }
    {
        self.first = Some(unit);
    }

    /// Keeps to be returned what a record at this place says of these peers.
    pub(crate) fn put_told(&mut self, at: RecordAt, told: Told, peers: VecDeque<PeerKey>)
        requires { self.old ≡ [] }
        ensures { self.new ≡ map (waiting_spec.told_unit at told) peers.items }
    {
        let mut others = peers;
        let first = next_told(&at, &told, &mut others);
        self.first = first;
        self.at = at;
        self.told = told;
        self.others = others;
    }

    /// Skips what is still to be returned.
    pub(crate) fn leave_out(&mut self)
        ensures { self.new ≡ [] }
    {
        self.first = None;
        self.others.clear();
    }

    /// Lends the next unit, if there is one.
    #[inline(always)]
    pub(crate) fn lend(&self) -> Option<&BodyUnit<F>>
        ensures lends { IfSome result (λ unit. self.now ≡ unit.now ∷ drop 1 self.now) }
        ensures none { result ≡ None → self.now ≡ [] }
    {
        self.first.as_ref()
    }

    /// The peers of the units behind the next one.
    pub(crate) fn others(&self) -> &VecDeque<PeerKey> {
        &self.others
    }

    /// Leaves the next unit behind, and returns the memory of its record, if it keeps it.
    #[inline(always)]
    pub(crate) fn consume(&mut self) -> Option<Vec<u8>>
        ensures { self.new ≡ drop 1 self.old }
    {
        let unit = self.first.take()?;
        if !self.others.is_empty() {
            self.first = next_told(&self.at, &self.told, &mut self.others);
        }
        block_of(unit)
    }
}
