//! The dealing of what files give to the lanes.

ghost use Rattle.std.specs.Prelude.{◌≡◌, ℕ, ◌+◌, ◌-◌, ◌^◌, ◌<◌, ◌≤◌, min, [], length, map, IfOk, None};
ghost use Rattle.std.specs.Option.{ForSome};
ghost use Rattle.peer_units.specs.Payloads.{IsSmallUnit};
ghost use Rattle.lane_deal.specs.Asking.{Lists, ReadsOn};

use crate::dealing::Dealing;
use crate::gate::Gate;
use crate::halves::Deals;
use crate::lane_sender::LaneSenderOf;
use crate::receives::Receives;
use crate::step::Step;
use bgp_prefix::{Memory, Prefix};
use bgp_update::{Rules, Unicast};
use mrt_body::{Lent, LentUnits, Units};
use mrt_frame::{ReplayError, Source};
use peer_tables::Peers;
use peer_units::{Damage, PayloadBytes, PeerKey, Unit, UnitRef};
use std::alloc::Global;
use std::sync::atomic::AtomicBool;

/// Deals what the files yield.
#[derive(Drop)]
pub struct Dealer<D, P = Prefix, K = Rules> {
    pub dealing: D,
    pub peers: Peers,
    /// The unit whose lane's ring was full. It is the next to be dealt.
    pub blocked_unit: Option<Unit<PayloadBytes, P, K>>,
    pub refused: Vec<Damage>,
    /// The number of units dealt. Saturates at `u64::MAX`.
    pub dealt: u64,
    ghost small: { ForSome blocked_unit IsSmallUnit },
}

/// Deals what the files yield to lanes of a family.
pub type DealerOf<D, F> = Dealer<D, Prefix<F>, Rules<F>>;

/// Lists what the files refuse, until a unit of theirs is to be dealt or they end.
fn list_refusals<F: Unicast, R: Source>(
    alloc: Global,
    units: &mut Units<F>,
    files: &mut [R],
    refused: &mut Vec<Damage>,
) -> Result<(), ReplayError>
    requires { length files.old ≡ units.old.count }
    ensures reads { ReadsOn units.old (map R.remaining files.old) (map R.failure_count files.old) units.new
        (map R.failure_count files.new) result }
    ensures asked { Lists refused.old.items refused.new.items units.old (map R.remaining files.old) units.new
        (map R.remaining files.new) result }
{
    while let Some(damage) = units.advance(alloc, files)? {
        refused.push(damage)?;
    }
    Ok(())
}

impl<F: Unicast, D: Dealing> Dealer<D, Prefix<F>, Rules<F>> {
    ghost use Rattle.lane_deal.specs.DealerSteps.{DealsBlocked, DealsFront, DealsTo, DealsUnit};
    ghost use Rattle.mrt_body.specs.Pending.{units_lent};
    ghost use Rattle.peer_units.specs.Plain.{Unit as ReplayUnit};
    ghost use Rattle.mrt_body.specs.declared.lent_units.Lent.TheVariants as Lent;
    ghost use Rattle.lane_deal.specs.Results.{IfAnswered};
    ghost use Rattle.peer_tables.specs.Numbers.{NumbersPeer};

    pub fn new(alloc: Global, dealing: D) -> Result<DealerOf<D, F>, Memory>
    where
        D: Drop,
        ensures { IfOk result (λ dealer. (dealer.dealing ≡ dealing) × (dealer.peers ≡ []) ×
            (dealer.blocked_unit ≡ None) × (dealer.refused.items ≡ []) × (dealer.dealt ≡ 0)) }
    {
        Ok(Dealer {
            dealing,
            peers: Peers::new(alloc)?,
            blocked_unit: None,
            refused: Vec::new(alloc),
            dealt: 0,
        })
    }

    /// Each lane is one of so many.
    pub fn lanes_are_below(&self, workers: usize)
        requires { 0 < workers }
        ensures { (number : ℕ) → D.lane_of self.now.dealing number workers < workers }
    {}

    /// Returns the number of this peer, which gets the next one if it has none, and the number of its lane. The peer
    /// has this index in the index table if it has one.
    #[inline(always)]
    fn lane_for(
        &mut self,
        peer: &PeerKey,
        index: Option<u16>,
        lanes: usize,
    ) -> Result<(usize, usize), Memory>
        requires { 0 < lanes }
        ensures numbers { IfOk result
            (λ found. NumbersPeer self.old.peers self.new.peers peer.now found.0) }
        ensures lane { IfOk result (λ found. found.1 ≡ D.lane_of self.old.dealing found.0 lanes) }
        ensures same { self.new ≡ record self.old { peers = self.new.peers } }
    {
        let number = self.peers.number_of(peer, index)?;
        Ok((number, self.dealing.lane(number, lanes)))
    }

    /// How many units were dealt is a number of 64 bits. Does nothing.
    fn is_counted(&self)
        ensures { self.now.dealt ≡ min (self.now.dealt + 0) (2 ^ 64 - 1) }
    {
        // A hint for the proof: what holds of the count is known once it is read.
        let _dealt = self.dealt;
    }

    /// Deals this unit, unless its lane has no room and still none at this many further looks. Returns whether it was
    /// dealt. Its peer has this index in the index table if it has one.
    #[inline(always)]
    fn deal_unit<G: Gate, K: Receives<Addr = F>>(
        &mut self,
        alloc: Global,
        gate: &G,
        looks: u32,
        round_over: &AtomicBool,
        unit: &UnitRef<'_, F>,
        index: Option<u16>,
        to: &mut K,
    ) -> Result<bool, Memory>
        requires lanes { 0 < K.count to.old }
        requires small { IsSmallUnit unit.now }
        ensures lanes { K.count to.new ≡ K.count to.old }
        ensures deals { IfOk result
            (DealsUnit (K.received (λ number. D.lane_of self.old.dealing number (K.count to.old)))
            (λ number. D.lane_of self.old.dealing number (K.count to.old)) (K.room to.old) to.old to.new self.old self.new
            unit.now) }
    {
        let (number, lane) = self.lane_for(&unit.peer, index, to.lanes())?;
        to.adds_up();
        if !to.has_room(gate, lane, looks, round_over) {
            return Ok(false);
        }
        to.receive(alloc, gate, lane, number, unit)?;
        self.dealt = self.dealt.saturating_add(1);
        Ok(true)
    }

    /// Deals the unit that is blocked, if there is one and its lane has room. Returns how many were dealt.
    #[inline(never)]
    fn deal_blocked<G: Gate, K: Receives<Addr = F>>(
        &mut self,
        alloc: Global,
        gate: &G,
        looks: u32,
        round_over: &AtomicBool,
        to: &mut K,
    ) -> Result<u64, Memory>
        requires lanes { 0 < K.count to.old }
        ensures lanes { K.count to.new ≡ K.count to.old }
        ensures deals { IfOk result (λ dealt.
            DealsBlocked (K.received (λ number. D.lane_of self.old.dealing number (K.count to.old)))
            (λ number. D.lane_of self.old.dealing number (K.count to.old)) (K.room to.old) to.old to.new self.old self.new
            dealt) }
    {
        to.adds_up();
        self.is_counted();
        let Some(unit) = self.blocked_unit.take() else {
            return Ok(0);
        };
        if !self.deal_unit(alloc, gate, looks, round_over, &unit.as_ref(), None, to)? {
            self.blocked_unit = Some(unit);
            return Ok(0);
        }
        Ok(1)
    }

    /// Deals at most so many of the units that are lent, until one is blocked. Returns how many were dealt or blocked.
    #[inline(always)]
    fn deal_lent<G: Gate, K: Receives<Addr = F>>(
        &mut self,
        alloc: Global,
        gate: &G,
        most: u64,
        looks: u32,
        round_over: &AtomicBool,
        lent: LentUnits<'_, F>,
        to: &mut K,
    ) -> Result<u64, Memory>
        requires lanes { 0 < K.count to.old }
        requires free { self.old.blocked_unit ≡ None }
        requires some { 0 < most }
        requires small { (unit : ReplayUnit) → lent ≡ Lent.Unit unit → IsSmallUnit unit }
        ensures lanes { K.count to.new ≡ K.count to.old }
        ensures deals { IfOk result
            (DealsFront (K.received (λ number. D.lane_of self.old.dealing number (K.count to.old)))
            (λ number. D.lane_of self.old.dealing number (K.count to.old)) (K.room to.old) to.old to.new self.old self.new
            (units_lent lent.entry)) }
        ensures few { IfOk result (λ taken. taken ≤ most) }
        ensures some { IfOk result (λ taken. taken ≡ 0 → units_lent lent.entry ≡ []) }
    {
        to.adds_up();
        self.is_counted();
        match lent {
            Lent::None => Ok(0),
            Lent::Unit(unit) => {
                if !self.deal_unit(alloc, gate, looks, round_over, &unit, None, to)? {
                    self.blocked_unit = Some(unit.to_unit(alloc)?);
                }
                Ok(1)
            }
            Lent::Entries(mut entries) => {
                for taken in 0..most {
                    let Some((unit, index)) = entries.next() else {
                        return Ok(taken);
                    };
                    let index = Some(index);
                    if !self.deal_unit(alloc, gate, looks, round_over, &unit, index, to)? {
                        self.blocked_unit = Some(unit.to_unit(alloc)?);
                        return Ok(taken + 1);
                    }
                }
                Ok(most)
            }
        }
    }

    /// Deals until a lane has no room and still none at this many further looks, a batch is dealt or the files end. The
    /// unit that is blocked comes first; then the files are asked for one record after another.
    pub fn deal<R: Source, G: Gate, K: Receives<Addr = F>>(
        &mut self,
        alloc: Global,
        gate: &G,
        batch: u64,
        looks: u32,
        round_over: &AtomicBool,
        units: &mut Units<F>,
        files: &mut [R],
        to: &mut K,
    ) -> Result<Step, ReplayError>
        requires lanes { 0 < K.count to.old }
        requires files { length files.old ≡ units.old.count }
        ensures reads { ReadsOn units.old (map R.remaining files.old) (map R.failure_count files.old) units.new
            (map R.failure_count files.new) result }
        ensures lanes { K.count to.new ≡ K.count to.old }
        ensures at_end { result ≡ Ok Step.End → units.new.file ≡ units.new.count }
        ensures deals { IfAnswered result
            (DealsTo (K.received (λ number. D.lane_of self.old.dealing number (K.count to.old)))
            (λ number. D.lane_of self.old.dealing number (K.count to.old)) batch (K.room to.old) to.old to.new self.old
            self.new units.old (map R.remaining files.old) units.new (map R.remaining files.new) result) }
    {
        to.adds_up();
        self.is_counted();
        if batch == 0 {
            return Ok(Step::FullBatch);
        }
        let mut left = batch - self.deal_blocked(alloc, gate, looks, round_over, to)?;
        if self.blocked_unit.is_some() {
            return Ok(Step::Blocked);
        }
        while 0 < left {
            list_refusals(alloc, units, files, &mut self.refused)?;
            let lent = units.lend();
            let taken = self.deal_lent(alloc, gate, left, looks, round_over, lent, to)?;
            if taken == 0 {
                return Ok(Step::End);
            }
            units.consume(taken as usize);
            if self.blocked_unit.is_some() {
                return Ok(Step::Blocked);
            }
            left -= taken;
        }
        Ok(Step::FullBatch)
    }
}

impl<F: Unicast, D: Dealing> Deals for Dealer<D, Prefix<F>, Rules<F>> {
    type Addr = F;

    ghost Way = { D };

    ghost dealer = { λ d. d };

    ghost lane_of = { D.lane_of };

    fn deal_on<R: Source, G: Gate>(
        &mut self,
        alloc: Global,
        gate: &G,
        batch: u64,
        looks: u32,
        round_over: &AtomicBool,
        units: &mut Units<F>,
        files: &mut [R],
        senders: &mut Vec<LaneSenderOf<F>>,
    ) -> Result<Step, ReplayError> {
        self.deal(alloc, gate, batch, looks, round_over, units, files, senders)
    }
}
