//! The replay of files by workers in lanes, round by round.

ghost use Rattle.std.specs.Prelude.{◌≡◌, ◌≢◌, ◌<◌, ℕ, IfErr, false, length};
ghost use Rattle.lane_deal.specs.LaneRings.{AreReady};
ghost use Rattle.mrt_frame.specs.declared.read_state.ReadState.TheVariants.{Spent};
ghost use Rattle.lane_deal.specs.Results.{StateAfter};
ghost use Rattle.lane_deal.specs.Replayers.{StandsForSome};
ghost use Rattle.lane_deal.specs.Shown.{state_at};

use crate::collecting::collect_lanes;
use crate::dealer::{Dealer, DealerOf};
use crate::dealing::Dealing;
use crate::gate::Gate;
use crate::lane::make_lanes;
use crate::lane_sender::LaneSenderOf;
use crate::plan::Plan;
use crate::round::{run_round, settle_lanes};
use crate::seats::Seats;
use crate::step::Step;
use crate::worker::{RoundLimits, WorkerOf};
use adj_rib::RouteId;
use bgp_prefix::{Memory, PrefixMap};
use bgp_update::Unicast;
use mrt_body::Units;
use mrt_frame::{ReadState, ReplayError, Source};
use peer_tables::{Tables, count_routes};
use std::alloc::Global;
use std::thread::Threads;

/// Deals what the files yield to lanes, round by round.
#[derive(Drop)]
pub struct Replayer<M: PrefixMap<RouteId>, D: Dealing>
where
    M::Addr: Unicast,
{
    plan: Plan,
    dealer: DealerOf<D, M::Addr>,
    senders: Vec<LaneSenderOf<M::Addr>>,
    workers: Vec<WorkerOf<Seats<M>, M::Addr>>,
    rounds: u64,
    state: ReadState,
    /// The file at which a read failed, where the state says so.
    failed_file: usize,
    ghost lanes: { 0 < length senders.items },
    ghost ready: { state ≢ Spent → AreReady plan.ring senders.items workers.items },
    ghost stands: { state ≢ Spent → ∥ StandsForSome (D.lane_of dealer.dealing) plan.ring
        (state_at dealer senders.items workers.items false) ∥₁ },
}

fn state_after(answer: &Result<Step, ReplayError>) -> ReadState
    ensures { StateAfter answer.now result }
{
    match answer {
        Ok(Step::End) => ReadState::Ended,
        Ok(_) => ReadState::Reading,
        Err(error) => ReadState::after(*error),
    }
}

/// Returns the file at which a read failed, or 0.
fn failed_file(answer: &Result<Step, ReplayError>) -> usize
    ensures { IfErr answer.now (λ e. (file : ℕ) → e ≡ ReplayError.Read file → result ≡ file) }
{
    match answer {
        Err(ReplayError::Read { file }) => *file,
        _ => 0,
    }
}

impl<F: Unicast + Send, M: PrefixMap<RouteId, Addr = F> + Send + Drop, D: Dealing + Send> Replayer<
    M,
    D,
> {
    ghost use Rattle.std.specs.Prelude.{◌≡◌, ◌≢◌, ◌<◌, ◌+◌, ℕ, IfOk, Ok, OnOk, OnErr, IfErr, None, length, map, min, ◌^◌, ◌-◌, []};
    ghost use Rattle.mrt_frame.specs.Frames.{Repeats};
    ghost use Rattle.mrt_frame.specs.declared.read_state.ReadState.TheVariants.{Reading, Spent};
    ghost use Rattle.lane_deal.specs.Results.{IfAnswered};
    ghost use Rattle.lane_deal.specs.Asking.{ReadsOn};
    ghost use Rattle.lane_deal.specs.Plans.{IsPlan};
    ghost use Rattle.lane_deal.specs.Playing.{shown, PlaysOn};
    ghost use Rattle.lane_deal.specs.Replayers.{ReplayerStandsFor};
    ghost use Rattle.lane_deal.specs.Rounds.{Settles, IsSettled};

    /// Makes a replayer with empty lanes.
    pub fn new(alloc: Global, plan: Plan, dealing: D) -> Result<Replayer<M, D>, Memory>
    where
        D: Drop,
        requires { IsPlan plan }
        ensures reading { IfOk result (λ replayer. (replayer.state ≡ Reading) × (replayer.rounds ≡ 0) ×
            (replayer.dealer.blocked_unit ≡ None)) }
        ensures plan { IfOk result (λ replayer. (replayer.plan ≡ plan) × (replayer.dealer.dealing ≡ dealing)) }
        ensures lanes { IfOk result (λ replayer. length (shown replayer).lanes ≡ plan.workers) }
        ensures settled { IfOk result (λ replayer. IsSettled (shown replayer)) }
        ensures stands { IfOk result
            (λ replayer. ReplayerStandsFor (D.lane_of dealing) plan.ring [] [] (shown replayer)) }
    {
        let (senders, workers) = make_lanes(alloc, plan.ring, plan.workers)?;
        Ok(Replayer {
            plan,
            dealer: Dealer::new(alloc, dealing)?,
            senders,
            workers,
            rounds: 0,
            state: ReadState::Reading,
            failed_file: 0,
        })
    }

    fn limits(&self) -> RoundLimits
        ensures { result.batch ≡ self.now.plan.batch }
    {
        RoundLimits {
            looks: self.plan.looks,
            batch: self.plan.batch,
        }
    }

    /// Runs one round: deals while the workers take.
    pub fn round<T: Threads + Sync, R: Source + Send, G: Gate + Sync>(
        &mut self,
        rt: &T,
        alloc: Global,
        units: &mut Units<F>,
        files: &mut [R],
        gate: &G,
    ) -> Result<Step, ReplayError>
        requires { length files.old ≡ units.old.count }
        ensures count { units.new.count ≡ units.old.count }
        ensures reads { self.old.state ≡ Reading → ReadsOn units.old (map R.remaining files.old)
            (map R.failure_count files.old) units.new (map R.failure_count files.new) result }
        ensures at_end { self.old.state ≡ Reading → result ≡ Ok Step.End → units.new.file ≡ units.new.count }
        ensures forks { self.old.state ≡ Reading → self.new.rounds ≡ min (self.old.rounds + 1) (2 ^ 64 - 1) }
        ensures played { self.old.state ≡ Reading → IfAnswered result
            (PlaysOn (D.lane_of self.old.dealer.dealing) self.old.plan (shown self.old) (shown self.new) units.old
            (map R.remaining files.old) units.new (map R.remaining files.new) result) }
        ensures kept { (self.new.plan ≡ self.old.plan) × (self.old.state ≡ Reading → IfAnswered result
            (self.new.dealer.dealing ≡ self.old.dealer.dealing)) }
        ensures idle { self.old.state ≢ Reading → (self.new ≡ self.old) × (units.new ≡ units.old) ×
            (files.new ≡ files.old) }
        ensures repeats { Repeats Step.End self.old.state self.old.failed_file result }
        ensures state { self.old.state ≡ Reading → StateAfter result self.new.state }
        ensures failed { self.old.state ≡ Reading → IfErr result
            (λ e. (file : ℕ) → e ≡ ReplayError.Read file → self.new.failed_file ≡ file) }
    {
        match self.state {
            ReadState::Reading => {}
            ReadState::Ended => return Ok(Step::End),
            ReadState::Failed => {
                return Err(ReplayError::Read {
                    file: self.failed_file,
                });
            }
            ReadState::Spent => return Err(ReplayError::Spent),
        }
        self.rounds = self.rounds.saturating_add(1);
        let limits = self.limits();
        let lanes = self.senders.len();
        self.dealer.lanes_are_below(lanes);
        let answer = run_round(
            rt,
            alloc,
            self.plan.ring,
            gate,
            limits,
            &mut self.dealer,
            units,
            files,
            &mut self.senders,
            &mut self.workers,
        );
        self.state = state_after(&answer);
        self.failed_file = failed_file(&answer);
        answer
    }

    /// Runs one round without dealing, after which all rings are empty.
    pub fn settle<T: Threads + Sync, G: Gate + Sync>(
        &mut self,
        rt: &T,
        alloc: Global,
        gate: &G,
    ) -> Result<(), ReplayError>
        ensures forks { self.old.state ≢ Spent → self.new.rounds ≡ min (self.old.rounds + 1) (2 ^ 64 - 1) }
        ensures memory { self.old.state ≢ Spent → IfErr result (λ e. e ≡ ReplayError.Memory) }
        ensures settled { OnOk result
            (Settles (D.lane_of self.old.dealer.dealing) self.old.plan.ring (shown self.old) (shown self.new)) }
        ensures kept { (self.new.plan ≡ self.old.plan) × (self.new.dealer ≡ self.old.dealer) }
        ensures same { OnOk result (self.new.state ≡ self.old.state) }
        ensures spent { OnErr result (self.new.state ≡ Spent) }
        ensures idle { self.old.state ≡ Spent → (self.new ≡ self.old) × (result ≡ Err ReplayError.Spent) }
    {
        if let ReadState::Spent = self.state {
            return Err(ReplayError::Spent);
        }
        self.rounds = self.rounds.saturating_add(1);
        let limits = self.limits();
        let settled = settle_lanes(
            rt,
            alloc,
            self.plan.ring,
            gate,
            limits,
            &mut self.senders,
            &mut self.workers,
        );
        let Ok(()) = settled else {
            self.state = ReadState::Spent;
            return Err(ReplayError::Memory);
        };
        Ok(())
    }
}

impl<F: Unicast, M: PrefixMap<RouteId, Addr = F> + Drop, D: Dealing + Drop> Replayer<M, D> {
    ghost use Rattle.std.specs.Prelude.{◌≡◌, ◌≢◌, List, IfOk, IfErr};
    ghost use Rattle.peer_units.specs.declared.unit.Damage.{Damage};
    ghost use Rattle.peer_units.specs.Plain.{Unit as ReplayUnit};
    ghost use Rattle.peer_tables.specs.Tables.{tables_of};
    ghost use Rattle.mrt_frame.specs.declared.read_state.ReadState.TheVariants.{Spent};
    ghost use Rattle.lane_deal.specs.Playing.{shown};
    ghost use Rattle.lane_deal.specs.Replayers.{ReplayerStandsFor};
    ghost use Rattle.lane_deal.specs.Rounds.{IsSettled};

    /// Returns the tables of all dealt units. If an allocation fails, the replayer comes back as it was.
    pub fn into_tables(self, alloc: Global) -> Result<Tables<M>, (Replayer<M, D>, ReplayError)>
        requires { self.state ≢ Spent → IsSettled (shown self) }
        ensures tables { (units : List ReplayUnit) (refused : List Damage) →
            ReplayerStandsFor (D.lane_of self.dealer.dealing) self.plan.ring units refused (shown self) →
            IfOk result (λ tables. tables ≡ tables_of units refused) }
        ensures back { IfErr result (λ back. (shown back.0 ≡ shown self) × (back.0.plan ≡ self.plan) ×
            (back.0.dealer.dealing ≡ self.dealer.dealing) × (back.0.rounds ≡ self.rounds) ×
            (back.0.state ≡ self.state) × (back.0.failed_file ≡ self.failed_file)) }
        ensures memory { self.state ≢ Spent → IfErr result (λ back. back.1 ≡ ReplayError.Memory) }
        ensures spent { self.state ≡ Spent → result ≡ Err (self, ReplayError.Spent) }
    {
        if let ReadState::Spent = self.state {
            return Err((self, ReplayError::Spent));
        }
        let lanes = self.senders.len();
        self.dealer.lanes_are_below(lanes);
        let Replayer {
            plan,
            dealer,
            senders,
            workers,
            rounds,
            state,
            failed_file,
        } = self;
        let Dealer {
            dealing,
            peers,
            blocked_unit,
            refused,
            dealt,
        } = dealer;
        match collect_lanes(alloc, workers, refused) {
            Ok(tables) => Ok(tables),
            Err((workers, refused)) => {
                let dealer = Dealer {
                    dealing,
                    peers,
                    blocked_unit,
                    refused,
                    dealt,
                };
                let back = Replayer {
                    plan,
                    dealer,
                    senders,
                    workers,
                    rounds,
                    state,
                    failed_file,
                };
                Err((back, ReplayError::Memory))
            }
        }
    }
}

impl<M: PrefixMap<RouteId>, D: Dealing> Replayer<M, D>
where
    M::Addr: Unicast,
{
    ghost use Rattle.std.specs.Prelude.{ℕ, ◌<◌, ◌≤◌, ◌≡◌, ◌≢◌, ◌^◌, ◌-◌, true, length, min, slice_get};
    ghost use Rattle.lane_deal.specs.Replayers.{LaneState, held_routes};
    ghost use Rattle.lane_deal.specs.Playing.{shown};
    ghost use Rattle.lane_deal.specs.Rounds.{IsSettled};
    ghost use Rattle.mrt_frame.specs.declared.read_state.ReadState.TheVariants.{Spent};

    /// Each peer's lane is one of the lanes.
    pub fn lanes_are_below(&self)
        requires { self.now.state ≢ Spent }
        ensures { (number : ℕ) → D.lane_of self.now.dealer.dealing number
            (length (shown self.now).lanes) < length (shown self.now).lanes }
    {
        let lanes = self.senders.len();
        self.dealer.lanes_are_below(lanes);
    }

    /// The number of calls of `round` and `settle` that forked. Saturates at `u64::MAX`.
    pub fn rounds(&self) -> u64
        ensures { result ≡ self.now.rounds }
    {
        self.rounds
    }

    /// Returns the number of routes in the tables of all lanes. Saturates at `u64::MAX`. It visits all sessions.
    pub fn routes(&self) -> u64
        ensures { self.now.state ≢ Spent → result ≡ min (length (held_routes (shown self.now))) (2 ^ 64 - 1) }
    {
        let mut count = 0u64;
        for worker in &self.workers {
            count = count.saturating_add(count_routes(worker.sessions.seats.as_slice()));
        }
        count
    }

    /// Whether memory ran out, or there were too many records.
    pub fn is_spent(&self) -> bool
        ensures { result ≡ (shown self.now).spent }
    {
        match self.state {
            ReadState::Spent => true,
            _ => false,
        }
    }

    /// The number of units that wait in a lane's ring, or 0 past the last lane.
    pub fn waiting(&self, lane: usize) -> usize
        ensures past { self.now.state ≢ Spent → length (shown self.now).lanes ≤ lane → result ≡ 0 }
        ensures waiting { self.now.state ≢ Spent → (state : LaneState) →
            slice_get (shown self.now).lanes lane ≡ Some state → result ≡ length state.ring.sent }
    {
        let senders = self.senders.as_slice();
        if lane >= senders.len() {
            return 0;
        }
        senders[lane].producer.waiting()
    }

    /// Whether all rings are empty.
    pub fn is_settled(&self) -> bool
        ensures settled { self.now.state ≢ Spent → result ≡ true → IsSettled (shown self.now) }
        ensures waits { self.now.state ≢ Spent → IsSettled (shown self.now) → result ≡ true }
    {
        for sender in &self.senders {
            if sender.producer.waiting() > 0 {
                return false;
            }
        }
        true
    }

    /// The number of units dealt. Saturates at `u64::MAX`.
    pub fn dealt(&self) -> u64
        ensures { result ≡ (shown self.now).dealt }
    {
        self.dealer.dealt
    }

    /// The number of units that a lane took, or 0 past the last lane. Saturates at `u64::MAX`.
    pub fn took(&self, lane: usize) -> u64
        ensures took { self.now.state ≢ Spent → (state : LaneState) →
            slice_get (shown self.now).lanes lane ≡ Some state → result ≡ state.took }
        ensures past { self.now.state ≢ Spent → length (shown self.now).lanes ≤ lane → result ≡ 0 }
    {
        let workers = self.workers.as_slice();
        if lane >= workers.len() {
            return 0;
        }
        workers[lane].taken
    }
}
