//! The laws of lanes: how units are shared, whatever the schedule. Nothing is computed.

ghost use Rattle.std.specs.Prelude.{◌≡◌, ◌≢◌, ◌<◌, ◌≤◌, ◌+◌, ◌*◌, ◌/◌, ◌++◌, ℕ, List, [], length, map, IsPermutation};
ghost use Rattle.std.specs.List.{AllByRecursion, flat_map, range_with_len};
ghost use Rattle.std.specs.List.Sorted.{IsStrictlyIncreasing};
ghost use Rattle.peer_units.specs.declared.unit.Damage.{Damage};
ghost use Rattle.peer_units.specs.Plain.{Found, Unit as ReplayUnit};
ghost use Rattle.peer_tables.specs.Tables.{tables_of};
ghost use Rattle.lane_deal.specs.declared.plan.Plan.{Plan};
ghost use Rattle.lane_deal.specs.declared.step.Step.TheVariants.{End};
ghost use Rattle.lane_schedules.specs.declared.turn.Turn.{Turn};
ghost use Rattle.lane_deal.specs.Lanes.{lane_units, seats_of_lane};
ghost use Rattle.lane_deal.specs.Plans.{IsPlan};
ghost use Rattle.lane_deal.specs.Replayers.{ReplayerState, ReplayerStandsFor};
ghost use Rattle.lane_deal.specs.Rounds.{IsSettled};
ghost use Rattle.lane_schedules.specs.RoundSequences.{RoundState, AreRounds, dealt_in};
ghost use Rattle.lane_schedules.specs.Schedules.{after_turns, IsShared};

/// Each unit is in one lane, once, whichever lanes below their number the peers are given.
pub fn lanes_share_units()
    ensures { (lane_of : ℕ → ℕ) (workers : ℕ) (units : List ReplayUnit) → ((number : ℕ) → lane_of number < workers) →
        IsPermutation units (flat_map (lane_units lane_of units) (range_with_len 0 workers)) }
{}

/// After any list of events, what each lane took and what waits for it are, in order, its units of
/// those that were dealt. Where all are dealt and none waits, each lane took its units, whole.
pub fn schedules_keep_order()
    ensures shared { (lane_of : ℕ → ℕ) (units : List ReplayUnit) (turns : List Turn) →
        IsShared lane_of units (after_turns lane_of units turns) }
    ensures whole { (lane_of : ℕ → ℕ) (units : List ReplayUnit) (turns : List Turn) (lane : ℕ) →
        (after_turns lane_of units turns).undealt ≡ [] → (after_turns lane_of units turns).ring lane ≡ [] →
        (after_turns lane_of units turns).taken lane ≡ lane_units lane_of units lane }
{}

/// The sessions that stand for what the lanes took make the tables of all units. With this the
/// sessions of lanes that took all are handed to `collect`, and the tables don't depend on the lanes.
pub fn lanes_make_tables()
    ensures seats { (lane_of : ℕ → ℕ) (workers : ℕ) (units : List ReplayUnit) (refused : List Damage) →
        ((number : ℕ) → lane_of number < workers) →
        IsPermutation (flat_map (λ lane. seats_of_lane units (lane_units lane_of units lane))
        (range_with_len 0 workers)) (tables_of units refused).seats }
    ensures numbers { (units : List ReplayUnit) (refused : List Damage) →
        IsStrictlyIncreasing (map (λ seat. seat.number) (tables_of units refused).seats) }
{}

/// The sessions of a settled replayer that stands for units and refusals are those of their tables,
/// whether or not a unit is blocked.
pub fn settled_lanes_make_tables()
    ensures { (dealing : ℕ → ℕ → ℕ) (ring : ℕ) (units : List ReplayUnit) (refused : List Damage)
        (replayer : ReplayerState) →
        ((number : ℕ) → dealing number (length replayer.lanes) < length replayer.lanes) →
        ReplayerStandsFor dealing ring units refused replayer → IsSettled replayer →
        IsPermutation (flat_map (λ lane. lane.seats) replayer.lanes) (tables_of units refused).seats }
{}

/// Rounds that begin with empty rings and don't answer `End` are few: each fills a ring or deals a
/// batch. The round that does and the settling are two more.
pub fn rounds_are_few()
    ensures { (dealing : ℕ → ℕ → ℕ) (plan : Plan) (replayer : ReplayerState) (coming : List Found)
        (rounds : List RoundState) →
        IsPlan plan → ((number : ℕ) → dealing number (length replayer.lanes) < length replayer.lanes) →
        IsSettled replayer → AreRounds dealing plan replayer coming rounds →
        AllByRecursion (λ round. round.step ≢ End) rounds →
        length rounds ≤ 2 * length (dealt_in rounds) / plan.ring + length (dealt_in rounds) / plan.batch }
{}
