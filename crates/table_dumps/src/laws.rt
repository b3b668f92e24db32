//! The laws of what a dump of tables leaves. Nothing is computed.

ghost use Rattle.std.specs.Prelude.{map};
ghost use Rattle.std.specs.List.{filter_map};
ghost use Rattle.peer_units.specs.Choices.{UnitSelection};
ghost use Rattle.peer_units.specs.declared.rib_rule.RibRule.TheVariants.{Add};
ghost use Rattle.peer_units.specs.declared.state_peers.StatePeers.TheVariants.{Recorded};
ghost use Rattle.mrt_body.specs.RibDumps.{DumpsState};
ghost use Rattle.mrt_body.specs.Units.{found_in_file, unit_of, units_of};
ghost use Rattle.table_dumps.specs.Resuming.{forget};
ghost use Rattle.std.specs.Prelude.{◌≡◌, ◌<◌, ◌^◌, ◌++◌, ◌∷◌, [], false, true, Bool, List, T, length, ℕ};
ghost use Rattle.bgp_prefix.specs.Keys.{RouteKey, key_cmp};
ghost use Rattle.bgp_update.specs.declared.route.Route.{Route};
ghost use Rattle.bgp_update.specs.ErrorRules.{is_handling};
ghost use Rattle.bgp_update.specs.Families.{FamilyOf, RouteRules, Rules, route_rules};
ghost use Rattle.peer_units.specs.declared.state_rule.StateRule.{StateRule};
ghost use Rattle.peer_units.specs.Plain.{Unit as ReplayUnit};
ghost use Rattle.peer_units.specs.declared.unit.PeerKey.{PeerKey};
ghost use Rattle.adj_rib.specs.Steps.{is_up, is_established, steps_of};
ghost use Rattle.adj_rib.specs.Tables.{table_of};
ghost use Rattle.peer_units.specs.declared.unit.Payload.TheVariants.{Clear};
ghost use Rattle.std.specs.FinMap.{is_sorted};
ghost use Rattle.std.specs.List.{AllByRecursion};
ghost use Rattle.peer_units.specs.States.{stays_up};
ghost use Rattle.peer_tables.specs.Peers.{peers_of, units_of_peer};
ghost use Rattle.mrt_writing.specs.Dumps.{FitsDump, FitsDumpRecord, units_of_dump};
ghost use Rattle.mrt_writing.specs.RibRecords.{PrefixRoute};
ghost use Rattle.table_dumps.specs.Checkpoints.{DumpedPeer, entries_in, all_parts, Split, Splits, record_split, entries_of_parts, Apart, keys_of, checkpoint_records};
ghost use Rattle.table_dumps.specs.Cutting.{CanBeCut, resumed_units};
ghost use Rattle.table_dumps.specs.Fitting.{FitsTables, HaveMandatory};
ghost use Rattle.table_dumps.specs.Resuming.{LeaveAlike};
ghost use Rattle.mrt_writing.specs.Heads.{state_after};
ghost use Rattle.table_dumps.specs.Dumped.{DumpsTable, is_as};

/// A state change, and then a unit for each route, leave the peer and its table as they were.
pub fn written_tables_are_left()
    ensures table { (family : FamilyOf) (rule : StateRule) (up : Bool) (table : List (RouteKey × Route)) (units : List ReplayUnit) →
        DumpsTable family rule up table units → table_of (steps_of units) ≡ table }
    ensures up { (family : FamilyOf) (rule : StateRule) (up : Bool) (table : List (RouteKey × Route)) (units : List ReplayUnit) →
        DumpsTable family rule up table units → is_as rule (is_up units) (is_established units) ≡ up }
{}

/// Units go on alike from beginnings that leave a peer alike; and a clear of a table without routes changes nothing. So
/// a replay can go on from whatever leaves its peers as they were.
pub fn replays_go_on_alike()
    ensures more { (units others more : List ReplayUnit) → LeaveAlike units others → LeaveAlike (units ++ more) (others ++ more) }
    ensures cleared { (units : List ReplayUnit) (unit : ReplayUnit) → unit.payload ≡ Clear →
        table_of (steps_of units) ≡ [] → LeaveAlike (units ++ unit ∷ []) units }
    ensures down { (units : List ReplayUnit) → is_up units ≡ false → table_of (steps_of units) ≡ [] }
{}

/// The records of all prefixes have the entries of each peer, in the order of its table, however the routes of a prefix
/// are split.
pub fn records_have_each_entry()
    ensures split { (family : FamilyOf) → Splits (record_split family) }
    ensures entries { (split : Split) → Splits split →
        (family : FamilyOf) (front : List DumpedPeer) (p : DumpedPeer) (back : List DumpedPeer) → T (is_sorted key_cmp p.table) →
        entries_of_parts (length front) (all_parts split family (front ++ p ∷ back)) ≡ entries_in family p }
{}

/// The peers of a checkpoint's units are its peers, in their order; and its units leave each of them up or not as it
/// was, with the same table. Where damage is handled, that is so of a peer whose routes have what an UPDATE must have.
pub fn checkpoints_leave_each_table()
    ensures peers { (split : Split) (rules : Rules) (rule : StateRule)
        (file offset seconds : ℕ) (peers : List DumpedPeer) → Apart (keys_of peers) →
        AllByRecursion (FitsDumpRecord (route_rules rules) seconds (keys_of peers)) (checkpoint_records split rules.family peers) →
        peers_of (units_of_dump file offset rules rule seconds (keys_of peers) (checkpoint_records split rules.family peers)) ≡ keys_of peers }
    ensures table { (split : Split) → Splits split →
        (rules : Rules) (rule : StateRule) (file offset seconds : ℕ) (front : List DumpedPeer) (p : DumpedPeer) (back : List DumpedPeer) →
        Apart (keys_of (front ++ p ∷ back)) →
        AllByRecursion (FitsDumpRecord (route_rules rules) seconds (keys_of (front ++ p ∷ back))) (checkpoint_records split rules.family (front ++ p ∷ back)) →
        T (is_sorted key_cmp p.table) → (stays_up rule (state_after p.up) ≡ false → p.table ≡ []) →
        (is_handling rules.errors ≡ true → HaveMandatory rules.family p) →
        table_of (steps_of (units_of_peer (units_of_dump file offset rules rule seconds (keys_of (front ++ p ∷ back)) (checkpoint_records split rules.family (front ++ p ∷ back))) p.key)) ≡ p.table }
    ensures up { (split : Split) → Splits split →
        (rules : Rules) (rule : StateRule) (file offset seconds : ℕ) (front : List DumpedPeer) (p : DumpedPeer) (back : List DumpedPeer) →
        Apart (keys_of (front ++ p ∷ back)) →
        AllByRecursion (FitsDumpRecord (route_rules rules) seconds (keys_of (front ++ p ∷ back))) (checkpoint_records split rules.family (front ++ p ∷ back)) →
        T (is_sorted key_cmp p.table) → (stays_up rule (state_after p.up) ≡ false → p.table ≡ []) →
        (is_handling rules.errors ≡ true → HaveMandatory rules.family p) →
        is_as rule (is_up (units_of_peer (units_of_dump file offset rules rule seconds (keys_of (front ++ p ∷ back)) (checkpoint_records split rules.family (front ++ p ∷ back))) p.key))
        (is_established (units_of_peer (units_of_dump file offset rules rule seconds (keys_of (front ++ p ∷ back)) (checkpoint_records split rules.family (front ++ p ∷ back))) p.key)) ≡ p.up }
{}

/// The records of tables that fit can be written, and so are read as their units: each part of a prefix's routes is as
/// long as a record may be, and has no identifiers where all are 0.
pub fn tables_that_fit_are_written()
    ensures { (rules : RouteRules) (seconds : ℕ) (peers : List DumpedPeer) → seconds < 256 ^ 4 → FitsTables rules peers →
        FitsDump rules seconds (keys_of peers) (checkpoint_records (record_split rules.family) rules.family peers) }
{}

/// Where RIB dumps are added and each state change is the recorded peer's, a file gives the same units whatever stands
/// before it, but for their places.
pub fn files_give_units_alike()
    ensures { (selection : UnitSelection) → selection.ribs ≡ Add → selection.state_peers ≡ Recorded →
        (file other : ℕ) (dumps others : DumpsState) (bytes : List ℕ) → dumps.heard ≡ [] → others.heard ≡ [] →
        map forget (filter_map unit_of (found_in_file selection file dumps bytes))
        ≡ map forget (filter_map unit_of (found_in_file selection other others bytes)) }
{}

/// A replay can be cut between two files: the units of the checkpoint of some files, and then of others, are of the
/// same peers, in the same order, as those of all these files, and leave each of them up or not, established or not,
/// and with the same table. So it is where RIB dumps are added, each state change is the recorded peer's and no prefix
/// is named, if no route is left out; and where damage is handled, if none lacks what an UPDATE must have.
pub fn replays_can_be_cut()
    ensures peers { (selection : UnitSelection) (files others : List (List ℕ)) → CanBeCut selection files →
        peers_of (resumed_units selection files others) ≡ peers_of (units_of selection (files ++ others)) }
    ensures tables { (selection : UnitSelection) (files others : List (List ℕ)) (q : PeerKey) → CanBeCut selection files →
        LeaveAlike (units_of_peer (resumed_units selection files others) q)
        (units_of_peer (units_of selection (files ++ others)) q) }
{}
