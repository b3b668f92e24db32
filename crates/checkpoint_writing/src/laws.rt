//! The laws of what is written: the order of entries, and the checkpoint of a replay. Nothing is computed.

ghost use Rattle.std.specs.Prelude.{◌≡◌, ◌++◌, [], List, map};
ghost use Rattle.std.specs.List.{flat_map};
ghost use Rattle.peer_units.specs.Choices.{UnitSelection};
ghost use Rattle.peer_units.specs.Plain.{Unit as ReplayUnit};
ghost use Rattle.peer_units.specs.declared.unit.Damage.{Damage as ListedFault};
ghost use Rattle.peer_tables.specs.Tables.{tables_of};
ghost use Rattle.table_dumps.specs.Cutting.{checkpoint_bytes, latest_second};
ghost use Rattle.checkpoint_writing.specs.Leaving.{left_entries, written_checkpoint};
ghost use Rattle.bgp_prefix.specs.Prefixes.{IpPrefix};
ghost use Rattle.bgp_update.specs.Families.{FamilyOf};
ghost use Rattle.table_dumps.specs.Checkpoints.{DumpedPeer, Split, all_parts, entries_in, parts_of};
ghost use Rattle.checkpoint_writing.specs.Merging.{Entries, IsLeast, parts_among, routes_among, without};

/// The records of all prefixes are those of the entries of all peers, merged: first those of the least prefix, whose
/// entries stand by peer, and then those of the entries that are left.
pub fn prefixes_are_written_in_order()
    ensures merged { (split : Split) (family : FamilyOf) (peers : List DumpedPeer) →
        all_parts split family peers ≡ parts_among split (map (entries_in family) peers) }
    ensures first { (split : Split) (prefix : IpPrefix) (lists : List Entries) → IsLeast prefix lists →
        parts_among split lists
        ≡ parts_of (split prefix) prefix (routes_among prefix 0 lists) ++ parts_among split (without prefix lists) }
{}

/// What is written of the tables of units, at the second of the latest one, is the checkpoint of these units if no
/// route is left out: so a replay that is cut goes on from it (`replays_can_be_cut`).
pub fn checkpoints_are_of_units()
    ensures { (selection : UnitSelection) (units : List ReplayUnit) (refused : List ListedFault) →
        flat_map (left_entries selection.rules.family) (tables_of units refused).seats ≡ [] →
        written_checkpoint selection.states selection.rules.family (latest_second units) (tables_of units refused).seats
        ≡ checkpoint_bytes selection units }
{}
