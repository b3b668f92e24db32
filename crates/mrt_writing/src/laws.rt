//! The laws of what is written. Nothing is computed.

ghost use Rattle.std.specs.List.{flat_map, filter, AllByRecursion};
ghost use Rattle.std.specs.Prelude.{◌≡◌, Ok, Bool, false, Some, ◌<◌, ◌^◌, [], map, ℕ, ◌+◌, ◌≤◌, ◌∷◌, ◌++◌, List, length};
ghost use Rattle.bgp_prefix.specs.Keys.{RouteKey};
ghost use Rattle.bgp_prefix.specs.Prefixes.{IpPrefix, IsIpPrefix};
ghost use Rattle.mrt_frame.specs.Cuts.{cuts, file_limit};
ghost use Rattle.bgp_update.specs.Attributes.{route_in, attributes_bytes};
ghost use Rattle.bgp_update.specs.Families.{FamilyOf, RouteRules, Rules, by_entry_width, ipv4, ipv6, route_rules};
ghost use Rattle.bgp_update.specs.Handling.{taken_update};
ghost use Rattle.bgp_update.specs.Keys.{prefix_of};
ghost use Rattle.bgp_update.specs.Updates.{update_bytes};
ghost use Rattle.bgp_update.specs.declared.route.Route.{Route};
ghost use Rattle.bgp_update.specs.declared.width.Width.TheVariants.{Four};
ghost use Rattle.peer_units.specs.Choices.{UnitSelection};
ghost use Rattle.peer_units.specs.Events.{event_in};
ghost use Rattle.peer_units.specs.Plain.{Unit as ReplayUnit};
ghost use Rattle.peer_units.specs.Selections.{is_selected};
ghost use Rattle.peer_units.specs.declared.meaning.Event.TheVariants as event;
ghost use Rattle.peer_units.specs.declared.rib_rule.RibRule.TheVariants.{Add};
ghost use Rattle.peer_units.specs.declared.state_rule.StateRule.{StateRule};
ghost use Rattle.peer_units.specs.declared.unit.Found.TheVariants as found;
ghost use Rattle.peer_units.specs.declared.unit.Payload.TheVariants.{State, Message, Entry};
ghost use Rattle.peer_units.specs.declared.unit.PeerKey.{PeerKey};
ghost use Rattle.mrt_body.specs.Indexes.{index_bytes, peers_in};
ghost use Rattle.mrt_body.specs.RibDumps.{DumpsState};
ghost use Rattle.mrt_body.specs.RibRecords.{entry_bytes, rib_bytes};
ghost use Rattle.mrt_body.specs.Units.{rib_units_in, state_units, states_unit, session_unit, found_in_file};
ghost use Rattle.mrt_body.specs.declared.record_place.RecordAt.{RecordAt};
ghost use Rattle.mrt_writing.specs.Dumps.{DumpRecord, index_record, dump_records, HasRibKinds, FitsDump, units_of_dump};
ghost use Rattle.mrt_writing.specs.Heads.{written_index, FitsPeerKey, states_bytes};
ghost use Rattle.mrt_writing.specs.Prefixes.{prefix_octets};
ghost use Rattle.mrt_writing.specs.Records.{record_head, WrittenRecord, FitsRecord, record_bytes, records_bytes, written_size, cut_of, cuts_of_records};
ghost use Rattle.mrt_writing.specs.RibRecords.{rib_head, written_entry, PrefixRoute, entry_field, written_rib, FitsPrefixRecord, units_of_entries};
ghost use Rattle.mrt_writing.specs.RouteAttributes.{entry_attributes, FitsEntryRoute};
ghost use Rattle.mrt_writing.specs.Updates.{written_update, update_field, update_of, update_message, FitsUpdate, reaching};

/// A route that fits is given back by reading its attributes as those of a RIB entry.
pub fn written_routes_are_read()
    ensures entries { (rules : RouteRules) (route : Route) → FitsEntryRoute rules route →
        route_in rules Four (attributes_bytes (entry_attributes rules.family route)) ≡ Ok route }
{}

/// A prefix is given back by its length and its bytes.
pub fn written_prefixes_are_read()
    ensures prefixes { (p : IpPrefix) → IsIpPrefix p → prefix_of p.len (prefix_octets p) ≡ p }
{}

/// A record is cut as itself, whatever follows it; so are records one behind the other.
pub fn written_records_are_cut()
    ensures first { (offset : ℕ) (r : WrittenRecord) (rest : List ℕ) → FitsRecord r →
        offset + written_size r ≤ file_limit →
        cuts offset (record_bytes r ++ rest) ≡ cut_of offset r ∷ cuts (offset + written_size r) rest }
    ensures all { (offset : ℕ) (records : List WrittenRecord) → AllByRecursion FitsRecord records →
        offset + length (records_bytes records) ≤ file_limit →
        cuts offset (records_bytes records) ≡ cuts_of_records offset records }
{}

/// Index tables, state changes and RIB records are read as what was written.
pub fn written_bodies_are_read()
    ensures index { (peers : List PeerKey) → length peers < 256 ^ 2 → AllByRecursion FitsPeerKey peers →
        peers_in (index_bytes (written_index peers)) ≡ Ok peers }
    ensures states { (rule : StateRule) (at : RecordAt) (p : PeerKey) (from to : ℕ) →
        FitsPeerKey p → from < 256 ^ 2 → to < 256 ^ 2 →
        states_unit rule at false Four (states_bytes p from to) ≡ Ok (session_unit at 0 p (State from to rule)) }
    ensures told { (selection : UnitSelection) (known : List PeerKey) (at : RecordAt) (p : PeerKey) (from to : ℕ) →
        FitsPeerKey p → from < 256 ^ 2 → to < 256 ^ 2 →
        state_units selection known at false Four (states_bytes p from to)
        ≡ Ok (session_unit at 0 p (State from to selection.states) ∷ []) }
    ensures rib { (rules : Rules) (at : RecordAt) (add_path : Bool) (peers : List PeerKey) (originated sequence : ℕ)
        (prefix : IpPrefix) (entries : List PrefixRoute) →
        FitsPrefixRecord (route_rules rules) add_path (length peers) originated sequence prefix entries →
        rib_units_in rules at add_path (Some peers)
        (rib_bytes add_path (written_rib rules.family originated sequence prefix entries))
        ≡ Ok (units_of_entries rules at peers prefix 1 entries) }
    ensures event { (rules : Rules) (key : RouteKey) (route : Route) → FitsEntryRoute (route_rules rules) route →
        event_in (Entry (by_entry_width Four rules) key (entry_field rules.family route)) ≡ Ok (event.Rib key route) }
{}

/// A key that an UPDATE of its own reaches is read with its route and next hop. Where damage is skipped the UPDATE is
/// taken so, and else as any other that is undamaged.
pub fn written_updates_are_read()
    ensures { (rules : Rules) (add_path : Bool) (key : RouteKey) (route : Route) → FitsUpdate (route_rules rules) add_path key route →
        event_in (Message (update_message rules.family add_path key route) Four add_path rules)
        ≡ Ok (event.Change (taken_update rules.errors (reaching key route))) }
{}

/// What is written one part after the other is the whole: a record's head and its body, a RIB record's head and its
/// entries, and an UPDATE of bytes of attributes, whose length says how many these are.
pub fn written_parts_are_whole()
    ensures whole { (r : WrittenRecord) →
        record_bytes r ≡ record_head r.seconds r.kind r.subtype (length r.body) ++ r.body }
    ensures rib { (family : FamilyOf) (add_path : Bool) (originated sequence : ℕ) (prefix : IpPrefix)
        (entries : List PrefixRoute) → rib_bytes add_path (written_rib family originated sequence prefix entries)
        ≡ rib_head sequence prefix (length entries)
        ++ flat_map (λ e. entry_bytes add_path (written_entry family originated e)) entries }
    ensures update { (family : FamilyOf) (add_path : Bool) (key : RouteKey) (route : Route) →
        update_message family add_path key route ≡ update_of (update_field family add_path key route) }
    ensures len { (family : FamilyOf) (add_path : Bool) (key : RouteKey) (route : Route) →
        19 + length (update_bytes (written_update family add_path key route))
        ≡ 23 + length (update_field family add_path key route) }
{}

/// A dump is read as its units, each record as its own, where RIB dumps are added: those that are selected are found,
/// and nothing is refused.
pub fn written_dumps_are_read()
    ensures dump { (file : ℕ) (selection : UnitSelection) (seconds : ℕ) (peers : List PeerKey) (dumps : DumpsState)
        (records : List DumpRecord) →
        selection.ribs ≡ Add → dumps.heard ≡ [] → FitsDump (route_rules selection.rules) seconds peers records →
        length (records_bytes (dump_records selection.rules.family seconds peers records)) ≤ file_limit →
        found_in_file selection file dumps (records_bytes (dump_records selection.rules.family seconds peers records))
        ≡ map (λ (u : ReplayUnit). found.Unit u) (filter (is_selected selection)
        (units_of_dump file (written_size (index_record selection.rules.family seconds peers)) selection.rules
        selection.states seconds peers records)) }
    ensures kinds { HasRibKinds ipv4 × HasRibKinds ipv6 }
{}
