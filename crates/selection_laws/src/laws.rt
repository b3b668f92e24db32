//! The laws. Nothing is computed.

ghost use Rattle.std.specs.Prelude.{◌≡◌, ◌≢◌, ℕ, true, None, List, [], ◌∷◌, ◌++◌, map};
ghost use Rattle.std.specs.List.{filter};
ghost use Rattle.std.specs.FinMap.{find};
ghost use Rattle.bgp_prefix.specs.Keys.{key_cmp, RouteKey};
ghost use Rattle.mrt_frame.specs.Cuts.{cuts};
ghost use Rattle.mrt_frame.specs.declared.cut.Cut.{Cut as AnyCut};
ghost use Rattle.mrt_frame.specs.declared.cut.Cut.TheVariants.{Whole};
ghost use Rattle.mrt_frame.specs.declared.cut.Record.{Record as AnyRecord};
ghost use Rattle.mrt_body.specs.Units.{refused_of, units_of};
ghost use Rattle.peer_units.specs.Choices.{UnitSelection};
ghost use Rattle.peer_units.specs.Plain.{PrefixChoice as Choice, Unit as ReplayUnit};
ghost use Rattle.peer_units.specs.Selections.{concerns, takes_peer};
ghost use Rattle.peer_units.specs.declared.rib_rule.RibRule.TheVariants.{Add};
ghost use Rattle.peer_units.specs.declared.unit.PeerKey.{PeerKey as AnyPeer};
ghost use Rattle.adj_rib.specs.Steps.{is_established, is_up, steps_of};
ghost use Rattle.adj_rib.specs.Tables.{table_of};
ghost use Rattle.adj_rib.specs.Selecting.{chooses, selected_entries};
ghost use Rattle.peer_tables.specs.Histories.{history_of_own, history_rows};
ghost use Rattle.peer_tables.specs.Peers.{units_of_peer};
ghost use Rattle.peer_tables.specs.declared.history.Listed.TheVariants.{Nothing};
ghost use Rattle.peer_tables.specs.declared.history.Listing.{Listing as AnyListing};
ghost use Rattle.selection_laws.specs.Dumps.{BeginWith, begins_dump, clears_before, table_of_peer, units_before};
ghost use Rattle.selection_laws.specs.LastLines.{all_routes_of, notes_at, route_by_last};
ghost use Rattle.selection_laws.specs.Wider.{of_all_peers, of_all_prefixes};

/// The units of the chosen peers, and of a share, are those of all units whose peer is one of them, by either rule of
/// RIB dumps; and the same records are refused.
pub fn chosen_peers_are_of_all()
    ensures units { (selection : UnitSelection) (files : List (List ℕ)) → units_of selection files
        ≡ filter (λ unit. takes_peer selection unit.peer) (units_of (of_all_peers selection) files) }
    ensures refused { (selection : UnitSelection) (files : List (List ℕ)) →
        refused_of selection files ≡ refused_of (of_all_peers selection) files }
{}

/// Where RIB dumps are added, the units under chosen prefixes are those of all units that can concern one of them.
/// Where they replace what came before them, other peers are heard, and so others are cleared. By either rule the same
/// records are refused.
pub fn chosen_prefixes_are_of_all()
    ensures units { (selection : UnitSelection) (files : List (List ℕ)) → selection.ribs ≡ Add → units_of selection files
        ≡ filter (λ unit. concerns selection.prefixes unit.payload) (units_of (of_all_prefixes selection) files) }
    ensures refused { (selection : UnitSelection) (files : List (List ℕ)) →
        refused_of selection files ≡ refused_of (of_all_prefixes selection) files }
{}

/// Where RIB dumps replace what came before them and a record begins one, no peer has a route behind the clears that
/// stand before the record's own units: a peer that isn't cleared gave no unit since the last dump. The units of a
/// reading begin with those before the record and these clears.
pub fn dumps_begin_with_empty_tables()
    ensures reading { (selection : UnitSelection) (files : List (List ℕ)) (bytes : List ℕ) (others : List (List ℕ))
        (earlier later : List AnyCut) (r : AnyRecord) → cuts 0 bytes ≡ earlier ++ Whole r ∷ later →
        BeginWith (units_of selection (files ++ bytes ∷ others))
        (units_before selection files earlier ++ clears_before selection files earlier r) }
    ensures emptied { (selection : UnitSelection) (files : List (List ℕ)) (earlier : List AnyCut) (r : AnyRecord)
        (q : AnyPeer) → begins_dump selection files earlier r ≡ true →
        table_of_peer (units_before selection files earlier ++ clears_before selection files earlier r) q ≡ [] }
{}

/// Whatever prefixes are chosen, and by either rule of RIB dumps, each peer has the same routes of these prefixes as in
/// a reading of all, and is up or not, and its session established or not, as there. Where dumps replace what came
/// before them, the two hear other peers, and give other clears; but where one begins, neither leaves a peer a route.
pub fn chosen_prefixes_keep_their_routes()
    ensures routes { (selection : UnitSelection) (files : List (List ℕ)) (q : AnyPeer) →
        selected_entries (chooses selection.prefixes) (table_of_peer (units_of selection files) q)
        ≡ selected_entries (chooses selection.prefixes) (table_of_peer (units_of (of_all_prefixes selection) files) q) }
    ensures state { (selection : UnitSelection) (files : List (List ℕ)) (q : AnyPeer) →
        is_up (units_of_peer (units_of selection files) q)
        ≡ is_up (units_of_peer (units_of (of_all_prefixes selection) files) q) }
    ensures established { (selection : UnitSelection) (files : List (List ℕ)) (q : AnyPeer) →
        is_established (units_of_peer (units_of selection files) q)
        ≡ is_established (units_of_peer (units_of (of_all_prefixes selection) files) q) }
{}

/// The last line of a key of a peer gives the route that the key has in the peer's table: that of an announcement, and
/// none after a withdrawal, a break or a clear; a key without a line has none. So of all that a peer's units did; of
/// the rows of chosen keys with all their routes, where none is left out for its time, and whether or not announcements
/// of the route that was there have rows; and of files, even where the table is that of a reading of all prefixes.
pub fn last_lines_are_of_tables()
    ensures own { (own : List ReplayUnit) (key : RouteKey) →
        find key_cmp key (table_of (steps_of own)) ≡ route_by_last (map (λ e. e.1) (history_of_own own)) key }
    ensures rows { (listing : AnyListing) (choices : List Choice) (units : List ReplayUnit) (q : AnyPeer)
        (key : RouteKey) → listing.since ≡ None → listing.listed ≢ Nothing → chooses choices key ≡ true →
        find key_cmp key (table_of_peer units q)
        ≡ route_by_last (notes_at q (history_rows listing (all_routes_of choices) units)) key }
    ensures files { (listing : AnyListing) (selection : UnitSelection) (files : List (List ℕ)) (q : AnyPeer)
        (key : RouteKey) → listing.since ≡ None → listing.listed ≢ Nothing → chooses selection.prefixes key ≡ true →
        find key_cmp key (table_of_peer (units_of (of_all_prefixes selection) files) q)
        ≡ route_by_last (notes_at q (history_rows listing (all_routes_of selection.prefixes) (units_of selection files)))
        key }
{}
