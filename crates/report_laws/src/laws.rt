//! The laws of reports: they are those of the units and refusals that tables stand for, and what their rows say, stated
//! without an order of work. Nothing is computed.

ghost use Rattle.std.specs.Prelude.{◌≡◌, List, ◌≤◌, ◌+◌, ◌&&◌, ◌↔◌, ℕ, Bool, IsTrue, Option, Some, length, map};
ghost use Rattle.peer_units.specs.States.{AreByRule};
ghost use Rattle.peer_units.specs.declared.state_rule.StateRule.TheVariants.{Recorded};
ghost use Rattle.peer_units.specs.declared.unit.Damage.{Damage as ListedFault, Damage};
ghost use Rattle.peer_units.specs.declared.unit.PeerKey.{PeerKey as AnyPeer, PeerKey};
ghost use Rattle.peer_units.specs.Plain.{Unit as ReplayUnit};
ghost use Rattle.adj_rib.specs.Steps.{is_up};
ghost use Rattle.peer_tables.specs.Peers.{units_of_peer};
ghost use Rattle.peer_units.specs.Choices.{Choices};
ghost use Rattle.adj_rib.specs.Selecting.{is_chosen_entry};
ghost use Rattle.peer_tables.specs.Tables.{Seat, TablesState, all_faults, chosen_seat, chosen_tables};
ghost use Rattle.peer_tables.specs.Standing.{AreTablesOf};
ghost use Rattle.report_laws.specs.UnitReports.{HasReportsOf, peer_at};
ghost use Rattle.std.specs.FinMap.{find, is_sorted};
ghost use Rattle.std.specs.List.{count_by, filter, list_any};
ghost use Rattle.std.specs.List.Sorted.{IsSortedByKey, IsStableByKey};
ghost use Rattle.bgp_prefix.specs.Prefixes.{IpPrefix, prefix_cmp, prefix_eq};
ghost use Rattle.ip_text.specs.declared.address_form.AddressForm.{AddressForm};
ghost use Rattle.bgp_update.specs.declared.kept_attribute.KeptAttribute.{KeptAttribute};
ghost use Rattle.peer_units.specs.declared.unit.PeerAddr.{PeerAddr};
ghost use Rattle.peer_tables.specs.Histories.{RowState};
ghost use Rattle.report_request.specs.Plain.{Layout};
ghost use Rattle.report_lines.specs.Cells.{quoted};
ghost use Rattle.rib_report.specs.HistoryLines.{history_cells};
ghost use Rattle.report_lines.specs.JsonValues.{IsValue, NeedNoEscape, NeedsNoEscape};
ghost use Rattle.report_lines.specs.KeptTexts.{member_text};
ghost use Rattle.report_lines.specs.RouteLines.{addr_text, prefix_text};
ghost use Rattle.rib_report.specs.Lines.{churn_cells, fault_cells, origin_cells, peer_cells, row_cells, seen_cells, visibility_cells};
ghost use Rattle.rib_report.specs.Plain.{OriginRow, SeenRow, VisibilityRow};
ghost use Rattle.rib_report.specs.declared.reports.churn.ChurnRow.{ChurnRow as AnyChurn};
ghost use Rattle.rib_report.specs.declared.reports.peers.PeerRow.{PeerRow as AnyPeerRow};
ghost use Rattle.rib_report.specs.Rows.{TableRow, visibility_pair, origins_pair, seen_pair};
ghost use Rattle.rib_report.specs.Reports.{place_cmp, visibility_of, visibility_rows, origins_of, origin_rows, fault_rows, is_seen_at, is_visible_at, prefix_origin, prefix_origin_cmp, prefix_origin_eq, seen_of, seen_rows, route_rows, match_rows, churn_rows, peer_rows};
ghost use Rattle.report_laws.specs.Parts.{is_chosen_row, origins_seen, share_of, rest_of};

/// The reports on tables that stand for units and refusals have the rows that are defined over these alone,
/// where no lane, no number of workers and no order of collecting occurs. Tables that stand for the same units and
/// refusals are the same, and so have the same text in every report.
pub fn reports_are_of_units()
    ensures rows { (tables : TablesState) (units : List ReplayUnit) (refused : List ListedFault) →
        AreTablesOf tables units refused → HasReportsOf units refused tables }
    ensures same { (one other : TablesState) (units : List ReplayUnit) (refused : List ListedFault) →
        AreTablesOf one units refused → AreTablesOf other units refused → one ≡ other }
{}

/// Where state changes are taken as they are recorded, a peer is shown as up exactly if it is up.
pub fn recorded_peers_are_shown_as_they_are()
    ensures { (units : List ReplayUnit) (q : AnyPeer) → AreByRule Recorded units →
        (peer_at units q).is_established ≡ is_up (units_of_peer units q) }
{}

/// The rows of visibility are exactly the prefixes that are visible at a peer, each once and in order,
/// with the number of these peers.
pub fn visibility_counts_peers()
    ensures rows { (tables : TablesState) (prefix : IpPrefix) (peers : ℕ) →
        (find prefix_cmp prefix (map visibility_pair (visibility_rows tables)) ≡ Some peers)
        ↔ ((visibility_of tables prefix ≡ peers) × (1 ≤ peers)) }
    ensures sorted { (tables : TablesState) →
        IsTrue (is_sorted prefix_cmp (map visibility_pair (visibility_rows tables))) }
{}

/// The rows of origins are exactly the prefixes whose routes have at least two different origin ASes, each
/// once and in order, with all origin ASes of its routes at all peers (RFC 6811, 2).
pub fn origins_are_of_all_routes()
    ensures rows { (tables : TablesState) (prefix : IpPrefix) (origins : List ℕ) →
        (find prefix_cmp prefix (map origins_pair (origin_rows tables)) ≡ Some origins)
        ↔ ((origins_of tables prefix ≡ origins) × (2 ≤ length origins)) }
    ensures sorted { (tables : TablesState) →
        IsTrue (is_sorted prefix_cmp (map origins_pair (origin_rows tables))) }
{}

/// The rows of seen are exactly the prefixes and origin ASes of routes at a peer, each pair once and in order, with the
/// number of these peers.
pub fn seen_counts_peers()
    ensures rows { (tables : TablesState) (prefix : IpPrefix) (origin : Option ℕ) (peers : ℕ) →
        (find prefix_origin_cmp (prefix, origin) (map seen_pair (seen_rows tables)) ≡ Some peers)
        ↔ ((seen_of tables (prefix, origin) ≡ peers) × (1 ≤ peers)) }
    ensures sorted { (tables : TablesState) →
        IsTrue (is_sorted prefix_origin_cmp (map seen_pair (seen_rows tables))) }
{}

/// The origin ASes of a prefix at all peers are those in its rows of seen.
pub fn origins_are_of_seen_rows()
    ensures { (tables : TablesState) (prefix : IpPrefix) →
        origins_of tables prefix ≡ origins_seen (seen_rows tables) prefix }
{}

/// The numbers of peers of visibility and of seen are sums over shares of the peers.
pub fn counts_are_sums_over_shares()
    ensures visibility { (tables : TablesState) (is_in : PeerKey → Bool) (prefix : IpPrefix) →
        visibility_of (share_of is_in tables) prefix + visibility_of (rest_of is_in tables) prefix
        ≡ visibility_of tables prefix }
    ensures seen { (tables : TablesState) (is_in : PeerKey → Bool) (prefix : IpPrefix) (origin : Option ℕ) →
        seen_of (share_of is_in tables) (prefix, origin) + seen_of (rest_of is_in tables) (prefix, origin)
        ≡ seen_of tables (prefix, origin) }
{}

/// The rows of a share of the peers are those that its peers have in the whole report, in the same order.
pub fn rows_of_shares()
    ensures tables { (tables : TablesState) (is_in : PeerKey → Bool) →
        route_rows (share_of is_in tables) ≡ filter (λ row. is_in row.peer) (route_rows tables) }
    ensures matches { (tables : TablesState) (is_in : PeerKey → Bool) (addr : ℕ) →
        match_rows (share_of is_in tables) addr ≡ filter (λ row. is_in row.peer) (match_rows tables addr) }
    ensures churn { (tables : TablesState) (is_in : PeerKey → Bool) →
        churn_rows (share_of is_in tables) ≡ filter (λ row. is_in row.peer) (churn_rows tables) }
    ensures peers { (tables : TablesState) (is_in : PeerKey → Bool) →
        peer_rows (share_of is_in tables) ≡ filter (λ row. is_in row.peer) (peer_rows tables) }
{}

/// The rows of chosen keys and routes are those of the whole report whose key and route are chosen, in the same order.
/// A prefix is visible at a peer, or seen there with an origin AS, exactly if a chosen route there has it. And what is
/// chosen of a share of the peers is their share of what is chosen, so that the sums over shares hold for choices too.
pub fn rows_of_choices()
    ensures tables { (choices : Choices) (tables : TablesState) →
        route_rows (chosen_tables choices tables) ≡ filter (is_chosen_row choices) (route_rows tables) }
    ensures visibility { (choices : Choices) (seat : Seat) (prefix : IpPrefix) →
        is_visible_at prefix (chosen_seat choices seat)
        ≡ list_any (λ e. is_chosen_entry choices e && prefix_eq prefix e.0.prefix) seat.session.table }
    ensures seen { (choices : Choices) (seat : Seat) (pair : IpPrefix × Option ℕ) →
        is_seen_at pair (chosen_seat choices seat)
        ≡ list_any (λ e. is_chosen_entry choices e && prefix_origin_eq pair (prefix_origin e)) seat.session.table }
    ensures shares { (choices : Choices) (tables : TablesState) (is_in : PeerKey → Bool) →
        chosen_tables choices (share_of is_in tables) ≡ share_of is_in (chosen_tables choices tables) }
{}

/// Of the faults that pass any test, a share of the peers and the others list as many as the whole report, and the
/// refusals twice: each peer's faults are in one of them, and each has all refusals.
pub fn faults_of_shares()
    ensures { (tables : TablesState) (is_in : PeerKey → Bool) (test : Damage → Bool) →
        count_by test (fault_rows (share_of is_in tables)) + count_by test (fault_rows (rest_of is_in tables))
        ≡ count_by test (fault_rows tables) + count_by test tables.refused }
{}

/// The listed faults are ordered by place. Those of one place are the same, in the same order, as among all
/// faults: the refusals come first, then the peers' by number.
pub fn faults_stand_by_place()
    ensures sorted { (tables : TablesState) → IsSortedByKey (λ d. d.place) place_cmp (fault_rows tables) }
    ensures stable { (tables : TablesState) →
        IsStableByKey (λ d. d.place) place_cmp (all_faults tables) (fault_rows tables) }
{}

/// No row has a text that would need an escape in JSON: not in any field, and not in an address, a prefix or a member
/// of an attribute, which stand in quotes alone. In quotes, such a text is a value.
pub fn texts_need_no_escape()
    ensures routes { (layout : Layout) (row : TableRow) → NeedNoEscape (row_cells layout row) }
    ensures history { (layout : Layout) (row : RowState) → NeedNoEscape (history_cells layout row) }
    ensures visibility { (layout : Layout) (row : VisibilityRow) → NeedNoEscape (visibility_cells layout row) }
    ensures origins { (layout : Layout) (row : OriginRow) → NeedNoEscape (origin_cells layout row) }
    ensures seen { (layout : Layout) (row : SeenRow) → NeedNoEscape (seen_cells layout row) }
    ensures churn { (layout : Layout) (row : AnyChurn) → NeedNoEscape (churn_cells layout row) }
    ensures peers { (layout : Layout) (row : AnyPeerRow) → NeedNoEscape (peer_cells layout row) }
    ensures faults { (layout : Layout) (d : Damage) → NeedNoEscape (fault_cells layout d) }
    ensures addresses { (form : AddressForm) (addr : PeerAddr) → NeedsNoEscape (addr_text form addr) }
    ensures prefixes { (layout : Layout) (p : IpPrefix) → NeedsNoEscape (prefix_text layout p) }
    ensures members { (a : KeptAttribute) (m : List ℕ) → NeedsNoEscape (member_text a m) }
    ensures whole { (text : List ℕ) → NeedsNoEscape text → IsValue (quoted text) }
{}
