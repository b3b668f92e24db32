//! The laws of what tables stand for, of what happened at all peers, and of replays that take some of the peers.
//! Nothing is computed.

ghost use Rattle.std.specs.Prelude.{◌≡◌, IsPermutation, List, Bool, true, map};
ghost use Rattle.peer_units.specs.declared.unit.Damage.{Damage as ListedFault};
ghost use Rattle.peer_units.specs.Plain.{Unit as ReplayUnit};
ghost use Rattle.peer_tables.specs.declared.tables.Gathered.{Gathered as LanesIn};
ghost use Rattle.peer_tables.specs.Tables.{Seat, TablesState, IsCollected, tables_of};
ghost use Rattle.peer_tables.specs.Gathers.{gathered_seats};
ghost use Rattle.peer_tables.specs.Standing.{AreSeatsOf, AreTablesOf};
ghost use Rattle.peer_units.specs.declared.unit.PeerKey.{PeerKey as AnyPeer};
ghost use Rattle.route_choice.specs.Choices.{every_route};
ghost use Rattle.peer_units.specs.Choices.{Choices};
ghost use Rattle.adj_rib.specs.Histories.{meets_choice};
ghost use Rattle.adj_rib.specs.Plain.{Note as AnyNote};
ghost use Rattle.peer_tables.specs.declared.history.Listing.{Listing as AnyListing};
ghost use Rattle.peer_tables.specs.Histories.{history_of, history_of_own, history_rows, history_where, is_listed, row_of};
ghost use Rattle.peer_tables.specs.Peers.{peer_eq, units_of_peer, peers_of};
ghost use Rattle.peer_tables.specs.Shares.{units_where};
ghost use Rattle.std.specs.List.{filter};

use adj_rib::RouteId;
use bgp_prefix::PrefixMap;

/// Units and refusals have exactly one value of the tables that stand for them.
pub fn tables_are_of_units()
    ensures only { (tables : TablesState) (units : List ReplayUnit) (refused : List ListedFault) →
        AreTablesOf tables units refused → tables ≡ tables_of units refused }
    ensures stand { (units : List ReplayUnit) (refused : List ListedFault) →
        AreTablesOf (tables_of units refused) units refused }
{}

/// What `collect` returns for the sessions of all peers stands for their units, provided that the caller passes,
/// under each peer's number, one session that took that peer's units.
pub fn collected_stand_for_units()
    ensures { (seats : List Seat) (refused : List ListedFault) (tables : TablesState) (units : List ReplayUnit) →
        IsCollected seats refused tables → AreSeatsOf units seats → AreTablesOf tables units refused }
{}

/// What `collect` returns doesn't depend on how the sessions were spread over the lanes, nor on their order
/// there: if the lanes hold the same sessions and the refusals are the same, the tables are the same.
pub fn lanes_make_no_difference<M: PrefixMap<RouteId>>()
    ensures { (gathered others : LanesIn M M.Addr) (tables other : TablesState) →
        IsPermutation (gathered_seats gathered) (gathered_seats others) → gathered.refused ≡ others.refused →
        IsCollected (gathered_seats gathered) gathered.refused tables →
        IsCollected (gathered_seats others) others.refused other →
        tables ≡ other }
{}

/// Of all that happened, what happened at a peer is what its own units did, and what happened at some peers is what
/// their units did, in the same order.
pub fn histories_are_of_peers()
    ensures one { (units : List ReplayUnit) (q : AnyPeer) →
        history_of_own (units_of_peer units q) ≡ history_where (λ p. peer_eq p q) (history_of units) }
    ensures some { (takes : AnyPeer → Bool) (units : List ReplayUnit) →
        history_of (units_where takes units) ≡ history_where takes (history_of units) }
{}

/// The rows under a choice of routes are those of what happened to all routes of the chosen keys where the route after
/// or the one before is chosen, in the same order: so a key has one where it comes to a chosen route, where it has one
/// again, and where it leaves it. Where no route is named, all have rows.
pub fn rows_follow_chosen_routes()
    ensures rows { (listing : AnyListing) (choices : Choices) (units : List ReplayUnit) →
        history_rows listing choices units
        ≡ map row_of (filter (λ e. meets_choice choices.routes e.1)
        (filter (is_listed listing (record { prefixes = choices.prefixes; routes = every_route })) (history_of units))) }
    ensures unnamed { (note : AnyNote) → meets_choice every_route note ≡ true }
{}

/// A replay of the units of some peers has these peers in the same order, each with all its units: so with the same
/// table, churn and faults.
pub fn shares_keep_peers()
    ensures peers { (takes : AnyPeer → Bool) (units : List ReplayUnit) →
        peers_of (units_where takes units) ≡ filter takes (peers_of units) }
    ensures units { (takes : AnyPeer → Bool) (units : List ReplayUnit) (q : AnyPeer) → takes q ≡ true →
        units_of_peer (units_where takes units) q ≡ units_of_peer units q }
{}
