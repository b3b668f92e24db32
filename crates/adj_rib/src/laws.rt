//! The laws of tables and where their routes come from, of selections of keys, and of the rules by which state changes
//! are taken. Nothing is computed.

ghost use Rattle.std.specs.Prelude.{◌≡◌, ◌↔◌, List, Some, T, [], ◌∷◌, ◌++◌, Bool, None, false, ◌≢◌, ◌⊎◌, ℕ, true, ◌==◌};
ghost use Rattle.std.specs.FinMap.{find, is_sorted};
ghost use Rattle.bgp_prefix.specs.Keys.{key_cmp, RouteKey};
ghost use Rattle.bgp_update.specs.declared.route.Route.{Route};
ghost use Rattle.adj_rib.specs.Steps.{Step, steps_of, is_established, is_up};
ghost use Rattle.adj_rib.specs.Tables.{Holds, table_of};
ghost use Rattle.peer_units.specs.Plain.{Unit as ReplayUnit, PrefixChoice as Choice};
ghost use Rattle.adj_rib.specs.Sources.{ComesFrom, EndsRoutes};
ghost use Rattle.peer_units.specs.Choices.{Choices, every_choice};
ghost use Rattle.peer_units.specs.Selections.{concerns};
ghost use Rattle.adj_rib.specs.Churns.{churn_of, outcomes_of};
ghost use Rattle.adj_rib.specs.Histories.{chosen_notes, churn_within, unit_notes};
ghost use Rattle.adj_rib.specs.Selecting.{chooses, concerned, selected_steps, selected_entries, selected_outcomes};
ghost use Rattle.peer_units.specs.declared.state_rule.StateRule.TheVariants.{Established, Recorded};
ghost use Rattle.peer_units.specs.declared.unit.Payload.TheVariants.{State};
ghost use Rattle.peer_units.specs.States.{ESTABLISHED, AreByRule, breaks};

/// The table that steps leave has exactly the routes that hold, in the order of their keys.
pub fn table_has_what_holds()
    ensures pairs { (steps : List Step) (key : RouteKey) (route : Route) →
        (find key_cmp key (table_of steps) ≡ Some route) ↔ Holds steps key route }
    ensures sorted { (steps : List Step) → T (is_sorted key_cmp (table_of steps)) }
{}

/// Each route of a table was announced by a unit that came while the peer was up, and after the last
/// break or clear, which leaves none.
pub fn routes_come_while_up()
    ensures source { (units : List ReplayUnit) (key : RouteKey) (route : Route) →
        find key_cmp key (table_of (steps_of units)) ≡ Some route → ComesFrom units key route }
    ensures emptied { (units : List ReplayUnit) (unit : ReplayUnit) → EndsRoutes unit.payload →
        table_of (steps_of (units ++ unit ∷ [])) ≡ [] }
{}

/// The table of selected steps is the selection of the table of all steps, and each of them has the outcome that it has
/// among all.
pub fn selections_commute()
    ensures tables { (selects : RouteKey → Bool) (steps : List Step) →
        table_of (selected_steps selects steps) ≡ selected_entries selects (table_of steps) }
    ensures outcomes { (selects : RouteKey → Bool) (steps : List Step) →
        outcomes_of (selected_steps selects steps) ≡ selected_outcomes selects steps }
{}

/// Selecting a peer's units before they are taken makes no difference to the chosen prefixes: their routes are the
/// same, and so is what was done to them; and the peer is up or not as it was, and its session established or not.
pub fn early_is_late()
    ensures state { (choices : List Choice) (units : List ReplayUnit) → is_up (concerned choices units) ≡ is_up units }
    ensures established { (choices : List Choice) (units : List ReplayUnit) →
        is_established (concerned choices units) ≡ is_established units }
    ensures routes { (choices : List Choice) (units : List ReplayUnit) →
        selected_entries (chooses choices) (table_of (steps_of (concerned choices units)))
        ≡ selected_entries (chooses choices) (table_of (steps_of units)) }
    ensures outcomes { (choices : List Choice) (units : List ReplayUnit) →
        selected_outcomes (chooses choices) (steps_of (concerned choices units))
        ≡ selected_outcomes (chooses choices) (steps_of units) }
{}

/// A unit that can't concern a chosen prefix does nothing to the keys of these, and makes no difference to what later
/// units do to them.
pub fn notes_are_of_concerned()
    ensures others { (choices : Choices) (before : List ReplayUnit) (unit : ReplayUnit) →
        concerns choices.prefixes unit.payload ≡ false → chosen_notes choices (unit_notes before unit) ≡ [] }
    ensures early { (choices : Choices) (before : List ReplayUnit) (unit : ReplayUnit) →
        chosen_notes choices (unit_notes (concerned choices.prefixes before) unit)
        ≡ chosen_notes choices (unit_notes before unit) }
{}

/// Where neither a second nor prefixes nor routes are named, what is counted by notes is what is counted by steps.
pub fn counts_are_of_all_units()
    ensures { (units : List ReplayUnit) → churn_within None every_choice units ≡ churn_of units }
{}

/// Where state changes are taken as they are recorded, one is a break unless both its states are Established; after one
/// a peer is up exactly if the new state is Established; and its session is established exactly if it is up.
pub fn recorded_states_decide()
    ensures breaks { (from to : ℕ) → (breaks Recorded from to ≡ false) ↔ ((from ≡ ESTABLISHED) × (to ≡ ESTABLISHED)) }
    ensures up { (before : List ReplayUnit) (unit : ReplayUnit) (from to : ℕ) →
        unit.payload ≡ State from to Recorded → is_up (before ++ unit ∷ []) ≡ (to == ESTABLISHED) }
    ensures established { (units : List ReplayUnit) → AreByRule Recorded units → is_established units ≡ is_up units }
{}

/// Where they are taken by Established, one is a break exactly if one of its states is Established and the other isn't;
/// a peer is up throughout, so that no unit is idle.
pub fn established_sessions_decide()
    ensures breaks { (from to : ℕ) → (breaks Established from to ≡ true)
        ↔ (((from ≡ ESTABLISHED) × (to ≢ ESTABLISHED)) ⊎ ((from ≢ ESTABLISHED) × (to ≡ ESTABLISHED))) }
    ensures up { (units : List ReplayUnit) → AreByRule Established units → is_up units ≡ true }
    ensures idle { (units : List ReplayUnit) → AreByRule Established units → (churn_of units).idle ≡ 0 }
{}
