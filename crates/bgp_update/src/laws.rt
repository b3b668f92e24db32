//! The laws of readings, of merging, and of damage that is handled. Nothing is computed.

ghost use Rattle.std.specs.Prelude.{◌≡◌, ◌↔◌, ℕ, Bool, List, Ok};
ghost use Rattle.mrt_frame.specs.Bytes.{AreBytes};
ghost use Rattle.bgp_update.specs.declared.route.Route.{Route};
ghost use Rattle.bgp_update.specs.declared.width.Width.{Width};
ghost use Rattle.bgp_update.specs.declared.error_rule.ErrorRule.{ErrorRule};
ghost use Rattle.bgp_update.specs.Families.{RouteRules};
ghost use Rattle.bgp_update.specs.Handling.{lacks_mandatory, recovered_route, recovered_update, withdrawing_if};
ghost use Rattle.bgp_update.specs.Attributes.{ReadsAsRoute, route_in};
ghost use Rattle.bgp_update.specs.Paths.{PathSegment, IsMerged, merged};
ghost use Rattle.bgp_update.specs.Updates.{Update, ReadsAsUpdate, update_in};

/// Bytes read as an UPDATE exactly if they are its fields in turn, and it is what those fields
/// say; as a route exactly if they are attributes that say it. They read in no other way.
pub fn updates_agree_with_their_forms()
    ensures updates { (rules : RouteRules) (width : Width) (add_path : Bool) (body : List ℕ) (update : Update) →
        AreBytes body →
        (update_in rules width add_path body ≡ Ok update) ↔ ReadsAsUpdate rules width add_path body update }
    ensures one_update { (rules : RouteRules) (width : Width) (add_path : Bool) (body : List ℕ) (update other : Update) →
        ReadsAsUpdate rules width add_path body update →
        ReadsAsUpdate rules width add_path body other → update ≡ other }
    ensures routes { (rules : RouteRules) (width : Width) (bytes : List ℕ) (route : Route) → AreBytes bytes →
        (route_in rules width bytes ≡ Ok route) ↔ ReadsAsRoute rules width bytes route }
    ensures one_route { (rules : RouteRules) (width : Width) (bytes : List ℕ) (route other : Route) →
        ReadsAsRoute rules width bytes route → ReadsAsRoute rules width bytes other → route ≡ other }
{}

/// Two paths have one merged path, and that is what `merged` yields (RFC 6793, 4.2.3).
pub fn merging_is_unique()
    ensures merged { (path as4 result : List PathSegment) → (result ≡ merged path as4) ↔ IsMerged path as4 result }
    ensures only { (path as4 result other : List PathSegment) →
        IsMerged path as4 result → IsMerged path as4 other → result ≡ other }
{}

/// Where damage is handled, an UPDATE and the attributes of an entry that have none are read as they are. Of such an
/// UPDATE whose announcements lack what they must have, all keys are withdrawn (RFC 7606, 3 (d)).
pub fn handling_keeps_what_is_sound()
    ensures updates { (errors : ErrorRule) (rules : RouteRules) (width : Width) (add_path : Bool) (body : List ℕ)
        (update : Update) → AreBytes body → update_in rules width add_path body ≡ Ok update →
        recovered_update errors rules width add_path body ≡ Ok (withdrawing_if (lacks_mandatory update) update) }
    ensures routes { (errors : ErrorRule) (rules : RouteRules) (width : Width) (bytes : List ℕ) (route : Route) →
        AreBytes bytes → route_in rules width bytes ≡ Ok route → recovered_route errors rules width bytes ≡ Ok route }
{}
