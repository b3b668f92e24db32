//! The laws of bodies and of whole readings. Nothing is computed.

ghost use Rattle.std.specs.Prelude.{◌≡◌, ◌↔◌, ℕ, Bool, List, Option, Ok, Err, ◌++◌, Some, length, map, true};
ghost use Rattle.mrt_frame.specs.Bytes.{AreBytes};
ghost use Rattle.mrt_frame.specs.declared.fault.Fault.{Fault};
ghost use Rattle.mrt_body.specs.declared.record_place.RecordAt.{RecordAt};
ghost use Rattle.mrt_body.specs.declared.body_kind.BodyKind.{BodyKind};
ghost use Rattle.peer_units.specs.Plain.{Unit as ReplayUnit, Found};
ghost use Rattle.peer_units.specs.declared.unit.PeerKey.{PeerKey};
ghost use Rattle.mrt_body.specs.Indexes.{peers_in};
ghost use Rattle.mrt_body.specs.Units.{units_in, aside_of, found_in, records_of, units_of};
ghost use Rattle.peer_units.specs.Payloads.{is_recorded};
ghost use Rattle.mrt_body.specs.Agreement.{IsIndexBody, Agrees};
ghost use Rattle.mrt_body.specs.Refusals.{IsRefused};
ghost use Rattle.std.specs.List.{All};
ghost use Rattle.mrt_frame.specs.declared.error.ReplayError.TheVariants.{Read};
ghost use Rattle.peer_units.specs.Choices.{UnitSelection};
ghost use Rattle.mrt_body.specs.ToCome.{UnitsState, FailsBehind, GivesAllBefore, HasEnded, TakesFound, fresh_units};
ghost use Rattle.mrt_body.specs.Tellings.{AllTold, AreWhole};
ghost use Rattle.peer_units.specs.States.{AreByRule, AreReadBy};
ghost use Rattle.peer_units.specs.declared.rib_rule.RibRule.TheVariants.{Add};

use mrt_frame::Source;

/// A record yields units exactly if its body agrees with its form (RFC 6396, 4.2 to 4.4; RFC 8050),
/// and only these units: the bytes can be read in no other way. Any other record is refused for the
/// first of its fields that is broken.
pub fn bodies_agree_with_their_forms()
    ensures peers { (body : List ℕ) (peers : List PeerKey) → AreBytes body →
        (peers_in body ≡ Ok peers) ↔ IsIndexBody body peers }
    ensures units { (selection : UnitSelection) (known : List PeerKey) (at : RecordAt) (extended : Bool) (index : Option (List PeerKey))
        (content : BodyKind) (body : List ℕ) (units : List ReplayUnit) → AreBytes body →
        (units_in selection known at extended index content body ≡ Ok units) ↔ Agrees selection known at extended index content body units }
    ensures only { (selection : UnitSelection) (known : List PeerKey) (at : RecordAt) (extended : Bool) (index : Option (List PeerKey))
        (content : BodyKind) (body : List ℕ) (units others : List ReplayUnit) →
        Agrees selection known at extended index content body units →
        Agrees selection known at extended index content body others → units ≡ others }
    ensures refused { (selection : UnitSelection) (known : List PeerKey) (at : RecordAt) (extended : Bool) (index : Option (List PeerKey))
        (content : BodyKind) (body : List ℕ) (fault : Fault) → AreBytes body →
        (units_in selection known at extended index content body ≡ Err fault) ↔ IsRefused selection known at extended index content body fault }
{}

/// What calls of `Units::next` returned joins, in order. What was returned from `Units::new` on is a front
/// of what the files hold, even if a call then returns an error, as no later call returns more.
/// From `Units::new` to `None` it is everything, and all records were counted. Up to `Read` it is everything
/// before the record whose read failed.
pub fn readings_give_all_found()
    ensures joined { (first second third : UnitsState)
        (old mid new : List (Option (List ℕ))) (given more : List Found) →
        TakesFound first old second mid given → TakesFound second mid third new more →
        TakesFound first old third new (given ++ more) }
    ensures front { (count max_records : ℕ) (selection : UnitSelection) (last : UnitsState)
        (contents : List (List ℕ)) (left : List (Option (List ℕ))) (given : List Found) →
        TakesFound (fresh_units count max_records selection) (map (λ bytes. Some bytes) contents) last left given →
        (rest : List Found) × (found_in selection contents ≡ given ++ rest) }
    ensures whole { (count max_records : ℕ) (selection : UnitSelection) (last : UnitsState)
        (contents : List (List ℕ)) (left : List (Option (List ℕ))) (given : List Found) →
        TakesFound (fresh_units count max_records selection) (map (λ bytes. Some bytes) contents) last left given →
        HasEnded last → length left ≡ last.count →
        (given ≡ found_in selection contents) × (last.records ≡ records_of contents) × (last.aside ≡ aside_of selection contents) }
    ensures failed { (count max_records file : ℕ) (selection : UnitSelection) (last stopped : UnitsState)
        (contents : List (List ℕ)) (left after : List (Option (List ℕ))) (given : List Found) →
        TakesFound (fresh_units count max_records selection) (map (λ bytes. Some bytes) contents) last left given →
        GivesAllBefore last left stopped after (Read file) →
        FailsBehind (fresh_units count max_records selection) contents stopped after given }
{}

/// Each state change has the rule that the selection asks for.
pub fn units_have_their_rule()
    ensures { (selection : UnitSelection) (files : List (List ℕ)) →
        AreByRule selection.states (units_of selection files) }
{}

/// Each message and each entry has the rules that the selection asks for: a message as they are for its peer, which
/// differ where damage is handled alone, and an entry with the width of its AS numbers.
pub fn units_have_their_rules()
    ensures { (selection : UnitSelection) (files : List (List ℕ)) →
        AreReadBy selection.rules (units_of selection files) }
{}

/// Where RIB dumps are added, no unit is a clear.
pub fn added_dumps_clear_nothing()
    ensures { (selection : UnitSelection) (files : List (List ℕ)) → selection.ribs ≡ Add →
        All (λ unit. is_recorded unit.payload ≡ true) (units_of selection files) }
{}

/// What was given is what whole files hold that begin with what was read of them, and what files hold whose readers
/// make their bytes known.
pub fn tellings_are_of_files<R: Source>(_device: &R)
    ensures whole { (a b : UnitsState) (files left : List R) (taken : List Found)
        (t : AllTold R.reads files left a.file b.file (λ told now. TakesFound a told b now taken))
        (rests wholes : List (List ℕ)) → AreWhole t.inputs rests wholes →
        TakesFound a (map (λ bytes. Some bytes) wholes) b (map (λ bytes. Some bytes) rests) taken }
    ensures joined { (a b c : UnitsState) (files mids left : List R) (taken more : List Found) →
        AllTold R.reads files mids a.file b.file (λ told now. TakesFound a told b now taken) →
        AllTold R.reads mids left b.file c.file (λ told now. TakesFound b told c now more) →
        AllTold R.reads files left a.file c.file (λ told now. TakesFound a told c now (taken ++ more)) }
    ensures known { (a b : UnitsState) (files left : List R) (taken : List Found) →
        AllTold R.reads files left a.file b.file (λ told now. TakesFound a told b now taken) →
        TakesFound a (map R.remaining files) b (map R.remaining left) taken }
{}
