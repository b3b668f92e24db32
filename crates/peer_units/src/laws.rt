//! The laws of payloads. Nothing is computed.

ghost use Rattle.std.specs.Prelude.{◌≡◌, ◌↔◌, Ok};
ghost use Rattle.mrt_frame.specs.Bytes.{AreBytes};
ghost use Rattle.peer_units.specs.Plain.{Event, Payload};
ghost use Rattle.peer_units.specs.Events.{IsEvent, event_in};
ghost use Rattle.peer_units.specs.DecodedEvents.{is_recorded_event};
ghost use Rattle.peer_units.specs.Payloads.{is_recorded, payload_bytes};

/// A payload has an event exactly if reading it yields one, and no event but this one
/// (RFC 4271, 4.1 to 4.3). It is read by the family that it has.
pub fn events_agree_with_their_payloads()
    ensures events { (payload : Payload) (e : Event) → AreBytes (payload_bytes payload) →
        (event_in payload ≡ Ok e) ↔ IsEvent payload e }
    ensures one_event { (payload : Payload) (e other : Event) → IsEvent payload e → IsEvent payload other → e ≡ other }
{}

/// What a payload means tells whether a record has it of the peer: nothing but a clear means a clear.
pub fn clears_are_told()
    ensures { (payload : Payload) → is_recorded_event (event_in payload) ≡ is_recorded payload }
{}
