//! The units of BGP4MP records.

ghost use Rattle.std.specs.Prelude.{◌≤◌, ◌≡◌, [], IfOk, length};
ghost use Rattle.mrt_frame.specs.Cuts.{body_limit};
ghost use Rattle.mrt_frame.specs.Fields.{Reads};
ghost use Rattle.mrt_body.specs.Units as units_spec;
ghost use Rattle.peer_units.specs.Payloads.{payload_bytes};

use crate::bgp4mp::{StateChange, microseconds_at, session_peer_at};
use crate::body_unit::{BodyEnd, BodyUnit};
use crate::record_place::RecordAt;
use bgp_prefix::Sequence;
use bgp_update::{Rules, Unicast, Width};
use mrt_frame::Fault;
use peer_units::{Payload, PeerKey, StateRule, Unit};

/// Returns the unit of a message, whose bytes are the end of the body, and which has these rules as they are for its
/// peer.
#[tactic(auto, unfolding(crate::specs::Units::message_unit))]
pub(crate) fn message_unit<F: Unicast>(
    rules: Rules<F>,
    at: RecordAt,
    is_extended: bool,
    width: Width,
    add_path: bool,
    body: Sequence<u8>,
) -> Result<BodyUnit<F>, Fault>
    requires { length body ≤ body_limit }
    ensures reads { Reads (λ unit. unit) result (units_spec.message_unit rules at is_extended width add_path body) }
    ensures small { IfOk result (λ unit. length (payload_bytes unit.payload) ≤ length body) }
{
    let bytes = body.as_slice();
    let (microseconds, after) = microseconds_at(bytes, is_extended)?;
    let (peer, rest) = session_peer_at(after, width)?;
    let start = bytes.len() - rest.len();
    let told = rules.of_peer(peer.is_external);
    Ok(Unit {
        place: at.place(None),
        time: at.time(microseconds),
        peer: peer.key,
        payload: Payload::Message {
            bytes: BodyEnd::new(body, start),
            width,
            add_path,
            rules: told,
        },
    })
}

/// Returns the unit of a state change of this peer, which is taken by this rule.
#[inline(always)]
pub(crate) fn change_unit<F: Unicast>(
    rule: StateRule,
    at: RecordAt,
    change: &StateChange,
    peer: PeerKey,
) -> BodyUnit<F>
    ensures unit { result ≡ units_spec.change_unit rule at change.now peer }
    ensures small { payload_bytes result.payload ≡ [] }
{
    Unit {
        place: at.place(None),
        time: at.time(change.microseconds),
        peer,
        payload: Payload::State {
            from: change.from,
            to: change.to,
            rule,
        },
    }
}
