//! The types of path attributes that are looked at. `attribute.rt` has the check of each type's value (`head_fault`)
//! and which repeats are refused; `values.rt` keeps the first value of each type; `route_fields.rt` reads a route's
//! fields from these (`route_from`), and `multiprotocol.rt` the keys of MP_REACH_NLRI and MP_UNREACH_NLRI.

ghost use Rattle.std.specs.Prelude.{◌≡◌};
ghost use Rattle.bgp_update.specs.AttributeTypes.{type_code, type_of, bad_attribute};

use crate::kept_attribute::KeptAttribute;
use mrt_frame::Fault;

/// A path attribute type that is looked at (RFC 4271, 4.3).
#[derive(Clone, Copy)]
pub enum AttributeType {
    /// ORIGIN (RFC 4271, 5.1.1), read by `origin_of`.
    Origin,
    /// AS_PATH (RFC 4271, 5.1.2), read by `read_path`.
    AsPath,
    /// NEXT_HOP (RFC 4271, 5.1.3), read by `next_hop_value`.
    NextHop,
    /// MULTI_EXIT_DISC (RFC 4271, 5.1.4), read by `number_value`.
    MultiExitDisc,
    /// LOCAL_PREF (RFC 4271, 5.1.5), read by `number_value`.
    LocalPref,
    /// ATOMIC_AGGREGATE (RFC 4271, 5.1.6), which has no value.
    AtomicAggregate,
    /// AGGREGATOR (RFC 4271, 5.1.7), read by `aggregator_of`.
    Aggregator,
    /// MP_REACH_NLRI (RFC 4760, 3), read by `reach_in`.
    MpReachNlri,
    /// MP_UNREACH_NLRI (RFC 4760, 4), read by `unreach_in`.
    MpUnreachNlri,
    /// AS4_PATH (RFC 6793, 3), read by `as4_path_value`: nothing is wrong with any value.
    As4Path,
    /// AS4_AGGREGATOR (RFC 6793, 3), read by `as4_aggregator_of`: nothing is wrong with any value.
    As4Aggregator,
    /// One that a route keeps where it is asked for.
    Kept(KeptAttribute),
}

impl AttributeType {
    /// Returns the type of a type code, and None for a type that isn't looked at.
    #[inline(always)]
    pub fn of_code(code: u8) -> Option<AttributeType>
        ensures { result ≡ type_of code }
    {
        match code {
            1 => Some(AttributeType::Origin),
            2 => Some(AttributeType::AsPath),
            3 => Some(AttributeType::NextHop),
            4 => Some(AttributeType::MultiExitDisc),
            5 => Some(AttributeType::LocalPref),
            6 => Some(AttributeType::AtomicAggregate),
            7 => Some(AttributeType::Aggregator),
            14 => Some(AttributeType::MpReachNlri),
            15 => Some(AttributeType::MpUnreachNlri),
            17 => Some(AttributeType::As4Path),
            18 => Some(AttributeType::As4Aggregator),
            _ => match KeptAttribute::of_code(code) {
                Some(attribute) => Some(AttributeType::Kept(attribute)),
                None => None,
            },
        }
    }

    /// Its type code.
    pub fn code(self) -> u8
        ensures { result ≡ type_code self }
    {
        match self {
            AttributeType::Origin => 1,
            AttributeType::AsPath => 2,
            AttributeType::NextHop => 3,
            AttributeType::MultiExitDisc => 4,
            AttributeType::LocalPref => 5,
            AttributeType::AtomicAggregate => 6,
            AttributeType::Aggregator => 7,
            AttributeType::MpReachNlri => 14,
            AttributeType::MpUnreachNlri => 15,
            AttributeType::As4Path => 17,
            AttributeType::As4Aggregator => 18,
            AttributeType::Kept(attribute) => attribute.code(),
        }
    }

    /// The fault of a malformed attribute of this type, or of a repeat that is refused.
    pub fn fault(self) -> Fault
        ensures { result ≡ bad_attribute self }
    {
        Fault::BadAttribute(self.code())
    }
}
