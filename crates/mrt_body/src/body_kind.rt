//! What a record holds, by its type and subtype (RFC 6396, 4; RFC 8050, 3 and 4).

ghost use Rattle.std.specs.Prelude.{◌≡◌};
ghost use Rattle.mrt_body.specs.Units as units_spec;
ghost use Rattle.mrt_body.specs.declared.body_kind.BodyKind.TheVariants.{Message};

use bgp_update::{Unicast, Width};

/// What a record holds.
#[derive(Clone, Copy, Debug, PartialEq, Eq)]
pub enum BodyKind {
    /// PEER_INDEX_TABLE.
    IndexTable,
    /// A RIB record of the family, with path identifiers or without.
    Rib { add_path: bool },
    /// A BGP message.
    Message { width: Width, add_path: bool },
    /// A state change.
    States { width: Width },
    /// An entry of TABLE_DUMP of the family.
    OldEntry,
    /// Something that is counted and not read.
    Aside,
}

/// TABLE_DUMP.
const TABLE_DUMP: u16 = 12;

/// TABLE_DUMP_V2.
const TABLE_DUMP_V2: u16 = 13;

/// BGP4MP.
const BGP4MP: u16 = 16;

/// BGP4MP with extended timestamps.
const BGP4MP_ET: u16 = 17;

/// Whether the body of a record begins with microseconds.
pub(crate) fn is_extended(kind: u16) -> bool
    ensures { result ≡ units_spec.is_extended kind }
{
    kind == BGP4MP_ET
}

fn dump_kind<F: Unicast>(subtype: u16) -> BodyKind
    ensures { result ≡ units_spec.dump_kind F.family subtype }
{
    let encoding = F::encoding();
    if subtype == 1 {
        BodyKind::IndexTable
    } else if subtype == encoding.rib {
        BodyKind::Rib { add_path: false }
    } else if subtype == encoding.rib_add_path {
        BodyKind::Rib { add_path: true }
    } else {
        BodyKind::Aside
    }
}

fn message(width: Width, add_path: bool) -> BodyKind
    ensures { result ≡ Message width add_path }
{
    BodyKind::Message { width, add_path }
}

fn session_kind(subtype: u16) -> BodyKind
    ensures { result ≡ units_spec.session_kind subtype }
{
    match subtype {
        0 => BodyKind::States { width: Width::Two },
        1 => message(Width::Two, false),
        4 => message(Width::Four, false),
        5 => BodyKind::States { width: Width::Four },
        8 => message(Width::Two, true),
        9 => message(Width::Four, true),
        _ => BodyKind::Aside,
    }
}

fn old_dump_kind<F: Unicast>(subtype: u16) -> BodyKind
    ensures { result ≡ units_spec.old_dump_kind F.family subtype }
{
    if subtype == F::encoding().afi {
        BodyKind::OldEntry
    } else {
        BodyKind::Aside
    }
}

/// Returns what a record of this type and subtype holds. RIB records of another family are set aside.
#[tactic(auto, unfolding(crate::specs::Units::body_kind_of))]
pub fn body_kind_of<F: Unicast>(kind: u16, subtype: u16) -> BodyKind
    ensures { result ≡ units_spec.body_kind_of F.family kind subtype }
{
    match kind {
        TABLE_DUMP_V2 => dump_kind::<F>(subtype),
        BGP4MP | BGP4MP_ET => session_kind(subtype),
        TABLE_DUMP => old_dump_kind::<F>(subtype),
        _ => BodyKind::Aside,
    }
}
