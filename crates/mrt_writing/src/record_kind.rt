//! The kinds of records in a dump of tables, and what stands before a record's body (RFC 6396, 2).

ghost use Rattle.std.specs.Prelude.{◌≡◌, ◌++◌, OnOk};
ghost use Rattle.mrt_writing.specs.Records.{record_head};
ghost use Rattle.mrt_writing.specs.Kinds.{mrt_type, mrt_subtype};

use bgp_prefix::Memory;
use bgp_update::Unicast;

/// A kind of record in a dump of tables.
#[derive(Clone, Copy, Debug, PartialEq, Eq)]
pub enum RecordKind {
    /// PEER_INDEX_TABLE (RFC 6396, 4.3.1).
    PeerIndexTable,
    /// BGP4MP_STATE_CHANGE_AS4 (RFC 6396, 4.4.1).
    StateChange,
    /// A RIB record of the family (RFC 6396, 4.3.2), with path identifiers (RFC 8050, 4) or without.
    Rib { add_path: bool },
    /// BGP4MP_MESSAGE_AS4 (RFC 6396, 4.4.3), or BGP4MP_MESSAGE_AS4_ADDPATH (RFC 8050, 3).
    Message { add_path: bool },
}

impl RecordKind {
    /// Its type: TABLE_DUMP_V2 or BGP4MP (RFC 6396, 4).
    fn mrt_type(self) -> u16
        ensures { result ≡ mrt_type self }
    {
        match self {
            RecordKind::PeerIndexTable => 13,
            RecordKind::StateChange => 16,
            RecordKind::Rib { add_path: _ } => 13,
            RecordKind::Message { add_path: _ } => 16,
        }
    }

    /// Its subtype, in this family.
    fn mrt_subtype<F: Unicast>(self) -> u16
        ensures { result ≡ mrt_subtype F.family self }
    {
        let encoding = F::encoding();
        match self {
            RecordKind::PeerIndexTable => 1,
            RecordKind::StateChange => 5,
            RecordKind::Rib { add_path: false } => encoding.rib,
            RecordKind::Rib { add_path: true } => encoding.rib_add_path,
            RecordKind::Message { add_path: false } => 4,
            RecordKind::Message { add_path: true } => 9,
        }
    }
}

/// Appends what stands before a body of so many bytes. The time is in seconds since 1970 UTC.
pub fn push_record_head<F: Unicast>(
    out: &mut Vec<u8>,
    seconds: u32,
    kind: RecordKind,
    len: u32,
) -> Result<(), Memory>
    ensures { OnOk result (out.new.items ≡ out.old.items
        ++ record_head seconds (mrt_type kind) (mrt_subtype F.family kind) len) }
{
    out.extend_from_slice(&seconds.to_be_bytes())?;
    out.extend_from_slice(&kind.mrt_type().to_be_bytes())?;
    out.extend_from_slice(&kind.mrt_subtype::<F>().to_be_bytes())?;
    out.extend_from_slice(&len.to_be_bytes())?;
    Ok(())
}
