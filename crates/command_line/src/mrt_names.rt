//! The names of the types and subtypes of MRT records (RFC 6396, 4 and appendix B; RFC 6397; RFC 8050).

ghost use Rattle.std.specs.Prelude.{◌≡◌};
ghost use Rattle.mrt_body.specs.Units.{body_kind_of, is_aside_content};

use bgp_update::Unicast;
use mrt_body::{BodyKind, body_kind_of};
use mrt_frame::Header;
use peer_units::TableDumpRule;
use std::fmt;

const TABLE_DUMP: u16 = 12;

const TABLE_DUMP_V2: u16 = 13;

const BGP4MP: u16 = 16;

const BGP4MP_ET: u16 = 17;

/// A type and a subtype of MRT records.
#[derive(Clone, Copy, Debug, PartialEq, Eq)]
pub struct RecordKind {
    pub kind: u16,
    pub subtype: u16,
}

impl RecordKind {
    /// Returns the type and the subtype that a header names.
    pub fn of(header: Header) -> RecordKind {
        RecordKind {
            kind: header.kind,
            subtype: header.subtype,
        }
    }

    /// Whether records of it are counted and not interpreted where the routes of a family are read, and this is done
    /// with TABLE_DUMP records.
    pub fn is_aside<F: Unicast>(self, table_dumps: TableDumpRule) -> bool
        ensures { result ≡ is_aside_content table_dumps (body_kind_of F.family self.kind self.subtype) }
    {
        match body_kind_of::<F>(self.kind, self.subtype) {
            BodyKind::Aside => true,
            BodyKind::OldEntry => match table_dumps {
                TableDumpRule::Aside => true,
                TableDumpRule::Read => false,
            },
            _ => false,
        }
    }

    /// The name of the type, if it has one.
    fn type_name(self) -> Option<&'static str> {
        let name = match self.kind {
            0 => "NULL",
            1 => "START",
            2 => "DIE",
            3 => "I_AM_DEAD",
            4 => "PEER_DOWN",
            5 => "BGP",
            6 => "RIP",
            7 => "IDRP",
            8 => "RIPNG",
            9 => "BGP4PLUS",
            10 => "BGP4PLUS_01",
            11 => "OSPFv2",
            TABLE_DUMP => "TABLE_DUMP",
            TABLE_DUMP_V2 => "TABLE_DUMP_V2",
            BGP4MP => "BGP4MP",
            BGP4MP_ET => "BGP4MP_ET",
            32 => "ISIS",
            33 => "ISIS_ET",
            48 => "OSPFv3",
            49 => "OSPFv3_ET",
            _ => return None,
        };
        Some(name)
    }

    /// The name of the subtype, if it has one.
    fn subtype_name(self) -> Option<&'static str> {
        let name = match (self.kind, self.subtype) {
            (TABLE_DUMP, 1) => "AFI_IPv4",
            (TABLE_DUMP, 2) => "AFI_IPv6",
            (TABLE_DUMP_V2, 1) => "PEER_INDEX_TABLE",
            (TABLE_DUMP_V2, 2) => "RIB_IPV4_UNICAST",
            (TABLE_DUMP_V2, 3) => "RIB_IPV4_MULTICAST",
            (TABLE_DUMP_V2, 4) => "RIB_IPV6_UNICAST",
            (TABLE_DUMP_V2, 5) => "RIB_IPV6_MULTICAST",
            (TABLE_DUMP_V2, 6) => "RIB_GENERIC",
            (TABLE_DUMP_V2, 7) => "GEO_PEER_TABLE",
            (TABLE_DUMP_V2, 8) => "RIB_IPV4_UNICAST_ADDPATH",
            (TABLE_DUMP_V2, 9) => "RIB_IPV4_MULTICAST_ADDPATH",
            (TABLE_DUMP_V2, 10) => "RIB_IPV6_UNICAST_ADDPATH",
            (TABLE_DUMP_V2, 11) => "RIB_IPV6_MULTICAST_ADDPATH",
            (TABLE_DUMP_V2, 12) => "RIB_GENERIC_ADDPATH",
            (BGP4MP | BGP4MP_ET, 0) => "BGP4MP_STATE_CHANGE",
            (BGP4MP | BGP4MP_ET, 1) => "BGP4MP_MESSAGE",
            (BGP4MP | BGP4MP_ET, 2) => "BGP4MP_ENTRY",
            (BGP4MP | BGP4MP_ET, 3) => "BGP4MP_SNAPSHOT",
            (BGP4MP | BGP4MP_ET, 4) => "BGP4MP_MESSAGE_AS4",
            (BGP4MP | BGP4MP_ET, 5) => "BGP4MP_STATE_CHANGE_AS4",
            (BGP4MP | BGP4MP_ET, 6) => "BGP4MP_MESSAGE_LOCAL",
            (BGP4MP | BGP4MP_ET, 7) => "BGP4MP_MESSAGE_AS4_LOCAL",
            (BGP4MP | BGP4MP_ET, 8) => "BGP4MP_MESSAGE_ADDPATH",
            (BGP4MP | BGP4MP_ET, 9) => "BGP4MP_MESSAGE_AS4_ADDPATH",
            (BGP4MP | BGP4MP_ET, 10) => "BGP4MP_MESSAGE_LOCAL_ADDPATH",
            (BGP4MP | BGP4MP_ET, 11) => "BGP4MP_MESSAGE_AS4_LOCAL_ADDPATH",
            _ => return None,
        };
        Some(name)
    }
}

impl fmt::Display for RecordKind {
    /// Writes the names of the type and the subtype, separated by a blank; a number where there is no name.
    fn fmt<W: fmt::Write>(&self, f: &mut fmt::Formatter<W>) -> fmt::Result {
        let kind = self.kind;
        let subtype = self.subtype;
        match self.type_name() {
            Some(name) => write!(f, "{name} ")?,
            None => write!(f, "{kind} ")?,
        }
        match self.subtype_name() {
            Some(name) => f.write_str(name),
            None => write!(f, "{subtype}"),
        }
    }
}
