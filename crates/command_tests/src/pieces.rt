//! What is told of a dump's bytes as they pass by, whatever pieces they come in.

use command_line::{AddressFamily, FirstBytes, Kind, Records};
use fixtures::bytes_of;
use peer_units::TableDumpRule;
use std::test::Fail;

/// Five records and the header of a sixth, whose body is too long: RIB_IPV4_UNICAST at 7 with two bytes,
/// RIB_IPV6_UNICAST at 8 with none and at 9 with three, OSPFv2 at 10 with one, BGP4MP_MESSAGE at 11 with
/// none.
const RECORDS: &str =
    "rib-ipv4-of-second-7 rib-ipv6-of-second-8 rib-ipv6-of-second-9 ospfv2-of-second-10 message-of-second-11 header-of-too-long-rib-record";

const ZIP: &[u8] = b"PK\x03\x04\x14\x00\x00\x00";

/// RIB records of IPv6 routes are aside, and the one of OSPFv2.
#[test]
fn pieces_of_a_dump_are_one_dump(rt: HostRuntime) -> Result<(), Fail> {
    let dump = bytes_of(rt.alloc(), RECORDS)?;
    for piece in [1usize, 2, 5, 11, 12, 13, 64, 1000] {
        let mut records = Records::new(rt.alloc(), AddressFamily::Ipv4, TableDumpRule::Aside);
        let mut first = FirstBytes::new();
        for bytes in dump.as_slice().chunks(piece.max(1)) {
            records.take(bytes);
            first.take(bytes);
        }
        let counts = (records.count(), records.aside(), records.whole_bytes());
        assert!(rt; counts == (5, 3, 66), "{piece}");
        let seconds = (records.first(), records.last(), first.first_second(14));
        assert!(rt; seconds == (Some(7), Some(11), Some(7)), "{piece}");
        assert!(rt;
            first.kind().is_none() && first.first_second(13).is_none(),
            "{piece}"
        );
        match records.kinds() {
            [ribs, others] => assert!(rt; ribs.count == 2 && others.count == 1, "{piece}"),
            _ => assert!(rt; false, "{piece}"),
        }
    }
    Ok(())
}

#[test]
fn pieces_of_a_packed_file_are_one_file(rt: HostRuntime) {
    for piece in [1usize, 3, 8] {
        let mut first = FirstBytes::new();
        for bytes in ZIP.chunks(piece.max(1)) {
            first.take(bytes);
        }
        assert!(rt; first.kind() == Some(Kind::Zip), "{piece}");
    }
}

/// TABLE_DUMP records of the family are aside unless they are read, and those of the other family are.
#[test]
fn table_dumps_are_aside_unless_they_are_read(rt: HostRuntime) -> Result<(), Fail> {
    let dump = bytes_of(rt.alloc(), "table-dump")?;
    for (family, table_dumps, aside) in [
        (AddressFamily::Ipv4, TableDumpRule::Aside, 1),
        (AddressFamily::Ipv4, TableDumpRule::Read, 0),
        (AddressFamily::Ipv6, TableDumpRule::Aside, 1),
        (AddressFamily::Ipv6, TableDumpRule::Read, 1),
    ] {
        let mut records = Records::new(rt.alloc(), family, table_dumps);
        records.take(dump.as_slice());
        let counts = (records.count(), records.aside());
        assert!(rt; counts == (1, aside), "{aside}");
    }
    Ok(())
}
