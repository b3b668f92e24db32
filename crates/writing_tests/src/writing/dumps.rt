//! A dump of two peers, record by record (RFC 6396, 2, 4.3 and 4.4; RFC 8050, 3 and 4), and what it is read as.

use super::expect_bytes;
use bgp_prefix::Prefix;
use bgp_update::Width;
use fixtures::bytes_of;
use mrt_body::Units;
use mrt_frame::Counted;
use mrt_writing::*;
use peer_units::{Found, Payload, PeerAddr, PeerKey, Selection, Unit};
use std::alloc::Global;
use std::process::Abort;

/// The peers of the dump.
const PEERS: [PeerKey; 2] = [
    PeerKey {
        asn: 65001,
        addr: PeerAddr::V4(0xC000_0201),
    },
    PeerKey {
        asn: 65002,
        addr: PeerAddr::V6(0x2001_0DB8_0000_0000_0000_0000_0000_0001),
    },
];

const INDEX: &str =
    "6553F100 000D 0001 0000002E 00000000 0000 0002 02 00000000 C0000201 0000FDE9 03 00000000 20010DB8000000000000000000000001 0000FDEA";

const UP: &str =
    "6553F100 0010 0005 00000018 0000FDE9 00000000 0000 0001 C0000201 00000000 0006 0006";

const DOWN: &str =
    "6553F100 0010 0005 00000030 0000FDEA 00000000 0000 0002 20010DB8000000000000000000000001 00000000000000000000000000000000 0006 0001";

const RIB: &str =
    "6553F100 000D 0002 00000026 00000007 16C63364 0001 0001 6553F100 0014 plain-attributes";

const RIB_ADD_PATH: &str =
    "6553F100 000D 0008 0000002A 00000008 16C63364 0001 0000 6553F100 00000102 0014 plain-attributes";

const UPDATE: &str =
    "6553F100 0010 0009 0000003B 0000FDE9 00000000 0000 0001 C0000201 00000000 marker 0027 02 0000 0010 40010100 4002060201 0000FDE8 400600";

/// Appends a record of this kind and body, in 2023.
fn push_record(rt: &impl Abort, out: &mut Vec<u8>, kind: RecordKind, body: &[u8]) {
    let len = body.len();
    assert!(rt; len < 1 << 24);
    push_record_head::<u32>(out, 1_700_000_000, kind, len as u32).expect(rt, "memory for a head");
    out.extend_from_slice(body).expect(rt, "memory for a body");
}

/// Appends a RIB record of one entry for 198.51.100.0/22.
fn push_rib(
    rt: &impl Abort,
    alloc: Global,
    out: &mut Vec<u8>,
    add_path: bool,
    sequence: u32,
    peer: u16,
    identifier: u32,
) {
    let prefix = Prefix::<u32>::new(0xC633_6400, 22).expect(rt, "a prefix");
    let attrs = bytes_of(alloc, "plain-attributes").expect(rt, "memory for attributes");
    let attrs = attrs.as_slice();
    assert!(rt; attrs.len() == 20);
    let mut body = Vec::new(alloc);
    push_rib_head(&mut body, sequence, &prefix, 1).expect(rt, "memory for a head");
    push_rib_entry(&mut body, add_path, peer, 1_700_000_000, identifier, attrs).expect(
        rt,
        "memory for an entry",
    );
    push_record(rt, out, RecordKind::Rib { add_path }, body.as_slice());
}

/// The dump: an index table, a state change of each peer, two RIB records, and an UPDATE.
fn dump_of(rt: &impl Abort, alloc: Global) -> Vec<u8> {
    let mut out = Vec::new(alloc);
    let mut body = Vec::new(alloc);
    push_index(&mut body, &PEERS).expect(rt, "memory for an index table");
    push_record(rt, &mut out, RecordKind::PeerIndexTable, body.as_slice());
    for (peer, up) in [(&PEERS[0], true), (&PEERS[1], false)] {
        body.clear();
        push_state_change(&mut body, peer, up).expect(rt, "memory for a state change");
        push_record(rt, &mut out, RecordKind::StateChange, body.as_slice());
    }
    push_rib(rt, alloc, &mut out, false, 7, 1, 0);
    push_rib(rt, alloc, &mut out, true, 8, 0, 258);
    let attrs = bytes_of(alloc, "bare-attributes 400600").expect(rt, "memory for attributes");
    let attrs = attrs.as_slice();
    assert!(rt; attrs.len() == 16);
    body.clear();
    push_update(&mut body, &PEERS[0], attrs).expect(rt, "memory for an update");
    push_record(
        rt,
        &mut out,
        RecordKind::Message { add_path: true },
        body.as_slice(),
    );
    out
}

#[test]
fn a_dump_has_the_bytes_of_its_records(rt: HostRuntime) {
    let alloc = rt.alloc();
    let dump = dump_of(&rt, alloc);
    let mut words = String::new(alloc);
    for record in [INDEX, UP, DOWN, RIB, RIB_ADD_PATH, UPDATE] {
        if !words.is_empty() {
            words.push(' ').expect(&rt, "memory for words");
        }
        words.push_str(record).expect(&rt, "memory for words");
    }
    expect_bytes(&rt, alloc, dump.as_slice(), &words);
}

fn unit_of<'a>(rt: &impl Abort, found: &'a Found) -> &'a Unit {
    match found {
        Found::Unit(unit) => unit,
        Found::Refused(damage) => panic!(rt; "{damage:?} in place of a unit"),
    }
}

/// Expects a unit of this payload by number: a state change, an entry or a message.
fn expect_unit(rt: &impl Abort, unit: &Unit, peer: &PeerKey, words: &str) {
    assert!(rt; unit.peer == *peer && unit.time == 1_700_000_000_000_000);
    let said = match &unit.payload {
        Payload::State {
            from: 6,
            to: 6,
            rule: _,
        } => "up",
        Payload::State {
            from: 6,
            to: 1,
            rule: _,
        } => "down",
        Payload::Entry { key, attrs, .. } => {
            assert!(rt; key.prefix.addr() == 0xC633_6400 && key.prefix.len() == 22);
            assert!(rt; attrs.as_slice().len() == 20);
            match key.id {
                0 => "entry",
                258 => "entry with an identifier",
                _ => "entry with another identifier",
            }
        }
        Payload::Message {
            bytes,
            width: Width::Four,
            add_path: true,
            ..
        } => {
            assert!(rt; bytes.as_slice().len() == 39);
            "message"
        }
        _ => "another",
    };
    assert!(rt; said == words);
}

#[test]
fn a_dump_is_read_as_its_units(rt: HostRuntime) {
    let alloc = rt.alloc();
    let dump = dump_of(&rt, alloc);
    let mut files = [Counted::new(dump.as_slice())];
    let mut units = Units::new(alloc, 1, 1000, Selection::all(alloc));
    for (peer, words) in [
        (&PEERS[0], "up"),
        (&PEERS[1], "down"),
        (&PEERS[1], "entry"),
        (&PEERS[0], "entry with an identifier"),
        (&PEERS[0], "message"),
    ] {
        assert!(rt; units.count() == files.len());
        let found = units.next(alloc, &mut files).expect(&rt, "no error");
        let found = found.expect(&rt, "a unit");
        expect_unit(&rt, unit_of(&rt, &found), peer, words);
    }
    assert!(rt; units.count() == files.len());
    let found = units.next(alloc, &mut files).expect(&rt, "no error");
    assert!(rt; found.is_none());
}
