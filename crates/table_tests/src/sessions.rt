//! Sessions that find no memory.

use crate::units::{entry_of, unit_of};
use adj_rib::{RouteId, Session};
use bgp_prefix::Memory;
use bgp_update::{AttributeSet, Rules, Width};
use fixtures::{bytes_of, message_of};
use peer_units::{Payload, PayloadBytes};
use prefix_maps::Radix;
use std::alloc::Global;
use std::process::Abort;
use std::test::Fail;

/// An entry of 10.0.0.0/8 by its name, or else the message in the record of this name.
fn payload_of(alloc: Global, name: &str) -> Result<Payload, Memory> {
    let id = match name {
        "entry" => 0,
        "entry-with-identifier" => 7,
        _ => {
            return Ok(Payload::Message {
                bytes: PayloadBytes::from_vec(message_of(alloc, name)?),
                width: Width::Four,
                add_path: name == "with-identifier",
                rules: Rules::new(AttributeSet::none()),
            });
        }
    };
    let attributes = bytes_of(alloc, "plain-attributes")?;
    Ok(entry_of(0x0A00_0000, 8, id, attributes))
}

/// Takes the unit of a name, and returns whether that found no memory: then the session is spent, and says so again.
fn is_spent_after(
    rt: &impl Abort,
    alloc: Global,
    session: &mut Session<Radix<u32, RouteId>>,
    name: &str,
) -> Result<bool, Memory> {
    let unit = unit_of(0, payload_of(alloc, name)?);
    let is_spent = session.take(alloc, &unit).is_err();
    assert!(rt; session.is_spent() == is_spent, "{name}");
    if is_spent {
        assert!(rt;
            session.take(alloc, &unit).is_err() && session.is_spent(),
            "{name}"
        );
    }
    Ok(is_spent)
}

/// Run with each allocation refused in turn (`tests/growths.sh`).
#[test]
fn a_session_is_spent_after_a_refused_growth(rt: HostRuntime) -> Result<(), Fail> {
    let alloc = rt.alloc();
    let names =
        "entry entry-with-identifier with-identifier withdrawn-and-announced bad-origin reached";
    let mut session = Session::<Radix<u32, RouteId>>::new(alloc);
    for name in names.split(' ') {
        if is_spent_after(&rt, alloc, &mut session, name)? {
            return Ok(());
        }
    }
    Ok(())
}
