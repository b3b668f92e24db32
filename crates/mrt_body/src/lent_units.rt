//! Units that are lent, in their order, by the record that was cut last.

ghost use Rattle.std.specs.Prelude.{◌≡◌, ◌≤◌, ◌+◌, ◌∷◌, [], length, take, drop, None, IfSome};
ghost use Rattle.peer_units.specs.Payloads.{IsSmallUnit};

use crate::record_place::RecordAt;
use crate::rib::ListedEntry;
use bgp_prefix::{Prefix, RouteKey};
use bgp_update::{Rules, Unicast};
use peer_units::{BytesRef, Payload, PeerKey, Unit, UnitRef};
use std::marker::Model;

/// Returns this many bytes from a position on.
fn bytes_from(bytes: &[u8], start: usize, len: usize) -> &[u8]
    requires { start + len ≤ length bytes.now }
    ensures { result.now ≡ take len (drop start bytes.now) }
{
    &bytes[start..start + len]
}

/// The entries that are left of a RIB record, which contracts see as the list of their units.
#[derive(Drop)]
pub struct LentEntries<'a, F: Unicast> {
    pub(crate) at: RecordAt,
    pub(crate) rules: Rules<F>,
    pub(crate) prefix: Prefix<F>,
    pub(crate) body: &'a [u8],
    pub(crate) peers: &'a [PeerKey],
    pub(crate) list: &'a [ListedEntry],
    /// How many entries of the list come before the next one.
    pub(crate) given: u16,
}

impl<'a, F: Unicast> Model for LentEntries<'a, F> {
    ghost use Rattle.std.specs.Prelude.{List};
    ghost use Rattle.peer_units.specs.Plain.{Unit as ReplayUnit};
    ghost use Rattle.mrt_body.specs.Pending.{AreListed, units_left};

    ghost Value = { List ReplayUnit };

    ghost view = { λ e. units_left e.peers.now e.list.now
        (record { at = e.at; rules = e.rules; prefix = e.prefix; body = e.body.now; given = e.given }) };

    ghost invariant = { λ e. AreListed e.peers.now e.list.now
        (record { at = e.at; rules = e.rules; prefix = e.prefix; body = e.body.now; given = e.given }) };
}

impl<'a, F: Unicast> LentEntries<'a, F> {
    /// Lends the unit of the next entry, and goes on to the one behind it. Returns `None` at the end. The index is that
    /// of the unit's peer in the PEER_INDEX_TABLE (RFC 6396, 4.3.1), and no part of the unit: a reader that keeps
    /// something for each peer can look there first, and then has to compare the peers.
    #[inline(always)]
    pub fn next(&mut self) -> Option<(UnitRef<'a, F>, u16)>
        ensures lends { IfSome result (λ next. self.old ≡ next.0 ∷ self.new) }
        ensures ended { result ≡ None → self.old ≡ [] }
        ensures small { IfSome result (λ next. IsSmallUnit next.0) }
    {
        if self.given as usize == self.list.len() {
            return None;
        }
        let entry = self.list[self.given as usize];
        let attrs = bytes_from(self.body, entry.start as usize, entry.len as usize);
        let key = RouteKey {
            prefix: self.prefix,
            id: entry.identifier,
        };
        let unit = Unit {
            place: self.at.place(Some(entry.number)),
            time: self.at.time(0),
            peer: self.peers[entry.peer as usize],
            payload: Payload::Entry {
                key,
                attrs: BytesRef::new(attrs),
                rules: self.rules,
            },
        };
        self.given += 1;
        Some((unit, entry.peer))
    }
}

/// The units that come next, which one record has: `U` is a unit and `E` are entries.
#[derive(Drop)]
pub enum Lent<U, E> {
    /// No unit comes next.
    None,
    /// A unit that is no entry.
    Unit(U),
    /// All entries that are left of a RIB record.
    Entries(E),
}

/// Units that are lent, of a family.
pub type LentUnits<'a, F> = Lent<UnitRef<'a, F>, LentEntries<'a, F>>;
