//! The positions of the path of a packed route, one after the other. Nothing is copied.

ghost use Rattle.std.specs.Prelude.{◌≡◌, ◌<◌, ◌∷◌, [], length, MatchOption, option_map};
ghost use Rattle.std.specs.List.{list_any};
ghost use Rattle.bgp_update.specs.Packing.{spelled_path, IsSpelled};
ghost use Rattle.route_choice.specs.Cursors.{positions_left, IsCursor};
ghost use Rattle.route_choice.specs.Masks.{is_nil, is_within};
ghost use Rattle.route_choice.specs.Positions.{is_set_number, positions};

use bgp_update::RouteRef;
use byteorder::{BigEndian, ByteOrder};
use std::marker::Model;

/// The number of AS_SET.
const AS_SET: u8 = 1;

/// The number of AS_CONFED_SET.
const AS_CONFED_SET: u8 = 4;

/// A position of a path: the numbers of a set, or the one number that it has in a sequence.
#[derive(Drop)]
pub(crate) struct Position<'a> {
    count: usize,
    octets: &'a [u8],
}

impl<'a> Model for Position<'a> {
    ghost use Rattle.std.specs.Prelude.{ℕ, List, ◌≤◌, ◌*◌, length};
    ghost use Rattle.bgp_update.specs.Segments.{numbers_in};

    ghost Value = { List ℕ };

    ghost view = { λ p. numbers_in 4 p.count p.octets.now };

    ghost invariant = { λ p. p.count * 4 ≤ length p.octets.now };
}

impl<'a> Position<'a> {
    /// Whether one of its numbers is in a range, both ends in.
    pub(crate) fn has_within(&self, first: u32, last: u32) -> bool
        ensures { result ≡ list_any (is_within first last) self.now }
    {
        let mut left = self.count;
        let mut rest = self.octets;
        while left > 0 {
            let number = BigEndian::read_u32(rest);
            if first <= number && number <= last {
                return true;
            }
            rest = &rest[4..];
            left -= 1;
        }
        false
    }
}

/// The positions of a path from some position on: so many numbers are left of a sequence, and whole segments behind
/// them.
#[derive(Drop)]
pub(crate) struct PathCursor<'a> {
    left: usize,
    bytes: &'a [u8],
}

impl<'a> Model for PathCursor<'a> {
    ghost use Rattle.std.specs.Prelude.{ℕ, List};
    ghost use Rattle.route_choice.specs.Cursors.{positions_left, IsCursor};

    ghost Value = { List (List ℕ) };

    ghost view = { λ c. positions_left c.left c.bytes.now };

    ghost invariant = { λ c. IsCursor c.left c.bytes.now };
}

/// Whether the segments of a kind, by its number, are sets (RFC 4271, 4.3; RFC 5065, 3).
fn is_set(number: u8) -> bool
    ensures { result ≡ is_set_number number }
{
    number == AS_SET || number == AS_CONFED_SET
}

/// Returns the first one of the numbers that are left of a sequence, and the positions behind it.
fn first_number(left: usize, bytes: &[u8]) -> (Position<'_>, PathCursor<'_>)
    requires some { 0 < left }
    requires left { IsCursor left bytes.now }
    ensures { positions_left left bytes.now ≡ result.0 ∷ result.1 }
{
    let position = Position {
        count: 1,
        octets: bytes,
    };
    let rest = PathCursor {
        left: left - 1,
        bytes: &bytes[4..],
    };
    (position, rest)
}

/// Returns the first position of the segments that these bytes spell, and the positions behind it.
fn first_of(bytes: &[u8]) -> (Position<'_>, PathCursor<'_>)
    requires spelled { IsSpelled bytes.now }
    requires some { 0 < length bytes.now }
    ensures { positions (spelled_path bytes.now) ≡ result.0 ∷ result.1 }
{
    let count = bytes[1] as usize;
    let octets = &bytes[2..];
    if is_set(bytes[0]) {
        let bytes = &octets[count * 4..];
        (Position { count, octets }, PathCursor { left: 0, bytes })
    } else {
        first_number(count, octets)
    }
}

impl<'a> PathCursor<'a> {
    /// Returns all positions of a route's path, if it has one.
    pub(crate) fn of_route(route: &RouteRef<'a>) -> Option<PathCursor<'a>>
        ensures { result ≡ option_map positions route.now.path }
    {
        let _packed = route.as_bytes();
        let bytes = route.path_value()?;
        Some(PathCursor { left: 0, bytes })
    }

    /// The same positions.
    pub(crate) fn same(&self) -> PathCursor<'a>
        ensures { result ≡ self.now }
    {
        PathCursor {
            left: self.left,
            bytes: self.bytes,
        }
    }

    /// Whether no position is left.
    pub(crate) fn is_end(&self) -> bool
        ensures { result ≡ is_nil self.now }
    {
        self.left == 0 && self.bytes.is_empty()
    }

    /// Returns the next position, and None after the last.
    pub(crate) fn next(&mut self) -> Option<Position<'a>>
        ensures { MatchOption result (self.old ≡ []) (λ p. self.old ≡ p ∷ self.new) }
    {
        let bytes = self.bytes;
        let (first, rest) = if self.left > 0 {
            first_number(self.left, bytes)
        } else if bytes.is_empty() {
            return None;
        } else {
            first_of(bytes)
        };
        *self = rest;
        Some(first)
    }
}
