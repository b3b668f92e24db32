//! Patterns of communities.

ghost use Rattle.std.specs.Prelude.{◌≡◌, ◌≤◌, length};
ghost use Rattle.bgp_update.specs.KeptAttributes.{kept_form};
ghost use Rattle.std.specs.List.{list_any};
ghost use Rattle.route_choice.specs.declared.community.CommunityPattern.TheVariants.{Standard, Large};
ghost use Rattle.route_choice.specs.Communities.{
  part_is,
  asn_is,
  address_is,
  role_subtype,
  administers,
  asks,
  matches_member,
  matches_value,
  members,
  has_community,
};

use bgp_update::{KeptAttribute, KeptValues};
use byteorder::{BigEndian, ByteOrder};

/// A part of a pattern.
#[derive(Clone, Copy, Debug, PartialEq, Eq)]
pub enum PatternPart {
    /// `*`.
    AnyValue,
    /// This number.
    Number(u32),
}

/// The administrator of an extended community in a pattern.
#[derive(Clone, Copy, Debug, PartialEq, Eq)]
pub enum Administrator {
    /// `*`.
    AnyAdministrator,
    /// This AS number, of two octets or of four.
    Asn(u32),
    /// This IPv4 address.
    Address(u32),
}

/// What an extended community tells (RFC 4360, 4 and 5).
#[derive(Clone, Copy, Debug, PartialEq, Eq)]
pub enum Role {
    /// `rt`.
    RouteTarget,
    /// `ro`.
    RouteOrigin,
}

/// A pattern of communities.
#[derive(Clone, Copy, Debug, PartialEq, Eq)]
pub enum CommunityPattern {
    /// `A:B`, of COMMUNITIES (RFC 1997).
    Standard(PatternPart, PatternPart),
    /// `A:B:C`, of LARGE_COMMUNITY (RFC 8092).
    Large(PatternPart, PatternPart, PatternPart),
    /// `rt:A:N` or `ro:A:N`, of EXTENDED COMMUNITIES (RFC 4360, RFC 5668).
    Extended(Role, Administrator, PatternPart),
    /// The extended community of these eight bytes, most significant first.
    Exactly(u64),
}

impl PatternPart {
    /// Whether it is `*` or this number.
    fn is(self, number: u32) -> bool
        ensures { result ≡ part_is self number }
    {
        match self {
            PatternPart::AnyValue => true,
            PatternPart::Number(own) => number == own,
        }
    }
}

impl Administrator {
    /// Whether it is `*` or this AS number.
    fn is_asn(self, asn: u32) -> bool
        ensures { result ≡ asn_is self asn }
    {
        match self {
            Administrator::AnyAdministrator => true,
            Administrator::Asn(own) => asn == own,
            Administrator::Address(_) => false,
        }
    }

    /// Whether it is `*` or this address.
    fn is_address(self, address: u32) -> bool
        ensures { result ≡ address_is self address }
    {
        match self {
            Administrator::AnyAdministrator => true,
            Administrator::Asn(_) => false,
            Administrator::Address(own) => address == own,
        }
    }
}

impl Role {
    /// Its subtype.
    fn subtype(self) -> u8
        ensures { result ≡ role_subtype self }
    {
        match self {
            Role::RouteTarget => 2,
            Role::RouteOrigin => 3,
        }
    }
}

/// Whether a community is of two parts.
#[tactic(auto, using(std::proofs::lemmas::List::take_rest))]
fn is_standard(a: PatternPart, b: PatternPart, member: &[u8]) -> bool
    requires { 4 ≤ length member.now }
    ensures { result ≡ matches_member (Standard a b) member.now }
{
    a.is(BigEndian::read_u16(member) as u32) && b.is(BigEndian::read_u16(&member[2..]) as u32)
}

/// Whether a large community is of three parts.
#[tactic(auto, using(std::proofs::lemmas::List::take_rest))]
fn is_large(a: PatternPart, b: PatternPart, c: PatternPart, member: &[u8]) -> bool
    requires { 12 ≤ length member.now }
    ensures { result ≡ matches_member (Large a b c) member.now }
{
    a.is(BigEndian::read_u32(member))
        && b.is(BigEndian::read_u32(&member[4..]))
        && c.is(BigEndian::read_u32(&member[8..]))
}

/// Whether an extended community has this administrator and this number.
#[tactic(auto, using(std::proofs::lemmas::List::take_rest))]
fn is_administered(administrator: Administrator, number: PatternPart, member: &[u8]) -> bool
    requires { 8 ≤ length member.now }
    ensures { result ≡ administers administrator number member.now }
{
    match member[0] {
        0 => {
            administrator.is_asn(BigEndian::read_u16(&member[2..]) as u32)
                && number.is(BigEndian::read_u32(&member[4..]))
        }
        1 => {
            administrator.is_address(BigEndian::read_u32(&member[2..]))
                && number.is(BigEndian::read_u16(&member[6..]) as u32)
        }
        2 => {
            administrator.is_asn(BigEndian::read_u32(&member[2..]))
                && number.is(BigEndian::read_u16(&member[6..]) as u32)
        }
        _ => false,
    }
}

impl CommunityPattern {
    /// The attribute whose members it is about.
    pub fn attribute(self) -> KeptAttribute
        ensures { result ≡ asks self }
    {
        match self {
            CommunityPattern::Standard(_, _) => KeptAttribute::Communities,
            CommunityPattern::Large(_, _, _) => KeptAttribute::LargeCommunities,
            CommunityPattern::Extended(_, _, _) | CommunityPattern::Exactly(_) => {
                KeptAttribute::ExtendedCommunities
            }
        }
    }

    /// Whether it matches a member of its attribute.
    fn matches_member(self, member: &[u8]) -> bool
        requires { (kept_form (asks self)).size ≤ length member.now }
        ensures { result ≡ matches_member self member.now }
    {
        match self {
            CommunityPattern::Standard(a, b) => is_standard(a, b, member),
            CommunityPattern::Large(a, b, c) => is_large(a, b, c, member),
            CommunityPattern::Extended(role, administrator, number) => {
                member[1] == role.subtype() && is_administered(administrator, number, member)
            }
            CommunityPattern::Exactly(own) => BigEndian::read_u64(member) == own,
        }
    }

    /// Whether it matches a member of a value of its attribute.
    fn matches_value(self, value: &[u8]) -> bool
        ensures { result ≡ list_any (matches_member self) (members (asks self) value.now) }
    {
        let size = self.attribute().member_size();
        let mut left = value.len() / size;
        let mut rest = value;
        while left > 0 {
            if self.matches_member(&rest[..size]) {
                return true;
            }
            rest = &rest[size..];
            left -= 1;
        }
        false
    }

    /// Whether one of the attributes that a route keeps has a member that it matches.
    pub fn matches(self, kept: &KeptValues<'_>) -> bool
        ensures { result ≡ has_community kept.now self }
    {
        match kept.value(self.attribute()) {
            Some(value) => self.matches_value(value),
            None => false,
        }
    }
}
