//! What lines are made of: values with a text of limited length.

ghost use Rattle.std.specs.Prelude.{◌≡◌, ℕ, ◌+◌, ◌<◌, ◌≤◌, ◌++◌, [], ◌∷◌, List, decimal, length};
ghost use Rattle.mrt_frame.specs.Faults.{fault_name};
ghost use Rattle.ip_text.specs.Formats.{Formats};
ghost use Rattle.report_lines.specs.Cells.{or_null};
ghost use Rattle.report_lines.specs.Fields.{field, time_text};
ghost use Rattle.ip_text.specs.Ipv6Texts.{ipv6_text};
ghost use Rattle.report_lines.specs.RouteLines.{addr_text, peer_text, prefix_text, identifier_text, key_text, next_hop_text, origin_text, aggregator_text, atomic_text, state_text};

use bgp_prefix::{Prefix, RouteKey};
use bgp_update::{Aggregator, FamilyMark, NextHop, Origin, Unicast};
use ip_text::{
    AddressForm, DecimalTable, WrittenAddress, format_byte, format_front, format_ipv4, format_ipv6,
    format_number, format_short, format_six, format_text, format_three,
};
use itoa::Buffer;
use mrt_frame::Fault;
use peer_units::{PeerAddr, PeerKey};
use report_request::{Layout, LayoutOf};
use std::marker::Model;

/// A value with a text of limited length: a field of a line, several of them, or a part of one.
pub trait Field: Copy {
    /// Its text.
    ghost text_of: { Self → List ℕ };

    /// An upper bound of the length of its text.
    ghost longest: { ℕ };

    /// Writes the text, and returns the position after it. There has to be room for one byte more than the longest
    /// text.
    fn format(self, bytes: &mut [u8], at: usize, shorts: &DecimalTable) -> usize
        requires { at + longest < length bytes.old }
        ensures { Formats bytes.old at bytes.new result longest (text_of self) };
}

/// A byte as it is.
#[derive(Clone, Copy)]
pub struct Byte(pub u8);

impl Field for Byte {
    ghost text_of = { λ b. b.0 ∷ [] };

    ghost longest = { 1 };

    #[inline(always)]
    fn format(self, bytes: &mut [u8], at: usize, _shorts: &DecimalTable) -> usize {
        format_byte(bytes, at, self.0)
    }
}

// ---- fields, one behind the other

/// Fields, separated by `|`.
impl<A: Field, B: Field> Field for (A, B) {
    ghost text_of = { λ f. A.text_of f.0 ++ 124 ∷ B.text_of f.1 };

    ghost longest = { A.longest + (1 + B.longest) };

    #[inline(always)]
    #[tactic(auto, using(ip_text::proofs::FormatLaws::Formats_trans))]
    fn format(self, bytes: &mut [u8], at: usize, shorts: &DecimalTable) -> usize {
        let at = self.0.format(bytes, at, shorts);
        let at = format_byte(bytes, at, b'|');
        self.1.format(bytes, at, shorts)
    }
}

/// Two fields with nothing between them.
#[derive(Clone, Copy)]
pub struct Joined<A, B>(pub A, pub B);

impl<A: Field, B: Field> Field for Joined<A, B> {
    ghost text_of = { λ f. A.text_of f.0 ++ B.text_of f.1 };

    ghost longest = { A.longest + B.longest };

    #[inline(always)]
    #[tactic(auto, using(ip_text::proofs::FormatLaws::Formats_trans))]
    fn format(self, bytes: &mut [u8], at: usize, shorts: &DecimalTable) -> usize {
        let at = self.0.format(bytes, at, shorts);
        self.1.format(bytes, at, shorts)
    }
}

/// `-` where there is none.
impl<F: Field> Field for Option<F> {
    ghost text_of = { field F.text_of };

    ghost longest = { 1 + F.longest };

    #[inline(always)]
    fn format(self, bytes: &mut [u8], at: usize, shorts: &DecimalTable) -> usize {
        match self {
            Some(value) => value.format(bytes, at, shorts),
            None => format_byte(bytes, at, b'-'),
        }
    }
}

// ---- numbers and times

impl Field for u32 {
    ghost text_of = { decimal };

    ghost longest = { 12 };

    #[inline(always)]
    fn format(self, bytes: &mut [u8], at: usize, shorts: &DecimalTable) -> usize {
        format_number(bytes, at, shorts, self)
    }
}

impl Field for u128 {
    ghost text_of = { decimal };

    ghost longest = { 39 };

    fn format(self, bytes: &mut [u8], at: usize, shorts: &DecimalTable) -> usize {
        if self < 1_000_000 {
            return format_six(bytes, at, shorts, self as u32);
        }
        let mut digits = Buffer::new();
        format_text(bytes, at, digits.format(self).as_bytes())
    }
}

/// A time in microseconds: seconds, a decimal point and six digits.
#[derive(Clone, Copy)]
pub struct Microseconds(pub u64);

impl Field for Microseconds {
    ghost text_of = { λ t. time_text t.0 };

    ghost longest = { 46 };

    fn format(self, bytes: &mut [u8], at: usize, shorts: &DecimalTable) -> usize {
        let seconds = (self.0 / 1_000_000) as u128;
        let rest = (self.0 % 1_000_000) as u32;
        let at = seconds.format(bytes, at, shorts);
        let at = format_byte(bytes, at, b'.');
        let at = format_three(bytes, at, shorts, rest / 1_000);
        format_three(bytes, at, shorts, rest % 1_000)
    }
}

/// Returns a time as a field.
pub fn time_field(time: Option<u64>) -> Option<Microseconds>
    ensures text { field (λ t. time_text t.0) result ≡ field time_text time }
    ensures json { or_null (λ t. time_text t.0) result ≡ or_null time_text time }
{
    time.map(Microseconds)
}

/// Returns the number of an entry as a field.
pub fn entry_field(entry: Option<u16>) -> Option<u32>
    ensures { result ≡ entry }
{
    entry.map(u32::from)
}

// ---- peers and keys

/// The address of a peer.
#[derive(Clone, Copy)]
pub struct ShownAddr {
    pub addr: PeerAddr,
    pub form: AddressForm,
}

impl Field for ShownAddr {
    ghost text_of = { λ a. addr_text a.form a.addr };

    ghost longest = { 39 };

    #[inline(always)]
    fn format(self, bytes: &mut [u8], at: usize, shorts: &DecimalTable) -> usize {
        match self.addr {
            PeerAddr::V4(addr) => format_ipv4(bytes, at, shorts, addr),
            PeerAddr::V6(addr) => format_ipv6(bytes, at, shorts, self.form, addr),
        }
    }
}

/// A peer, and the layout of its lines.
#[derive(Clone, Copy)]
pub struct ShownPeer<K = FamilyMark> {
    pub key: PeerKey,
    pub layout: Layout<K>,
}

/// A peer in a report on routes of a family.
pub type ShownPeerOf<F> = ShownPeer<FamilyMark<F>>;

impl<F: Unicast> Field for ShownPeer<FamilyMark<F>> {
    ghost text_of = { λ p. peer_text p.layout p.key };

    ghost longest = { 52 };

    #[inline(never)]
    #[tactic(auto, using(ip_text::proofs::FormatLaws::Formats_trans))]
    fn format(self, bytes: &mut [u8], at: usize, shorts: &DecimalTable) -> usize {
        let at = format_number(bytes, at, shorts, self.key.asn);
        let at = format_byte(bytes, at, b' ');
        let shown = ShownAddr {
            addr: self.key.addr,
            form: self.layout.peer_addresses,
        };
        shown.format(bytes, at, shorts)
    }
}

/// Whether a peer is up.
#[derive(Clone, Copy)]
pub struct SessionUp(pub bool);

impl Field for SessionUp {
    ghost text_of = { λ s. state_text s.0 };

    ghost longest = { 4 };

    fn format(self, bytes: &mut [u8], at: usize, _shorts: &DecimalTable) -> usize {
        if self.0 {
            format_text(bytes, at, b"up")
        } else {
            format_text(bytes, at, b"down")
        }
    }
}

/// The most bytes of a peer's text and a bar, and one more.
pub(crate) const PEER_BYTES: usize = 54;

/// A peer's text with a bar behind it, made once for the lines of many of its routes. Contracts see it as the peer with
/// the layout.
#[derive(Drop)]
pub struct PeerText<F: Unicast = u32> {
    peer: ShownPeerOf<F>,
    bytes: [u8; PEER_BYTES],
    len: usize,
}

impl<F: Unicast> Model for PeerText<F> {
    ghost use Rattle.std.specs.Prelude.{◌≡◌, ◌≤◌, ◌++◌, ◌∷◌, [], length, take};
    ghost use Rattle.report_lines.specs.Plain.{ShownPeer as Peer};
    ghost use Rattle.report_lines.specs.RouteLines.{peer_text};

    ghost Value = { Peer };

    ghost view = { λ p. p.peer };

    ghost invariant = { λ p. record {
      len : p.len ≤ 54;
      whole : length p.bytes ≡ 54;
      text : take p.len p.bytes ≡ peer_text p.peer.layout p.peer.key ++ 124 ∷ [];
    } };
}

impl<F: Unicast> PeerText<F> {
    #[tactic(auto, using(ip_text::proofs::FormatLaws::Formats_trans))]
    pub(crate) fn new(peer: &ShownPeerOf<F>, shorts: &DecimalTable) -> PeerText<F>
        ensures { result ≡ peer.now }
    {
        let mut bytes = [0; PEER_BYTES];
        let at = peer.format(&mut bytes, 0, shorts);
        let len = format_byte(&mut bytes, at, b'|');
        PeerText {
            peer: *peer,
            bytes,
            len,
        }
    }

    /// The layout of its lines.
    #[inline(always)]
    pub fn layout(&self) -> LayoutOf<F>
        ensures { result ≡ self.now.layout }
    {
        self.peer.layout
    }

    /// The peer.
    pub(crate) fn peer(&self) -> &ShownPeerOf<F>
        ensures { result.now ≡ self.now }
    {
        &self.peer
    }

    /// Writes the text and the bar.
    #[inline(always)]
    pub(crate) fn format(&self, bytes: &mut [u8], at: usize) -> usize
        requires { at + 54 ≤ length bytes.old }
        ensures { Formats bytes.old at bytes.new result 54 (peer_text self.now.layout self.now.key ++ 124 ∷ []) }
    {
        // A copy is known not to overlap with `bytes`, so nothing tests whether it does.
        let block = self.bytes;
        format_front(bytes, at, &block, self.len)
    }
}

/// A prefix, and the layout of its line.
#[derive(Clone, Copy)]
pub struct ShownPrefix<P = Prefix, K = FamilyMark> {
    pub prefix: P,
    pub layout: Layout<K>,
}

impl<F: WrittenAddress> Field for ShownPrefix<Prefix<F>, FamilyMark<F>> {
    ghost text_of = { λ p. prefix_text p.layout p.prefix };

    ghost longest = { F.MOST_BYTES + 4 };

    #[inline(always)]
    #[tactic(auto, using(ip_text::proofs::FormatLaws::Formats_trans))]
    fn format(self, bytes: &mut [u8], at: usize, shorts: &DecimalTable) -> usize {
        self.layout.family.is_known();
        let addr = self.prefix.addr();
        let at = addr.format(bytes, at, shorts, self.layout.route_addresses);
        let at = format_byte(bytes, at, b'/');
        format_short(bytes, at, shorts, self.prefix.len() as u32)
    }
}

/// Writes `#` and the identifier, where there is one.
#[inline(always)]
fn format_identifier(bytes: &mut [u8], at: usize, shorts: &DecimalTable, id: u32) -> usize
    requires { at + 13 < length bytes.old }
    ensures { Formats bytes.old at bytes.new result 13 (identifier_text id) }
{
    if id != 0 {
        Joined(Byte(b'#'), id).format(bytes, at, shorts)
    } else {
        at
    }
}

/// A key, and the layout of its line.
#[derive(Clone, Copy)]
pub struct ShownKey<P = Prefix, K = FamilyMark> {
    pub key: RouteKey<P>,
    pub layout: Layout<K>,
}

impl<F: WrittenAddress> Field for ShownKey<Prefix<F>, FamilyMark<F>> {
    ghost text_of = { λ k. key_text k.layout k.key };

    ghost longest = { F.MOST_BYTES + 4 + 13 };

    #[inline(always)]
    #[tactic(auto, using(ip_text::proofs::FormatLaws::Formats_trans))]
    fn format(self, bytes: &mut [u8], at: usize, shorts: &DecimalTable) -> usize {
        let ShownKey { key, layout } = self;
        let RouteKey { prefix, id } = key;
        let at = ShownPrefix { prefix, layout }.format(bytes, at, shorts);
        format_identifier(bytes, at, shorts, id)
    }
}

// ---- path attributes

/// Writes two addresses, separated by a space.
#[inline(never)]
#[tactic(auto, using(ip_text::proofs::FormatLaws::Formats_trans))]
fn format_ipv6_pair(
    bytes: &mut [u8],
    at: usize,
    shorts: &DecimalTable,
    form: AddressForm,
    global: u128,
    local: u128,
) -> usize
    requires { at + 79 < length bytes.old }
    ensures { Formats bytes.old at bytes.new result 79 (ipv6_text form global ++ 32 ∷ ipv6_text form local) }
{
    let at = format_ipv6(bytes, at, shorts, form, global);
    let at = format_byte(bytes, at, b' ');
    format_ipv6(bytes, at, shorts, form, local)
}

/// Writes a next hop, or `-`.
#[inline(always)]
pub(crate) fn format_next_hop<F: Unicast>(
    bytes: &mut [u8],
    at: usize,
    shorts: &DecimalTable,
    layout: LayoutOf<F>,
    hop: Option<NextHop>,
) -> usize
    requires { at + 80 < length bytes.old }
    ensures { Formats bytes.old at bytes.new result 80 (field (next_hop_text layout) hop) }
{
    match hop {
        Some(NextHop::V4(addr)) => format_ipv4(bytes, at, shorts, addr),
        Some(NextHop::V6(addr)) => format_ipv6(bytes, at, shorts, layout.route_addresses, addr),
        Some(NextHop::V6Pair(global, local)) => {
            format_ipv6_pair(bytes, at, shorts, layout.route_addresses, global, local)
        }
        None => format_byte(bytes, at, b'-'),
    }
}

impl Field for Origin {
    ghost text_of = { origin_text };

    ghost longest = { 10 };

    /// The short texts are arrays made here, which are known not to overlap with `bytes`.
    #[inline(always)]
    fn format(self, bytes: &mut [u8], at: usize, _shorts: &DecimalTable) -> usize {
        match self {
            Origin::Igp => format_text(bytes, at, &[b'I', b'G', b'P']),
            Origin::Egp => format_text(bytes, at, &[b'E', b'G', b'P']),
            Origin::Incomplete => format_text(bytes, at, b"INCOMPLETE"),
        }
    }
}

impl Field for Aggregator {
    ghost text_of = { aggregator_text };

    ghost longest = { 28 };

    #[inline(never)]
    #[tactic(auto, using(ip_text::proofs::FormatLaws::Formats_trans))]
    fn format(self, bytes: &mut [u8], at: usize, shorts: &DecimalTable) -> usize {
        let at = format_number(bytes, at, shorts, self.asn);
        let at = format_byte(bytes, at, b' ');
        format_ipv4(bytes, at, shorts, self.addr)
    }
}

/// Whether a route is an atomic aggregate.
#[derive(Clone, Copy)]
pub(crate) struct Atomic(pub(crate) bool);

impl Field for Atomic {
    ghost text_of = { λ a. atomic_text a.0 };

    ghost longest = { 6 };

    #[inline(always)]
    fn format(self, bytes: &mut [u8], at: usize, _shorts: &DecimalTable) -> usize {
        if self.0 {
            format_text(bytes, at, b"atomic")
        } else {
            format_byte(bytes, at, b'-')
        }
    }
}

// ---- faults

/// The name of a fault, with the type of a bad attribute in parentheses.
impl Field for Fault {
    ghost text_of = { fault_name };

    ghost longest = { 46 };

    #[tactic(auto, using(ip_text::proofs::FormatLaws::Formats_trans))]
    fn format(self, bytes: &mut [u8], at: usize, shorts: &DecimalTable) -> usize {
        let at = format_text(bytes, at, self.name().as_bytes());
        if let Fault::BadAttribute(code) = self {
            return Joined(Byte(b'('), Joined(code as u32, Byte(b')'))).format(bytes, at, shorts);
        }
        at
    }
}
