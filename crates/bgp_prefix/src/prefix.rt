//! Prefixes (RFC 4271, 4.3), and the bits that they share.

ghost use Rattle.std.specs.Prelude.{◌≡◌, ◌≢◌, ℕ, ◌+◌, ◌-◌, ◌*◌, ◌/◌, ◌^◌, ◌<◌, ◌≤◌, ◌↔◌, IsTrue, IsNone, IsSome, IfSome, MatchOption, if◌then◌else◌};
ghost use Rattle.bgp_prefix.specs.Prefixes.{IpPrefix, IsIpPrefix, network_of, leading_bits, contains, covers, prefix_cmp, prefix_eq};

use crate::family::Family;
use std::alloc::AllocError;
use std::cmp::Ordering;
use std::marker::Model;

/// A set of addresses that share their first bits.
#[derive(Debug)]
pub struct Prefix<F: Family = u32> {
    addr: F,
    len: u8,
}

impl<F: Family> Model for Prefix<F> {
    ghost use Rattle.std.specs.Prelude.{◌≤◌};
    ghost use Rattle.bgp_prefix.specs.Prefixes.{IpPrefix, IsIpPrefix};

    ghost Value = { IpPrefix };

    ghost view = { λ p. record { addr = F.bits p.addr; len = p.len } };

    ghost invariant = { λ p. IsIpPrefix (record { addr = F.bits p.addr; len = p.len }) × (p.len ≤ F.WIDTH) };

    ghost inverse = { λ p. record { addr = F.of_bits p.addr; len = p.len } };

    ghost inverse_ok = { λ a h. λ i. record { addr = F.back a.addr i; len = a.len } };
}

impl<F: Family> Copy for Prefix<F> {}

impl<F: Family> Clone for Prefix<F> {
    fn clone(&self) -> Result<Self, AllocError> {
        Ok(*self)
    }
}

impl<F: Family> Prefix<F> {
    /// Returns the prefix of this length that contains the address. None exactly for a length over the family's width.
    #[inline]
    pub fn new(addr: F, len: u8) -> Option<Prefix<F>>
        ensures some { IsSome result ↔ (len ≤ F.WIDTH) }
        ensures prefix { IfSome result (λ p. p ≡ record { addr = network_of (F.bits addr) len; len = len }) }
    {
        if len > F::WIDTH {
            return None;
        }
        Some(Prefix {
            addr: addr.masked(len),
            len,
        })
    }

    /// Its address: the bits past the length are 0.
    #[inline]
    pub fn addr(&self) -> F
        ensures addr { F.bits result ≡ self.now.addr }
        ensures known { IsIpPrefix self.now }
    {
        self.addr
    }

    /// Its length in bits, at most the family's width.
    #[inline]
    pub fn len(&self) -> u8
        ensures len { result ≡ self.now.len }
        ensures known { IsIpPrefix self.now }
        ensures short { result ≤ F.WIDTH }
    {
        self.len
    }

    /// Returns the prefix of this length that covers this one.
    #[inline]
    pub fn shortened(&self, len: u8) -> Prefix<F>
        requires { len ≤ self.now.len }
        ensures prefix { result ≡ record { addr = network_of self.now.addr len; len = len } }
        ensures known { IsIpPrefix result }
    {
        Prefix {
            addr: self.addr.masked(len),
            len,
        }
    }

    /// Whether the address has the bits of the prefix.
    #[inline]
    pub fn contains(&self, addr: F) -> bool
        ensures { result ≡ contains self.now (F.bits addr) }
    {
        addr.agrees(self.addr, self.len)
    }

    /// Whether `other` is no shorter and lies within this prefix.
    #[inline]
    pub fn covers(&self, other: &Prefix<F>) -> bool
        ensures { result ≡ covers self.now other.now }
    {
        self.len <= other.len && self.contains(other.addr)
    }

    /// Whether the two are the same.
    #[inline]
    pub fn is_same(&self, other: &Prefix<F>) -> bool
        ensures { result ≡ prefix_eq self.now other.now }
    {
        self.addr.is_same(other.addr) && self.len == other.len
    }

    /// Compares two prefixes by address, then by length.
    #[inline]
    pub fn compare(&self, other: &Prefix<F>) -> Ordering
        ensures { result ≡ prefix_cmp self.now other.now }
    {
        match self.addr.compare(other.addr) {
            Ordering::Equal => self.len.cmp(&other.len),
            decided => decided,
        }
    }
}

/// The number of leading bits that two prefixes share.
#[inline]
pub fn shared_len<F: Family>(p: &Prefix<F>, q: &Prefix<F>) -> u8
    ensures in_p { result ≤ p.now.len }
    ensures in_q { result ≤ q.now.len }
    ensures shared { leading_bits result p.now.addr ≡ leading_bits result q.now.addr }
    ensures longest { result < p.now.len → result < q.now.len →
        leading_bits (result + 1) p.now.addr ≢ leading_bits (result + 1) q.now.addr }
    ensures known_p { IsIpPrefix p.now }
    ensures known_q { IsIpPrefix q.now }
    ensures short_p { p.now.len ≤ F.WIDTH }
{
    let same = p.addr().shared(q.addr());
    let shorter = p.len().min(q.len());
    if same < shorter { same } else { shorter }
}

impl<F: Family> PartialEq for Prefix<F> {
    ghost use Rattle.std.specs.Prelude.{◌==◌};
    ghost use Rattle.std.proofs.Common.{rules};
    ghost use Rattle.std.specs.Cmp.Rules.{comparing};
    ghost use Rattle.std.specs.Ordering.{on, eq_of_both};

    ghost eq = { eq_of_both (on (λ p. p.addr) ◌==◌) (on (λ p. p.len) ◌==◌) };

    ghost laws = { Prim.search (comparing, rules) };

    #[inline]
    fn eq(&self, other: &Self) -> bool {
        self.is_same(other)
    }
}

impl<F: Family> Eq for Prefix<F> {
    ghost use Rattle.std.proofs.Common.{rules};
    ghost use Rattle.std.specs.Cmp.Rules.{comparing};

    ghost laws = { Prim.search (comparing, rules) };
}

impl<F: Family> Ord for Prefix<F> {
    ghost use Rattle.std.proofs.Common.{rules};
    ghost use Rattle.std.specs.Cmp.Rules.{comparing};
    ghost use Rattle.std.specs.Ordering.{nat_cmp, on, then_cmp};

    ghost cmp = { then_cmp (on (λ p. p.addr) nat_cmp) (on (λ p. p.len) nat_cmp) };

    ghost total = { Prim.search (comparing, rules) };

    ghost matches_partial_cmp = { Prim.search (comparing, rules) };

    ghost matches_eq = { Prim.search (comparing, rules) };

    #[inline]
    fn cmp(&self, other: &Self) -> Ordering {
        self.compare(other)
    }
}

impl<F: Family> PartialOrd for Prefix<F> {
    ghost use Rattle.std.proofs.Common.{rules};
    ghost use Rattle.std.specs.Cmp.{partial_order_from_own_ties};
    ghost use Rattle.std.specs.Cmp.Rules.{comparing};
    ghost use Rattle.std.specs.Ordering.{nat_cmp, on, then_cmp, as_partial_cmp};

    ghost partial_cmp = { as_partial_cmp (then_cmp (on (λ p. p.addr) nat_cmp) (on (λ p. p.len) nat_cmp)) };

    ghost laws = { partial_order_from_own_ties (Prim.search (comparing, rules)) (Prim.search (comparing, rules)) };

    #[inline]
    fn partial_cmp(&self, other: &Self) -> Option<Ordering> {
        Some(self.compare(other))
    }
}
