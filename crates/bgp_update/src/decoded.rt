//! Updates and routes that are decoded into blocks of memory, one after another.

ghost use Rattle.std.specs.Prelude.{◌≡◌, ◌==◌, ◌≤◌, ◌+◌, IfOk, length};
ghost use Rattle.bgp_update.specs.Decoded as decoded;
ghost use Rattle.bgp_update.specs.Decoded.{IsRouteAt, IsUpdateAt, IsWithin, plain_update, span_of, update_at};

use crate::route_ref::RouteRef;
use crate::unicast::Unicast;
use crate::update_ref::UpdateRef;
use bgp_prefix::{Memory, Prefix, RouteKey};

/// Adds one more word to a hash.
fn hashed(hash: u64, word: u64) -> u64 {
    (hash.rotate_left(5) ^ word).wrapping_mul(0x9e37_79b9_7f4a_7c15)
}

/// Returns a hash of the bytes.
fn hash_of(bytes: &[u8]) -> u32 {
    let (words, rest) = bytes.as_chunks::<8>();
    let mut hash = bytes.len() as u64;
    for word in words {
        hash = hashed(hash, u64::from_le_bytes(*word));
    }
    match bytes.last_chunk::<8>() {
        Some(word) => hash = hashed(hash, u64::from_le_bytes(*word)),
        None => {
            for byte in rest {
                hash = hashed(hash, *byte as u64);
            }
        }
    }
    ((hash ^ (hash >> 32)) & 0xFFFF_FFFF) as u32
}

/// A part of a list: where it begins, and how many items it has.
#[derive(Clone, Copy, Debug)]
pub struct Span {
    pub start: u32,
    pub len: u32,
}

/// The maximum number of items of a list that has spans.
const MOST_ITEMS: usize = u32::MAX as usize;

impl Span {
    /// Returns the span from the first of these positions up to the other.
    #[inline(always)]
    pub fn between(start: usize, end: usize) -> Result<Span, Memory>
        requires { start ≤ end }
        ensures { IfOk result (λ span. (span.start ≡ start) × (span.start + span.len ≡ end)) }
    {
        if MOST_ITEMS < end {
            return Err(Memory);
        }
        Ok(Span {
            start: start as u32,
            len: (end - start) as u32,
        })
    }

    /// Whether it has no items.
    #[inline(always)]
    pub(crate) fn is_empty(&self) -> bool
        ensures { result ≡ (self.now.len == 0) }
    {
        self.len == 0
    }

    /// The items of the span.
    #[inline(always)]
    pub fn of<'a, T>(&self, items: &'a [T]) -> &'a [T]
        requires { IsWithin (length items.now) self.now }
        ensures { result.now ≡ span_of items.now self.now }
    {
        let start = self.start as usize;
        &items[start..start + self.len as usize]
    }
}

/// A route among others: where its packed bytes are, and their hash.
#[derive(Clone, Copy)]
pub struct RouteSpan {
    pub(crate) bytes: Span,
    pub(crate) hash: u32,
}

impl RouteSpan {
    /// The hash of the packed bytes.
    #[inline(always)]
    pub fn hash(&self) -> u32 {
        self.hash
    }

    /// How many packed bytes the route has.
    #[inline(always)]
    pub fn len(&self) -> usize {
        self.bytes.len as usize
    }

    /// Returns the span of a route whose packed bytes were added behind so many bytes.
    #[inline(always)]
    pub(crate) fn behind(start: usize, bytes: &[u8]) -> Result<RouteSpan, Memory>
        requires { start ≤ length bytes.now }
        ensures { IfOk result
            (λ span. (span.bytes.start ≡ start) × (span.bytes.start + span.bytes.len ≡ length bytes.now)) }
    {
        let span = Span::between(start, bytes.len())?;
        Ok(RouteSpan {
            bytes: span,
            hash: hash_of(&bytes[start..]),
        })
    }

    /// The route.
    #[inline(always)]
    pub fn route<'a>(&self, bytes: &'a [u8]) -> HashedRoute<'a>
        requires { IsRouteAt bytes.now self.now }
        ensures { result.route ≡ decoded.route_at bytes.now self.now }
    {
        HashedRoute {
            route: RouteRef::of_bytes(self.bytes.of(bytes)),
            hash: self.hash,
        }
    }
}

/// A route with the hash of its packed bytes, by which a set finds it.
#[derive(Drop)]
pub struct HashedRoute<'a> {
    pub route: RouteRef<'a>,
    pub hash: u32,
}

impl<'a> HashedRoute<'a> {
    /// Returns a route with its hash.
    pub fn new(route: RouteRef<'a>) -> HashedRoute<'a>
        ensures { result.route ≡ route.entry }
    {
        let hash = hash_of(route.as_bytes());
        HashedRoute { route, hash }
    }
}

/// An UPDATE among others: where its keys are, and its routes.
#[derive(Clone, Copy)]
pub struct UpdateSpans {
    /// Those of the field of withdrawn routes, and then those of MP_UNREACH_NLRI.
    pub(crate) withdrawn: Span,
    /// Those of the NLRI field.
    pub(crate) announced: Span,
    /// Those of MP_REACH_NLRI.
    pub(crate) reached: Span,
    pub(crate) route: RouteSpan,
    /// The route by the next hop of MP_REACH_NLRI, if that is there.
    pub(crate) reached_route: Option<RouteSpan>,
}

impl UpdateSpans {
    /// The route of the first keys that are announced, if there are any.
    #[inline(always)]
    pub fn first_route(&self) -> Option<RouteSpan> {
        if !self.announced.is_empty() {
            return Some(self.route);
        }
        self.reached_route
    }

    /// The update.
    #[inline(always)]
    pub fn update<'a, F: Unicast>(
        &self,
        keys: &'a [RouteKey<Prefix<F>>],
        bytes: &'a [u8],
    ) -> UpdateRef<'a, Prefix<F>>
        requires { IsUpdateAt keys.now bytes.now self.now }
        ensures { plain_update result ≡ update_at keys.now bytes.now self.now }
    {
        UpdateRef {
            withdrawn: self.withdrawn.of(keys),
            announced: self.announced.of(keys),
            reached: self.reached.of(keys),
            route: self.route.route(bytes),
            reached_route: match &self.reached_route {
                Some(span) => Some(span.route(bytes)),
                None => None,
            },
        }
    }
}
