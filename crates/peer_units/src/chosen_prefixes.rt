//! The prefixes that a selection chooses, in lists in which one is found by a search.

ghost use Rattle.std.specs.Prelude.{◌≡◌, IfOk, []};
ghost use Rattle.std.specs.List.{list_any};
ghost use Rattle.std.specs.List.Sorted.{IsPermutation};
ghost use Rattle.bgp_prefix.specs.Prefixes.{IpPrefix, IsIpPrefix};
ghost use Rattle.peer_units.specs.Choices.{is_chosen, is_open, takes_prefix};
ghost use Rattle.peer_units.specs.Named.{AreApart, InOrder, is_around, is_inside, is_named, named_as};

use crate::choice::{PrefixChoice, Reach};
use bgp_prefix::{Family, Memory, Prefix};
use std::alloc::Global;
use std::marker::Model;

/// Which prefixes are chosen: those that one of some choices takes, or all if there are none. Whether it takes a prefix
/// is found in the time of three binary searches, however many choices there are.
#[derive(Debug, Drop)]
pub struct ChosenPrefixes<F: Family = u32> {
    /// As they were given.
    choices: Vec<PrefixChoice<Prefix<F>>>,
    /// The prefixes that are named alone, in order.
    exact: Vec<Prefix<F>>,
    /// Those that are named with their more specifics, in order, without those that another one covers: so the last one
    /// up to a prefix is the only one that can cover it.
    inside: Vec<Prefix<F>>,
    /// Those that are named with their less specifics, in order: the first one from a prefix on is covered by it if
    /// any is.
    around: Vec<Prefix<F>>,
}

impl<F: Family> Model for ChosenPrefixes<F> {
    ghost use Rattle.std.specs.Prelude.{List};
    ghost use Rattle.peer_units.specs.Plain.{PrefixChoice as Choice};
    ghost use Rattle.peer_units.specs.Named.{StandFor};

    ghost Value = { List Choice };

    ghost view = { λ c. c.choices.items };

    ghost invariant = { λ c. StandFor c.choices.items c.exact.items c.inside.items c.around.items };
}

/// A prefix has no bit past its length.
fn is_known<F: Family>(prefix: &Prefix<F>)
    ensures { IsIpPrefix prefix.now }
{
    prefix.len();
}

/// Returns the prefixes that are named with this reach, in order.
fn named_as<F: Family>(
    alloc: Global,
    choices: &[PrefixChoice<Prefix<F>>],
    reach: Reach,
) -> Result<Vec<Prefix<F>>, Memory>
    ensures names { IfOk result (λ names. IsPermutation (named_as reach choices.now) names.items) }
    ensures order { IfOk result (λ names. InOrder names.items) }
{
    let mut names = Vec::new(alloc);
    for choice in choices {
        if choice.reach == reach {
            is_known(&choice.prefix);
            names.push(choice.prefix)?;
        }
    }
    names.sort_unstable();
    Ok(names)
}

/// Returns those of these prefixes that no other one covers.
fn outermost<F: Family>(alloc: Global, names: &[Prefix<F>]) -> Result<Vec<Prefix<F>>, Memory>
    requires { InOrder names.now }
    ensures order { IfOk result (λ kept. InOrder kept.items) }
    ensures apart { IfOk result (λ kept. AreApart kept.items) }
    ensures same { IfOk result (λ kept. (prefix : IpPrefix) → is_inside kept.items prefix ≡ is_inside names.now prefix) }
{
    let mut kept: Vec<Prefix<F>> = Vec::new(alloc);
    for prefix in names {
        let is_covered = match kept.last() {
            Some(last) => last.covers(prefix),
            None => false,
        };
        if !is_covered {
            kept.push(*prefix)?;
        }
    }
    Ok(kept)
}

/// Whether the prefix is one of these.
fn is_named<F: Family>(names: &[Prefix<F>], prefix: &Prefix<F>) -> bool
    requires { InOrder names.now }
    ensures { result ≡ is_named names.now prefix.now }
{
    names.binary_search(prefix).is_ok()
}

/// Whether one of these covers the prefix. If any does, so does the last one that isn't behind it.
fn is_inside<F: Family>(names: &[Prefix<F>], prefix: &Prefix<F>) -> bool
    requires order { InOrder names.now }
    requires apart { AreApart names.now }
    ensures { result ≡ is_inside names.now prefix.now }
{
    match names.binary_search(prefix) {
        Ok(_) => true,
        Err(0) => false,
        Err(behind) => names[behind - 1].covers(prefix),
    }
}

/// Whether the prefix covers one of these. If it covers any, it covers the first one that isn't before it.
fn is_around<F: Family>(names: &[Prefix<F>], prefix: &Prefix<F>) -> bool
    requires { InOrder names.now }
    ensures { result ≡ is_around names.now prefix.now }
{
    is_known(prefix);
    match names.binary_search(prefix) {
        Ok(_) => true,
        Err(next) if next < names.len() => prefix.covers(&names[next]),
        Err(_) => false,
    }
}

impl<F: Family> ChosenPrefixes<F> {
    /// Returns what chooses all prefixes.
    pub fn all(alloc: Global) -> ChosenPrefixes<F>
        ensures { result ≡ [] }
    {
        ChosenPrefixes {
            choices: Vec::new(alloc),
            exact: Vec::new(alloc),
            inside: Vec::new(alloc),
            around: Vec::new(alloc),
        }
    }

    /// Returns what chooses the prefixes that one of these takes, or all if there are none.
    pub fn new(
        alloc: Global,
        choices: Vec<PrefixChoice<Prefix<F>>>,
    ) -> Result<ChosenPrefixes<F>, Memory>
        ensures { IfOk result (λ chosen. chosen ≡ choices.items) }
    {
        let exact = named_as(alloc, &choices, Reach::Exact)?;
        let named = named_as(alloc, &choices, Reach::Inside)?;
        let inside = outermost(alloc, &named)?;
        let around = named_as(alloc, &choices, Reach::Around)?;
        Ok(ChosenPrefixes {
            choices,
            exact,
            inside,
            around,
        })
    }

    /// Returns a copy.
    pub fn copied(&self, alloc: Global) -> Result<ChosenPrefixes<F>, Memory>
        ensures { IfOk result (λ copy. copy ≡ self.now) }
    {
        let choices = Vec::from_slice(alloc, &self.choices)?;
        let exact = Vec::from_slice(alloc, &self.exact)?;
        let inside = Vec::from_slice(alloc, &self.inside)?;
        let around = Vec::from_slice(alloc, &self.around)?;
        Ok(ChosenPrefixes {
            choices,
            exact,
            inside,
            around,
        })
    }

    /// Whether nothing is named, so that all prefixes are chosen.
    pub fn is_open(&self) -> bool
        ensures { result ≡ is_open self.now }
    {
        match self.choices.as_slice() {
            [] => true,
            _ => false,
        }
    }

    /// Whether a prefix is chosen.
    pub fn takes(&self, prefix: &Prefix<F>) -> bool
        ensures { result ≡ is_chosen self.now prefix.now }
    {
        self.is_open() || self.takes_named(prefix)
    }

    /// Whether one of the choices takes a prefix.
    fn takes_named(&self, prefix: &Prefix<F>) -> bool
        ensures { result ≡ list_any (λ choice. takes_prefix choice prefix.now) self.now }
    {
        is_named(&self.exact, prefix)
            || is_inside(&self.inside, prefix)
            || is_around(&self.around, prefix)
    }
}
