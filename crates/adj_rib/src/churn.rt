//! What a peer's units did to its table, in counts and times.

ghost use Rattle.std.specs.Prelude.{◌≡◌};
ghost use Rattle.adj_rib.specs.Histories.{is_before};

use crate::outcome::{Outcome, What};

/// Whether a time, in microseconds since 1970 UTC, is before this second.
pub fn is_before(since: Option<u64>, time: u64) -> bool
    ensures { result ≡ is_before since time }
{
    match since {
        Some(since) => time / 1_000_000 < since,
        None => false,
    }
}

/// What a peer's units did to its table. Each count stops at `u64::MAX`; times are in microseconds
/// since 1970 UTC.
#[derive(Clone, Copy, Debug, PartialEq, Eq)]
pub struct Churn {
    /// Announcements of keys that had no route.
    pub added: u64,
    /// Announcements of keys that had another route.
    pub changed: u64,
    /// Announcements of keys that had an equal route.
    pub same: u64,
    /// Withdrawals of keys that had a route.
    pub gone: u64,
    /// Withdrawals of keys that had none.
    pub void: u64,
    /// State changes that emptied the table.
    pub resets: u64,
    /// UPDATEs and RIB entries, undamaged, while the peer wasn't up.
    pub idle: u64,
    /// Damaged units, whatever is done about them.
    pub refused: u64,
    /// The time of the first unit that was recorded.
    pub first: Option<u64>,
    /// The time of the last unit that was recorded.
    pub last: Option<u64>,
}

impl Churn {
    ghost use Rattle.std.specs.Prelude.{◌≡◌, None, if◌then◌else◌};
    ghost use Rattle.adj_rib.specs.Applied.{counted, no_churn, timed};
    ghost use Rattle.adj_rib.specs.Histories.{outcome_noted, with_outcomes};
    ghost use Rattle.adj_rib.specs.Noting.{counted_this};

    /// Returns the churn of no unit.
    pub(crate) fn new() -> Churn
        ensures { result ≡ no_churn }
    {
        Churn {
            added: 0,
            changed: 0,
            same: 0,
            gone: 0,
            void: 0,
            resets: 0,
            idle: 0,
            refused: 0,
            first: None,
            last: None,
        }
    }

    /// How often a key was announced or withdrawn. Stops at `u64::MAX`.
    pub fn keys(&self) -> u64 {
        self.added
            .saturating_add(self.changed)
            .saturating_add(self.same)
            .saturating_add(self.gone)
            .saturating_add(self.void)
    }

    /// Returns the counts before a unit of this time, if it is before this second, and otherwise those after it.
    pub(crate) fn within(since: Option<u64>, time: u64, before: Churn, after: Churn) -> Churn
        ensures { result ≡ if is_before since time then before else after }
    {
        if is_before(since, time) {
            before
        } else {
            after
        }
    }

    /// Counts what happened to a key, where it was announced or withdrawn.
    #[inline(always)]
    pub(crate) fn count_what(&mut self, what: What)
        ensures { self.new ≡ counted_this (outcome_noted what) self.old }
    {
        match what {
            What::New => self.count(Outcome::Added),
            What::Changed => self.count(Outcome::Changed),
            What::Same => self.count(Outcome::Same),
            What::Gone => self.count(Outcome::Gone),
            What::Void => self.count(Outcome::Void),
            What::Lost => {}
        }
    }

    /// Returns the same, with the counts of announcements and withdrawals of another one.
    pub(crate) fn with_outcomes(self, other: Churn) -> Churn
        ensures { result ≡ with_outcomes self other }
    {
        Churn {
            added: other.added,
            changed: other.changed,
            same: other.same,
            gone: other.gone,
            void: other.void,
            ..self
        }
    }

    /// Counts what a step did.
    #[inline(always)]
    #[tactic(auto, unfolding(crate::specs::Applied::counted))]
    pub(crate) fn count(&mut self, outcome: Outcome)
        ensures { self.new ≡ counted outcome self.old }
    {
        match outcome {
            Outcome::Added => self.added = self.added.saturating_add(1),
            Outcome::Changed => self.changed = self.changed.saturating_add(1),
            Outcome::Same => self.same = self.same.saturating_add(1),
            Outcome::Gone => self.gone = self.gone.saturating_add(1),
            Outcome::Void => self.void = self.void.saturating_add(1),
            Outcome::Reset => self.resets = self.resets.saturating_add(1),
            Outcome::Cleared => {}
        }
    }

    /// How many steps met a key that had a route.
    pub(crate) fn renewals(&self) -> u64 {
        self.changed
            .saturating_add(self.same)
            .saturating_add(self.gone)
    }

    /// Notes the time of a unit, if it is recorded.
    #[inline(always)]
    #[tactic(auto, unfolding(crate::specs::Applied::timed))]
    pub(crate) fn note_unit(&mut self, is_recorded: bool, time: u64)
        ensures { self.new ≡ (if is_recorded then timed time self.old else self.old) }
    {
        if is_recorded {
            if self.first.is_none() {
                self.first = Some(time);
            }
            self.last = Some(time);
        }
    }
}
