//! What happens to keys: whose routes are kept, and who is told of them.

ghost use Rattle.std.specs.Prelude.{◌≡◌};
ghost use Rattle.adj_rib.specs.Histories.{has_chosen};

use crate::churn::Churn;
use crate::outcome::What;
use bgp_prefix::{Memory, Prefix, RouteKey};
use bgp_update::{RouteRef, Unicast};
use peer_units::ChosenPrefixes;
use route_choice::ChosenRoutes;
use std::alloc::Global;

/// Which keys are chosen. The routes of the others aren't kept.
pub trait Chooses<F: Unicast> {
    ghost use Rattle.std.specs.Prelude.{◌≡◌, Bool};
    ghost use Rattle.bgp_prefix.specs.Keys.{RouteKey as Key};

    /// Whether a key is chosen.
    ghost is_chosen: { Self → Key → Bool };

    /// Whether a key is chosen.
    fn chooses(&self, key: &RouteKey<Prefix<F>>) -> bool
        ensures { result ≡ is_chosen self.now key.now };
}

/// All keys.
#[derive(Drop)]
pub(crate) struct EveryKey {}

impl<F: Unicast> Chooses<F> for EveryKey {
    ghost use Rattle.std.specs.Prelude.{true};

    ghost is_chosen = { λ _ _. true };

    #[inline(always)]
    fn chooses(&self, _key: &RouteKey<Prefix<F>>) -> bool {
        true
    }
}

impl<F: Unicast> Chooses<F> for ChosenPrefixes<F> {
    ghost use Rattle.adj_rib.specs.Selecting.{chooses};

    ghost is_chosen = { chooses };

    fn chooses(&self, key: &RouteKey<Prefix<F>>) -> bool {
        self.takes(&key.prefix)
    }
}

/// What is told of all that happens to chosen keys, and keeps what it needs.
pub trait Notes<F: Unicast> {
    ghost use Rattle.std.specs.Prelude.{◌≡◌, OnOk, false};
    ghost use Rattle.adj_rib.specs.Plain.{Note as AnyNote};
    ghost use Rattle.adj_rib.specs.declared.outcome.What.TheVariants.{Lost};

    /// The type of what is kept.
    ghost Kept: { Type 0 };

    /// What is kept.
    ghost kept: { Self → Kept };

    /// What is kept after one more note.
    ghost keep: { Kept → AnyNote → Kept };

    /// Whether anything is kept of a note that comes now and says that a route was lost.
    fn keeps_losses(&self) -> bool
        ensures none { result ≡ false →
            (note : AnyNote) → note.what ≡ Lost → keep (kept self.now) note ≡ kept self.now };

    /// Takes one more note: what happened to a key, the route that it has from then on, or the one that went, and the
    /// one that it had before. A withdrawal of a key without a route has none.
    fn note(
        &mut self,
        alloc: Global,
        what: What,
        key: &RouteKey<Prefix<F>>,
        route: &Option<RouteRef<'_>>,
        before: &Option<RouteRef<'_>>,
    ) -> Result<(), Memory>
        ensures { OnOk result (kept self.new ≡ keep (kept self.old)
            (record { what = what; key = key.now; route = route.now; before = before.now })) };
}

/// Nothing is kept.
#[derive(Drop)]
pub(crate) struct NoNotes {}

impl<F: Unicast> Notes<F> for NoNotes {
    ghost Kept = { Unit };

    ghost kept = { λ _. tt };

    ghost keep = { λ k _. k };

    #[inline(always)]
    fn keeps_losses(&self) -> bool {
        false
    }

    #[inline(always)]
    fn note(
        &mut self,
        _alloc: Global,
        _what: What,
        _key: &RouteKey<Prefix<F>>,
        _route: &Option<RouteRef<'_>>,
        _before: &Option<RouteRef<'_>>,
    ) -> Result<(), Memory> {
        Ok(())
    }
}

/// Whether there is a route, and it is chosen.
fn has_chosen(routes: &ChosenRoutes, route: &Option<RouteRef<'_>>) -> bool
    ensures { result ≡ has_chosen routes.now route.now }
{
    match route {
        Some(route) => routes.is_chosen(route),
        None => false,
    }
}

/// What is told of all that happens to keys, counts what is about chosen routes, and passes it on.
#[derive(Drop)]
pub(crate) struct ChosenNotes<'a, N> {
    pub(crate) routes: &'a ChosenRoutes,
    /// The counts of announcements and withdrawals. The others don't change.
    pub(crate) churn: Churn,
    pub(crate) notes: &'a mut N,
}

impl<F: Unicast, N: Notes<F>> Notes<F> for ChosenNotes<'_, N> {
    ghost use Rattle.route_choice.specs.Choices.{RouteChoice};
    ghost use Rattle.adj_rib.specs.declared.churn.Churn.{Churn as Counts};
    ghost use Rattle.std.specs.Borrow.{GName};
    ghost use Rattle.adj_rib.specs.Noting.{keep_beside, keep_chosen};

    ghost Kept = { (RouteChoice × Counts) × (GName × N.Kept) };

    ghost kept = { λ c. ((c.routes.now, c.churn), (c.notes.ghost_name, N.kept c.notes.now)) };

    ghost keep = { keep_chosen (keep_beside N.keep) };

    fn keeps_losses(&self) -> bool {
        self.notes.keeps_losses()
    }

    fn note(
        &mut self,
        alloc: Global,
        what: What,
        key: &RouteKey<Prefix<F>>,
        route: &Option<RouteRef<'_>>,
        before: &Option<RouteRef<'_>>,
    ) -> Result<(), Memory> {
        let routes = self.routes;
        if routes.is_open() || has_chosen(routes, route) || has_chosen(routes, before) {
            self.churn.count_what(what);
            return self.notes.note(alloc, what, key, route, before);
        }
        Ok(())
    }
}
