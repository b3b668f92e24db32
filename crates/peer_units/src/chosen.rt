//! What is chosen of tables, and of what happened to them.

ghost use Rattle.std.specs.Prelude.{◌≡◌, IfOk};
ghost use Rattle.peer_units.specs.Choices.{chooses_all, every_choice};

use crate::chosen_prefixes::ChosenPrefixes;
use bgp_prefix::{Family, Memory};
use route_choice::ChosenRoutes;
use std::alloc::Global;
use std::marker::Model;

/// Which keys of tables are chosen, by their prefixes, and which of their routes.
#[derive(Debug, Drop)]
pub struct Chosen<F: Family = u32> {
    prefixes: ChosenPrefixes<F>,
    routes: ChosenRoutes,
}

impl<F: Family> Model for Chosen<F> {
    ghost use Rattle.peer_units.specs.Choices.{Choices};

    ghost Value = { Choices };

    ghost view = { λ c. record { prefixes = c.prefixes; routes = c.routes } };
}

impl<F: Family> Chosen<F> {
    /// Returns what chooses all. Allocates nothing.
    pub fn all(alloc: Global) -> Chosen<F>
        ensures { result ≡ every_choice }
    {
        Chosen {
            prefixes: ChosenPrefixes::all(alloc),
            routes: ChosenRoutes::all(alloc),
        }
    }

    /// Returns the same with these prefixes.
    pub fn of_prefixes(mut self, prefixes: ChosenPrefixes<F>) -> Chosen<F>
        ensures { result ≡ record self { prefixes = prefixes } }
    {
        self.prefixes = prefixes;
        self
    }

    /// Returns the same with these routes.
    pub fn of_routes(mut self, routes: ChosenRoutes) -> Chosen<F>
        ensures { result ≡ record self { routes = routes } }
    {
        self.routes = routes;
        self
    }

    /// Returns a copy.
    pub fn copied(&self, alloc: Global) -> Result<Chosen<F>, Memory>
        ensures { IfOk result (λ copy. copy ≡ self.now) }
    {
        let prefixes = self.prefixes.copied(alloc)?;
        let routes = self.routes.copied(alloc)?;
        Ok(Chosen { prefixes, routes })
    }

    /// The prefixes that are chosen.
    #[inline(always)]
    pub fn prefixes(&self) -> &ChosenPrefixes<F>
        ensures { result.now ≡ self.now.prefixes }
    {
        &self.prefixes
    }

    /// The routes that are chosen.
    #[inline(always)]
    pub fn routes(&self) -> &ChosenRoutes
        ensures { result.now ≡ self.now.routes }
    {
        &self.routes
    }

    /// Whether nothing is named, so that all is chosen.
    pub fn is_open(&self) -> bool
        ensures { result ≡ chooses_all self.now }
    {
        self.prefixes.is_open() && self.routes.is_open()
    }
}
