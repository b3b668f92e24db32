//! The routes that a selection chooses.

ghost use Rattle.std.specs.Prelude.{◌≡◌, IfOk, IsTrue, true};
ghost use Rattle.bgp_update.specs.declared.kept_attribute.KeptAttribute.{KeptAttribute as Attribute};
ghost use Rattle.bgp_update.specs.declared.route.Route.{Route};
ghost use Rattle.bgp_update.specs.KeptAttributes.{has};
ghost use Rattle.route_choice.specs.Communities.{has_community};
ghost use Rattle.route_choice.specs.Masks.{path_matches};
ghost use Rattle.route_choice.specs.Choices.{
  is_same_origin,
  origin_of,
  meets,
  is_chosen_route,
  every_route,
  names_nothing,
  needs,
};

use crate::community::CommunityPattern;
use crate::cursor::PathCursor;
use crate::matching::matches;
use crate::path_mask::PathMask;
use bgp_prefix::Memory;
use bgp_update::{AttributeSet, KeptValues, RouteRef};
use std::alloc::Global;
use std::marker::Model;

/// Which routes are chosen: those that each list chooses. A list without values chooses all, and else what one of its
/// values chooses.
#[derive(Debug, Drop)]
pub struct ChosenRoutes {
    /// Origin ASes, and `None` for the routes that have none.
    origins: Vec<Option<u32>>,
    /// Masks of the AS path.
    paths: Vec<PathMask>,
    /// Patterns of communities.
    communities: Vec<CommunityPattern>,
}

impl Model for ChosenRoutes {
    ghost use Rattle.route_choice.specs.Choices.{RouteChoice};

    ghost Value = { RouteChoice };

    ghost view = { λ c. record {
      origins = c.origins.items;
      paths = c.paths.items;
      communities = c.communities.items;
    } };
}

/// Returns a copy of masks.
fn copied_masks(alloc: Global, masks: &[PathMask]) -> Result<Vec<PathMask>, Memory>
    ensures { IfOk result (λ copies. copies.items ≡ masks.now) }
{
    let mut copies = Vec::with_capacity(alloc, masks.len())?;
    for mask in masks {
        let steps = Vec::from_slice(alloc, mask.steps())?;
        copies.push(PathMask::of_steps(steps))?;
    }
    Ok(copies)
}

impl ChosenRoutes {
    /// Returns what chooses all routes. Allocates nothing.
    pub fn all(alloc: Global) -> ChosenRoutes
        ensures { result ≡ every_route }
    {
        ChosenRoutes {
            origins: Vec::new(alloc),
            paths: Vec::new(alloc),
            communities: Vec::new(alloc),
        }
    }

    /// Returns what chooses the routes of these origin ASes, `None` of those that have none, whose path one of these
    /// masks matches, and that have a community that one of these patterns matches. A list without values chooses all.
    pub fn new(
        origins: Vec<Option<u32>>,
        paths: Vec<PathMask>,
        communities: Vec<CommunityPattern>,
    ) -> ChosenRoutes
        ensures { result ≡ record {
          origins = origins.items;
          paths = paths.items;
          communities = communities.items;
        } }
    {
        ChosenRoutes {
            origins,
            paths,
            communities,
        }
    }

    /// Returns a copy.
    pub fn copied(&self, alloc: Global) -> Result<ChosenRoutes, Memory>
        ensures { IfOk result (λ copy. copy ≡ self.now) }
    {
        let origins = Vec::from_slice(alloc, &self.origins)?;
        let paths = copied_masks(alloc, &self.paths)?;
        let communities = Vec::from_slice(alloc, &self.communities)?;
        Ok(ChosenRoutes {
            origins,
            paths,
            communities,
        })
    }

    /// Whether the route's origin AS is chosen.
    fn is_origin_chosen(&self, route: &RouteRef<'_>) -> bool
        ensures { result ≡ meets (is_same_origin (origin_of route.now)) self.now.origins }
    {
        if self.origins.is_empty() {
            return true;
        }
        let origin = route.origin_as();
        for own in &self.origins {
            if origin == *own {
                return true;
            }
        }
        false
    }

    /// Whether the route's path is chosen.
    fn is_path_chosen(&self, route: &RouteRef<'_>) -> bool
        ensures { result ≡ meets (λ mask. path_matches mask route.now.path) self.now.paths }
    {
        if self.paths.is_empty() {
            return true;
        }
        let Some(path) = PathCursor::of_route(route) else {
            return false;
        };
        for mask in &self.paths {
            if matches(mask.steps(), path.same()) {
                return true;
            }
        }
        false
    }

    /// Whether one of the route's communities is chosen.
    fn is_community_chosen(&self, route: &RouteRef<'_>) -> bool
        ensures { result ≡ meets (has_community route.now.kept) self.now.communities }
    {
        if self.communities.is_empty() {
            return true;
        }
        let kept = match route.kept() {
            Some(kept) => kept,
            None => KeptValues::none(),
        };
        for pattern in &self.communities {
            if pattern.matches(&kept) {
                return true;
            }
        }
        false
    }

    /// Whether a route is chosen. Of its further attributes it has to keep those that `attributes` returns. Takes the
    /// time of the path times the masks, and allocates nothing.
    pub fn is_chosen(&self, route: &RouteRef<'_>) -> bool
        ensures { result ≡ is_chosen_route self.now route.now }
    {
        self.is_origin_chosen(route)
            && self.is_path_chosen(route)
            && self.is_community_chosen(route)
    }

    /// Whether no value is named, so that every route is chosen.
    pub fn is_open(&self) -> bool
        ensures nothing { result ≡ names_nothing self.now }
        ensures all { IsTrue result → (route : Route) → is_chosen_route self.now route ≡ true }
    {
        self.origins.is_empty() && self.paths.is_empty() && self.communities.is_empty()
    }

    /// The further attributes that the patterns of communities are about.
    pub fn attributes(&self) -> AttributeSet
        ensures { (a : Attribute) → has result a ≡ needs self.now a }
    {
        let mut asked = AttributeSet::none();
        for pattern in &self.communities {
            asked = asked.with(pattern.attribute());
        }
        asked
    }
}
