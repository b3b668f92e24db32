//! A peer's table, whose keys have numbers of routes.

ghost use Rattle.std.specs.Prelude.{◌≡◌, ◌≤◌, ◌+◌, ◌++◌, length, map, vec_len, vec_capacity, IfOk, IfSome, IfNone, OnOk, None, is_some, if◌then◌else◌};
ghost use Rattle.std.specs.List.{All, fold};
ghost use Rattle.bgp_prefix.specs.Maps.{IsLongestMatch, HasNoMatch, paths_of};
ghost use Rattle.std.specs.Option.{option_map};
ghost use Rattle.std.specs.FinMap as finite;
ghost use Rattle.bgp_update.specs.Packing.{unpacked};
ghost use Rattle.adj_rib.specs.declared.routes.RouteId.{RouteId as Id};
ghost use Rattle.route_choice.specs.Choices.{is_chosen_route};
ghost use Rattle.adj_rib.specs.Selecting.{chosen_entries, is_chosen_entry};
ghost use Rattle.adj_rib.specs.Routes.{AreFound, AreNamed, IsFound, IsNamed, named_routes, route_at, routes_now};
ghost use Rattle.adj_rib.specs.MappedValues.{put_entry};
ghost use Rattle.adj_rib.specs.declared.outcome.Outcome.TheVariants.{Gone, Void};
ghost use Rattle.adj_rib.specs.Steps.{announce, withdraw};
ghost use Rattle.adj_rib.specs.Histories.{lost_note};
ghost use Rattle.adj_rib.specs.Noting.{Takes, applied_noting};
ghost use Rattle.adj_rib.specs.Churns.{announced_over};

use crate::churn::Churn;
use crate::note::{Chooses, Notes};
use crate::outcome::{Outcome, What};
use crate::routes::{RouteId, Routes};
use bgp_prefix::{Memory, Prefix, PrefixMap, RouteKey};
use bgp_update::{HashedRoute, RouteRef, RouteSpan, Unicast};
use peer_units::Chosen;
use route_choice::ChosenRoutes;
use std::alloc::Global;
use std::marker::Model;

/// How many bytes of routes there are before routes are given back for the first time.
const FIRST_LIMIT: usize = 65536;

/// What the announcement of a route does, given the number of the other route, if any, that was there.
#[inline(always)]
fn outcome_over(routes: &Routes, old: Option<RouteId>, id: RouteId) -> Outcome
    requires old { IfSome old (λ (o : Id). IsNamed routes.now o.at) }
    requires id { IsNamed routes.now id.at }
    ensures { result ≡ announced_over (option_map (λ (o : Id). route_at routes.now o.at) old) (route_at routes.now id.at) }
{
    match old {
        Some(old) if routes.are_same(old, id) => Outcome::Same,
        Some(_) => Outcome::Changed,
        None => Outcome::Added,
    }
}

/// What a withdrawal does, given the number of the route, if any, that was there.
#[inline(always)]
fn outcome_without(old: Option<RouteId>) -> Outcome
    ensures { result ≡ (if is_some old then Gone else Void) }
{
    match old {
        Some(_) => Outcome::Gone,
        None => Outcome::Void,
    }
}

/// The route of a number, if there is one.
#[inline(always)]
fn route_of(routes: &Routes, id: Option<RouteId>) -> Option<RouteRef<'_>>
    requires { IfSome id (λ (o : Id). IsNamed routes.now o.at) }
    ensures { result ≡ option_map (λ (o : Id). route_at routes.now o.at) id }
{
    match id {
        Some(id) => Some(routes.route(id)),
        None => None,
    }
}

/// Puts a number at a key, counts the effect, and notes it.
#[inline(always)]
fn put_route<F: Unicast, M: PrefixMap<RouteId, Addr = F>, N: Notes<F>>(
    alloc: Global,
    routes: &Routes,
    table: &mut M,
    churn: &mut Churn,
    notes: &mut N,
    key: RouteKey<Prefix<F>>,
    id: RouteId,
) -> Result<(), Memory>
    requires id { IsNamed routes.now id.at }
    requires all { AreNamed routes.now (M.contents table.old) }
    ensures ok { OnOk result (((named_routes routes.now (M.contents table.new), churn.new), N.kept notes.new)
        ≡ applied_noting N.keep ((named_routes routes.now (M.contents table.old), churn.old), N.kept notes.old)
        (announce key (route_at routes.now id.at))) }
    ensures all { AreNamed routes.now (M.contents table.new) }
{
    let old = table.insert(alloc, &key, id)?;
    let outcome = outcome_over(routes, old, id);
    churn.count(outcome);
    let before = route_of(routes, old);
    notes.note(
        alloc,
        outcome.what(),
        &key,
        &Some(routes.route(id)),
        &before,
    )?;
    Ok(())
}

/// Puts a number at each chosen key, counts the effects, and notes them.
fn put_chosen<F: Unicast, M: PrefixMap<RouteId, Addr = F>, C: Chooses<F>, N: Notes<F>>(
    alloc: Global,
    routes: &Routes,
    table: &mut M,
    churn: &mut Churn,
    chosen: &C,
    notes: &mut N,
    keys: &[RouteKey<Prefix<F>>],
    id: RouteId,
) -> Result<(), Memory>
    requires id { IsNamed routes.now id.at }
    requires all { AreNamed routes.now (M.contents table.old) }
    ensures ok { OnOk result (Takes N.keep (C.is_chosen chosen.now)
        (map (λ key. announce key (route_at routes.now id.at)) keys.now)
        ((named_routes routes.now (M.contents table.old), churn.old), N.kept notes.old)
        ((named_routes routes.now (M.contents table.new), churn.new), N.kept notes.new)) }
    ensures all { AreNamed routes.now (M.contents table.new) }
{
    for key in keys {
        if chosen.chooses(key) {
            put_route(alloc, routes, table, churn, notes, *key, id)?;
        }
    }
    Ok(())
}

/// Notes that each of these routes was lost.
fn note_lost<F: Unicast, N: Notes<F>>(
    alloc: Global,
    entries: &[(RouteKey<Prefix<F>>, RouteRef<'_>)],
    notes: &mut N,
) -> Result<(), Memory>
    ensures { OnOk result (N.kept notes.new ≡ fold N.keep (N.kept notes.old) (map lost_note entries.now)) }
{
    for (key, route) in entries {
        let lost = Some(route.same());
        notes.note(alloc, What::Lost, key, &lost, &lost)?;
    }
    Ok(())
}

/// Appends what is listed with numbers, with the routes that they name, to a list that has room for it.
fn list_routes<'a, K: Copy + Drop>(
    routes: &'a Routes,
    listed: &[(K, &RouteId)],
    all: &mut Vec<(K, RouteRef<'a>)>,
)
    requires named { All (λ e. IsNamed routes.now e.1.now.at) listed.now }
    requires room { vec_len all.old + length listed.now ≤ vec_capacity all.old }
    ensures routes { all.new.items ≡ all.old.items ++ routes_now routes.now listed.now }
    ensures capacity { vec_capacity all.new ≡ vec_capacity all.old }
{
    for entry in listed {
        let (key, id) = *entry;
        all.push_reserved((key, routes.route(*id)));
    }
}

/// Returns what is listed with numbers, with the routes that they name.
fn with_routes<'a, K: Copy + Drop>(
    alloc: Global,
    routes: &'a Routes,
    listed: &[(K, &RouteId)],
) -> Result<Vec<(K, RouteRef<'a>)>, Memory>
    requires { All (λ e. IsNamed routes.now e.1.now.at) listed.now }
    ensures { IfOk result (λ all. all.items ≡ routes_now routes.now listed.now) }
{
    let mut all = Vec::with_capacity(alloc, listed.len())?;
    list_routes(routes, listed, &mut all);
    Ok(all)
}

/// Returns the routes that a table's numbers name, without others, and the table with their new numbers.
fn compacted<F: Unicast, M: PrefixMap<RouteId, Addr = F> + Drop>(
    alloc: Global,
    routes: &Routes,
    table: &M,
) -> Result<(Routes, M), Memory>
    requires { AreNamed routes.now (M.contents table.now) }
    ensures all { IfOk result (λ r. AreNamed r.0 (M.contents r.1)) }
    ensures same { IfOk result (λ r. named_routes r.0 (M.contents r.1)
        ≡ named_routes routes.now (M.contents table.now)) }
{
    let listed = table.entries(alloc)?;
    move_listed(alloc, routes, listed.as_slice())
}

/// Returns the routes of listed numbers, and a table of their keys with their new numbers.
fn move_listed<F: Unicast, M: PrefixMap<RouteId, Addr = F> + Drop>(
    alloc: Global,
    routes: &Routes,
    listed: &[(RouteKey<Prefix<F>>, &RouteId)],
) -> Result<(Routes, M), Memory>
    requires { All (λ e. IsNamed routes.now e.1.now.at) listed.now }
    ensures all { IfOk result (λ r. AreNamed r.0 (M.contents r.1)) }
    ensures same { IfOk result (λ r. named_routes r.0 (M.contents r.1)
        ≡ fold put_entry finite.empty (routes_now routes.now listed.now)) }
{
    let mut kept = Routes::new(alloc);
    let mut moved = M::new(alloc);
    for entry in listed {
        let (key, id) = *entry;
        let new_id = kept.intern(alloc, &HashedRoute::new(routes.route(*id)))?;
        moved.insert(alloc, &key, new_id)?;
    }
    Ok((kept, moved))
}

/// Whether the route of a number is chosen.
#[derive(Clone, Copy)]
struct Found {
    at: u32,
    is_chosen: bool,
}

/// How many bytes of routes have a cell for what was found last of those that begin there: few routes are shorter.
const BYTES_OF_A_CELL: usize = 16;

/// Finds whether the route of a number is chosen.
fn find_chosen(chosen: &ChosenRoutes, routes: &Routes, id: RouteId) -> Found
    requires { IsNamed routes.now id.at }
    ensures found { IsFound chosen.now routes.now result }
    ensures at { result.at ≡ id.at }
{
    let is_chosen = chosen.is_chosen(&routes.route(id));
    Found {
        at: id.at,
        is_chosen,
    }
}

/// Returns cells for what is found of routes by their numbers, which are below this. At first each has the same.
fn make_cells(alloc: Global, numbers: usize, first: Found) -> Result<Vec<Found>, Memory>
    ensures { IfOk result (λ found. All (λ known. known ≡ first) found.items) }
{
    let found = vec![in alloc; first; numbers / BYTES_OF_A_CELL + 1]?;
    Ok(found)
}

/// Whether the route of a number is chosen: what was found of it, if its cell still has that, or what is found now.
fn is_id_chosen(chosen: &ChosenRoutes, routes: &Routes, found: &mut Vec<Found>, id: RouteId) -> bool
    requires named { IsNamed routes.now id.at }
    requires found { AreFound chosen.now routes.now found.old.items }
    ensures chosen { result ≡ is_chosen_route chosen.now (route_at routes.now id.at) }
    ensures found { AreFound chosen.now routes.now found.new.items }
{
    let cell = id.at as usize / BYTES_OF_A_CELL;
    if let Some(known) = found.get(cell) {
        if known.at == id.at {
            return known.is_chosen;
        }
    }
    let new = find_chosen(chosen, routes, id);
    if cell < found.len() {
        found[cell] = new;
    }
    new.is_chosen
}

/// Whether a key and the route of its number are chosen.
fn is_entry_chosen<F: Unicast>(
    chosen: &Chosen<F>,
    routes: &Routes,
    found: &mut Vec<Found>,
    key: &RouteKey<Prefix<F>>,
    id: RouteId,
) -> bool
    requires named { IsNamed routes.now id.at }
    requires found { AreFound chosen.now.routes routes.now found.old.items }
    ensures chosen { result ≡ is_chosen_entry chosen.now (key.now, route_at routes.now id.at) }
    ensures found { AreFound chosen.now.routes routes.now found.new.items }
{
    is_id_chosen(chosen.routes(), routes, found, id) && chosen.prefixes().takes(&key.prefix)
}

/// Adds a key with the number of its route. It is not inlined, since most choices leave few of many keys.
#[inline(never)]
fn keep<F: Unicast, M: PrefixMap<RouteId, Addr = F>>(
    alloc: Global,
    kept: &mut M,
    key: &RouteKey<Prefix<F>>,
    id: RouteId,
) -> Result<(), Memory>
    ensures { OnOk result (M.contents kept.new ≡ finite.insert (M.contents kept.old) key.now id) }
{
    kept.insert(alloc, key, id)?;
    Ok(())
}

/// Adds a key with the number of its route, if it is chosen.
fn keep_if<F: Unicast, M: PrefixMap<RouteId, Addr = F>>(
    alloc: Global,
    is_chosen: bool,
    kept: &mut M,
    key: &RouteKey<Prefix<F>>,
    id: RouteId,
) -> Result<(), Memory>
    ensures { OnOk result (M.contents kept.new
        ≡ (if is_chosen then finite.insert (M.contents kept.old) key.now id else M.contents kept.old)) }
{
    if is_chosen {
        keep(alloc, kept, key, id)?;
    }
    Ok(())
}

/// Returns a table of the listed numbers whose keys and routes are chosen. Each route is tested once, however many keys
/// have it, unless it shares its cell with another one.
fn keep_listed<F: Unicast, M: PrefixMap<RouteId, Addr = F> + Drop>(
    alloc: Global,
    chosen: &Chosen<F>,
    routes: &Routes,
    listed: &[(RouteKey<Prefix<F>>, &RouteId)],
) -> Result<M, Memory>
    requires { All (λ e. IsNamed routes.now e.1.now.at) listed.now }
    ensures all { IfOk result (λ kept. AreNamed routes.now (M.contents kept)) }
    ensures chosen { IfOk result (λ kept. named_routes routes.now (M.contents kept)
        ≡ fold put_entry finite.empty (chosen_entries chosen.now (routes_now routes.now listed.now))) }
{
    let mut kept = M::new(alloc);
    if listed.is_empty() {
        return Ok(kept);
    }
    let first = find_chosen(chosen.routes(), routes, *listed[0].1);
    let mut found = make_cells(alloc, routes.len(), first)?;
    for entry in listed {
        let is_chosen = is_entry_chosen(chosen, routes, &mut found, &entry.0, *entry.1);
        keep_if(alloc, is_chosen, &mut kept, &entry.0, *entry.1)?;
    }
    Ok(kept)
}

/// Returns a table of the numbers whose keys and routes are chosen.
fn kept_chosen<F: Unicast, M: PrefixMap<RouteId, Addr = F> + Drop>(
    alloc: Global,
    chosen: &Chosen<F>,
    routes: &Routes,
    table: &M,
) -> Result<M, Memory>
    requires { AreNamed routes.now (M.contents table.now) }
    ensures all { IfOk result (λ kept. AreNamed routes.now (M.contents kept)) }
    ensures chosen { IfOk result (λ kept. finite.entries (named_routes routes.now (M.contents kept))
        ≡ chosen_entries chosen.now (finite.entries (named_routes routes.now (M.contents table.now)))) }
{
    let listed = table.entries(alloc)?;
    keep_listed(alloc, chosen, routes, listed.as_slice())
}

/// A peer's table, which contracts see as the map from keys to routes.
#[derive(Drop)]
pub struct RouteTable<M: PrefixMap<RouteId>> {
    map: M,
    routes: Routes,
    /// How many bytes of routes there may be before those that the table doesn't name are given back.
    limit: usize,
    /// How many steps had met a key with a route when that was done last.
    renewals: u64,
}

impl<M: PrefixMap<RouteId>> Model for RouteTable<M> {
    ghost use Rattle.adj_rib.specs.Applied.{RouteMap};
    ghost use Rattle.std.specs.Coded.{codes};
    ghost use Rattle.std.specs.FinMap as finite;

    ghost Value = { RouteMap };

    ghost coded = { finite.code (Prim.hlevel codes) (Prim.hlevel codes) };

    ghost use Rattle.adj_rib.specs.Routes.{AreNamed, named_routes};

    ghost view = { λ t. named_routes t.routes (M.contents t.map) };

    ghost invariant = { λ t. AreNamed t.routes (M.contents t.map) };
}

impl<F: Unicast, M: PrefixMap<RouteId, Addr = F>> RouteTable<M> {
    /// Returns an empty table. Allocates nothing.
    pub(crate) fn new(alloc: Global) -> RouteTable<M>
        ensures { result ≡ finite.empty }
    {
        RouteTable {
            map: M::new(alloc),
            routes: Routes::new(alloc),
            limit: FIRST_LIMIT,
            renewals: 0,
        }
    }

    /// Announces a key with a route, counts the effect, and notes it.
    #[inline(always)]
    pub(crate) fn announce<N: Notes<F>>(
        &mut self,
        alloc: Global,
        churn: &mut Churn,
        notes: &mut N,
        key: RouteKey<Prefix<F>>,
        hashed: &HashedRoute<'_>,
    ) -> Result<(), Memory>
        ensures { OnOk result (((self.new, churn.new), N.kept notes.new)
            ≡ applied_noting N.keep ((self.old, churn.old), N.kept notes.old) (announce key hashed.now.route)) }
    {
        let id = self.routes.intern(alloc, hashed)?;
        put_route(alloc, &self.routes, &mut self.map, churn, notes, key, id)?;
        Ok(())
    }

    /// Announces each chosen key, if there are any, with a route, counts the effects, and notes them.
    pub(crate) fn announce_chosen<C: Chooses<F>, N: Notes<F>>(
        &mut self,
        alloc: Global,
        churn: &mut Churn,
        chosen: &C,
        notes: &mut N,
        keys: &[RouteKey<Prefix<F>>],
        hashed: &HashedRoute<'_>,
    ) -> Result<(), Memory>
        ensures { OnOk result (Takes N.keep (C.is_chosen chosen.now) (map (λ key. announce key hashed.now.route) keys.now)
            ((self.old, churn.old), N.kept notes.old) ((self.new, churn.new), N.kept notes.new)) }
    {
        if keys.is_empty() {
            return Ok(());
        }
        let id = self.routes.intern(alloc, hashed)?;
        put_chosen(
            alloc,
            &self.routes,
            &mut self.map,
            churn,
            chosen,
            notes,
            keys,
            id,
        )?;
        Ok(())
    }

    /// Withdraws a key, counts the effect, and notes it.
    #[inline(always)]
    pub(crate) fn withdraw<N: Notes<F>>(
        &mut self,
        alloc: Global,
        churn: &mut Churn,
        notes: &mut N,
        key: &RouteKey<Prefix<F>>,
    ) -> Result<(), Memory>
        ensures { OnOk result (((self.new, churn.new), N.kept notes.new)
            ≡ applied_noting N.keep ((self.old, churn.old), N.kept notes.old) (withdraw key.now)) }
    {
        let old = self.map.remove(key);
        let outcome = outcome_without(old);
        churn.count(outcome);
        let route = route_of(&self.routes, old);
        notes.note(alloc, outcome.what(), key, &route, &route)?;
        Ok(())
    }

    /// Removes every key.
    fn clear(&mut self)
        ensures { self.new ≡ finite.empty }
    {
        self.map.clear();
        self.routes.clear();
        self.limit = FIRST_LIMIT;
    }

    /// Notes that each route is lost, where anything is kept of notes.
    fn note_all<N: Notes<F>>(&self, alloc: Global, notes: &mut N) -> Result<(), Memory>
        ensures { OnOk result (N.kept notes.new
            ≡ fold N.keep (N.kept notes.old) (map lost_note (finite.entries self.now))) }
    {
        if !notes.keeps_losses() {
            return Ok(());
        }
        let entries = self.entries(alloc)?;
        note_lost(alloc, entries.as_slice(), notes)
    }

    /// Removes every key, and notes each route that is lost.
    pub(crate) fn lose_all<N: Notes<F>>(
        &mut self,
        alloc: Global,
        notes: &mut N,
    ) -> Result<(), Memory>
        ensures lost { OnOk result (N.kept notes.new
            ≡ fold N.keep (N.kept notes.old) (map lost_note (finite.entries self.old))) }
        ensures empty { OnOk result (self.new ≡ finite.empty) }
    {
        self.note_all(alloc, notes)?;
        self.clear();
        Ok(())
    }

    /// The number of keys.
    pub fn len(&self) -> usize
        ensures { result ≡ finite.len self.now }
    {
        self.map.len()
    }

    /// Returns the longest prefix of a key that contains the address (RFC 1812, 5.2.4.3).
    pub fn longest(&self, addr: F) -> Option<Prefix<F>>
        ensures found { IfSome result (IsLongestMatch self.now (F.bits addr)) }
        ensures none { IfNone result (HasNoMatch self.now (F.bits addr)) }
    {
        self.map.longest(addr)
    }

    /// Returns the whole table, in key order, with borrowed routes.
    pub fn entries(&self, alloc: Global) -> Result<Vec<(RouteKey<Prefix<F>>, RouteRef<'_>)>, Memory>
        ensures { IfOk result (λ v. v.items ≡ finite.entries self.now) }
    {
        let listed = self.map.entries(alloc)?;
        with_routes(alloc, &self.routes, listed.as_slice())
    }

    /// Replaces the contents of a list by the whole table, in key order, by way of a list of numbers. Both have room
    /// for it. Allocates nothing.
    pub fn list<'a>(
        &'a self,
        ids: &mut Vec<(RouteKey<Prefix<F>>, &'a RouteId)>,
        all: &mut Vec<(RouteKey<Prefix<F>>, RouteRef<'a>)>,
    )
        requires ids { finite.len self.now ≤ vec_capacity ids.old }
        requires all { finite.len self.now ≤ vec_capacity all.old }
        ensures entries { all.new.items ≡ finite.entries self.now }
        ensures ids { vec_capacity ids.new ≡ vec_capacity ids.old }
        ensures all { vec_capacity all.new ≡ vec_capacity all.old }
    {
        ids.clear();
        all.clear();
        self.map.list(ids);
        list_routes(&self.routes, ids.as_slice(), all);
    }

    /// Returns the identifiers and routes of the keys of a prefix, ascending by identifier.
    pub fn paths(
        &self,
        alloc: Global,
        prefix: &Prefix<F>,
    ) -> Result<Vec<(u32, RouteRef<'_>)>, Memory>
        ensures { IfOk result (λ v. v.items ≡ paths_of prefix.now (finite.entries self.now)) }
    {
        let listed = self.map.paths(alloc, prefix)?;
        with_routes(alloc, &self.routes, listed.as_slice())
    }

    /// Prefetches the slot where a route with this hash would be. The result only keeps the read alive.
    #[inline(always)]
    pub(crate) fn prefetch_slot(&self, route: RouteSpan) -> usize {
        self.routes.prefetch_slot(route)
    }

    /// Prefetches the route with this hash. The result only keeps the read alive.
    #[inline(always)]
    pub(crate) fn prefetch_route(&self, route: RouteSpan) -> usize {
        self.routes.prefetch_route(route)
    }
}

impl<F: Unicast, M: PrefixMap<RouteId, Addr = F> + Drop> RouteTable<M> {
    /// Gives back the routes that the table doesn't name, once as many bytes were added as routes and 16 bytes for each
    /// key took when that was done last: so what is added pays for the copy of as much. Where each step since then gave
    /// a new key its route, as a RIB dump does, the table names them all. An `Err` changes nothing.
    pub(crate) fn give_back(&mut self, alloc: Global, churn: &Churn) -> Result<(), Memory>
        ensures { self.new ≡ self.old }
    {
        if self.routes.len() > self.limit && churn.renewals() != self.renewals {
            self.compact(alloc)?;
            self.renewals = churn.renewals();
        }
        Ok(())
    }

    /// Takes note that keys met their routes again, if some did, by steps that are no longer counted.
    pub(crate) fn note_renewals(&mut self, some: bool)
        ensures { self.new ≡ self.old }
    {
        if some {
            self.renewals = u64::MAX;
        }
    }

    /// Removes the keys that aren't chosen, and those whose route isn't. An `Err` changes nothing.
    pub(crate) fn retain(&mut self, alloc: Global, chosen: &Chosen<F>) -> Result<(), Memory>
        ensures { OnOk result (finite.entries self.new ≡ chosen_entries chosen.now (finite.entries self.old)) }
    {
        self.map = kept_chosen(alloc, chosen, &self.routes, &self.map)?;
        Ok(())
    }

    /// Keeps the routes that the table names, and no others. An `Err` changes nothing.
    #[inline(never)]
    fn compact(&mut self, alloc: Global) -> Result<(), Memory>
        ensures { self.new ≡ self.old }
    {
        let (routes, map) = compacted(alloc, &self.routes, &self.map)?;
        let entries = map.len().saturating_mul(16);
        self.limit = routes
            .len()
            .saturating_mul(2)
            .saturating_add(entries)
            .max(FIRST_LIMIT);
        self.routes = routes;
        self.map = map;
        Ok(())
    }
}
