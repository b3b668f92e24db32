//! The entries of all peers, merged by prefix.

ghost use Rattle.std.specs.Prelude.{◌≡◌, ◌+◌, ◌^◌, ◌<◌, ◌∷◌, ◌++◌, [], false, length, map, IfOk, IfSome, MatchOption, OnOk, T};
ghost use Rattle.std.specs.BinaryHeap.{IsHeap, IsUpperBound, KeepsHeap, heap_items};
ghost use Rattle.std.specs.List.Sorted.{IsPermutation};
ghost use Rattle.std.specs.FinMap.{is_sorted};
ghost use Rattle.bgp_prefix.specs.Keys.{key_cmp};
ghost use Rattle.checkpoint_writing.specs.Merging.{AreAbove, IsMerge, PushesHead, StepsOver, TakesLeast, entries_count, first_before, prefixes_among, top_of};

use crate::cursor::{Cursor, PeerRoute};
use bgp_prefix::{Family, Memory, Prefix, RouteKey};
use bgp_update::{RouteRef, Unicast};
use std::alloc::Global;
use std::cmp::Reverse;
use std::collections::BinaryHeap;
use std::marker::Model;

/// What is left of the entries of peers, by number, and the prefix of the first one of each that has any left. The
/// least of these prefixes, and of the peers that have it the least, comes first.
#[derive(Drop)]
pub(crate) struct Merge<'a, F: Family> {
    cursors: Vec<Cursor<'a, F>>,
    heads: BinaryHeap<Reverse<(Prefix<F>, usize)>>,
}

impl<'a, F: Family> Model for Merge<'a, F> {
    ghost use Rattle.std.specs.BinaryHeap.{heap_items};
    ghost use Rattle.checkpoint_writing.specs.Merging.{MergeState};

    ghost Value = { MergeState };

    ghost view = { λ m. record { lists = m.cursors.items; heads = heap_items m.heads } };
}

/// Adds the first prefix of a peer, if it has one.
fn push_head<F: Unicast>(
    heads: &mut BinaryHeap<Reverse<(Prefix<F>, usize)>>,
    prefix: Option<Prefix<F>>,
    peer: usize,
) -> Result<(), Memory>
    ensures { OnOk result (PushesHead prefix peer (heap_items heads.old) (heap_items heads.new)) }
{
    if let Some(prefix) = prefix {
        heads.push(Reverse((prefix, peer)))?;
    }
    Ok(())
}

/// Removes the prefix on top, if there is one.
fn drop_top<F: Unicast>(heads: &mut BinaryHeap<Reverse<(Prefix<F>, usize)>>)
    ensures top { IfSome (top_of (heap_items heads.old)) (λ x.
        IsPermutation (heap_items heads.old) (record { 0 = x } ∷ heap_items heads.new)) }
    ensures heap { KeepsHeap first_before (heap_items heads.old) (heap_items heads.new) }
{
    heads.pop();
}

impl<'a, F: Unicast> Merge<'a, F> {
    /// Of no peers.
    pub(crate) fn new(alloc: Global) -> Merge<'a, F>
        ensures merge { IsMerge result }
        ensures lists { result.lists ≡ [] }
    {
        Merge {
            cursors: Vec::new(alloc),
            heads: BinaryHeap::new(alloc),
        }
    }

    /// Adds the entries of the next peer, in the order of their keys.
    pub(crate) fn add(
        &mut self,
        entries: Vec<(RouteKey<Prefix<F>>, RouteRef<'a>)>,
    ) -> Result<(), Memory>
        requires merge { IsMerge self.old }
        requires sorted { T (is_sorted key_cmp entries.items) }
        requires few { length self.old.lists + 1 < 256 ^ 2 }
        ensures merge { OnOk result (IsMerge self.new) }
        ensures lists { OnOk result (self.new.lists ≡ self.old.lists ++ entries.entry.items ∷ []) }
    {
        let cursor = Cursor::new(entries);
        push_head(&mut self.heads, cursor.prefix(), self.cursors.len())?;
        self.cursors.push(cursor)?;
        Ok(())
    }

    /// The least prefix, and the first peer that has it.
    fn first(&self) -> Option<(Prefix<F>, usize)>
        ensures top { result ≡ top_of self.now.heads }
        ensures least { IfSome result (λ x. IsHeap first_before self.now.heads → IsUpperBound first_before (record { 0 = x }) self.now.heads) }
    {
        let Reverse(first) = self.heads.peek()?;
        Some(*first)
    }

    /// Takes the routes of a prefix from the first peer that has it, if one has. None has one before it.
    fn take_first(
        &mut self,
        prefix: &Prefix<F>,
        routes: &mut Vec<PeerRoute<'a>>,
    ) -> Result<bool, Memory>
        requires merge { IsMerge self.old }
        requires least { AreAbove prefix.now self.old.lists }
        ensures merge { OnOk result (IsMerge self.new) }
        ensures step { IfOk result (StepsOver prefix.now self.old.lists routes.old.items self.new.lists routes.new.items) }
    {
        let Some(first) = self.first() else {
            return Ok(false);
        };
        if !prefix.is_same(&first.0) {
            return Ok(false);
        }
        let peer = first.1;
        let next = self.cursors[peer].take_routes(prefix, peer as u16, routes)?;
        drop_top(&mut self.heads);
        push_head(&mut self.heads, next, peer)?;
        Ok(true)
    }

    /// Takes the routes of the least prefix that is left, by peer and identifier, and returns it. They replace the
    /// routes that were there. With no entry left there is none.
    pub(crate) fn next(
        &mut self,
        routes: &mut Vec<PeerRoute<'a>>,
    ) -> Result<Option<Prefix<F>>, Memory>
        requires merge { IsMerge self.old }
        ensures merge { OnOk result (IsMerge self.new) }
        ensures least { IfOk result (λ prefix. IfSome prefix (TakesLeast self.old.lists self.new.lists routes.new.items)) }
        ensures none { IfOk result (λ prefix. MatchOption prefix (prefixes_among self.old.lists ≡ [])
            (λ _. entries_count self.new.lists < entries_count self.old.lists)) }
    {
        routes.clear();
        let Some(first) = self.first() else {
            return Ok(None);
        };
        let prefix = first.0;
        while self.take_first(&prefix, routes)? {}
        Ok(Some(prefix))
    }
}
