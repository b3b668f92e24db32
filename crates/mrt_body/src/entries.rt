//! The entries of a RIB record that are still to be returned.

ghost use Rattle.std.specs.Prelude.{◌≡◌, ◌≤◌, ◌/◌, [], length, drop, max, vec_capacity, false, ◌↔◌, Some, IfOk, OnOk, slice_index_or};
ghost use Rattle.bgp_update.specs.Results.{Gives};
ghost use Rattle.mrt_frame.specs.Cuts.{body_limit};
ghost use Rattle.mrt_body.specs.Units.{no_peer, rib_units_in};
ghost use Rattle.mrt_body.specs.Pending.{AreListed, units_left};
ghost use Rattle.peer_units.specs.Selections.{is_selected, takes_peer};
ghost use Rattle.std.specs.List.{filter};
ghost use Rattle.mrt_body.specs.RibDumps.{heard_of};
ghost use Rattle.peer_units.specs.declared.rib_rule.RibRule.TheVariants.{Replace};

use crate::lent_units::LentEntries;
use crate::record_place::RecordAt;
use crate::rib::{ListedEntry, list_entries, rib_head_at};
use crate::rib_dumps::RibDumps;
use bgp_prefix::{Memory, Prefix, Sequence};
use bgp_update::{AttrError, Rules, Unicast};
use peer_units::{PeerAddr, PeerKey, Selection};

/// A RIB record along with a list of its entries, which are returned one by one.
#[derive(Drop)]
pub(crate) struct RibRecord<P, K> {
    pub(crate) at: RecordAt,
    /// By which rules its entries are read.
    pub(crate) rules: K,
    pub(crate) prefix: P,
    pub(crate) body: Sequence<u8>,
    /// How many entries of the list have been returned.
    pub(crate) given: u16,
}

/// Returns the peer of this index. No entry that is listed has an index past the last peer.
fn peer_at(peers: &[PeerKey], index: u16) -> PeerKey
    ensures { result ≡ slice_index_or peers.now index no_peer }
{
    match peers.get(index as usize) {
        Some(peer) => *peer,
        None => PeerKey {
            asn: 0,
            addr: PeerAddr::V4(0),
        },
    }
}

/// Keeps the entries of the peers that are taken.
fn keep_taken<F: Unicast>(selection: &Selection<F>, peers: &[PeerKey], list: &mut Vec<ListedEntry>)
    ensures { list.new.items
        ≡ filter (λ e. takes_peer selection.now (slice_index_or peers.now e.peer no_peer)) list.old.items }
{
    list.retain(|entry| selection.takes_peer(&peer_at(peers, entry.peer)));
}

impl<F: Unicast> RibRecord<Prefix<F>, Rules<F>> {
    /// Reads a record against an index of these peers, and lists its entries. The list's memory is
    /// reused.
    pub(crate) fn read(
        at: RecordAt,
        rules: Rules<F>,
        body: Sequence<u8>,
        add_path: bool,
        peers: &[PeerKey],
        list: &mut Vec<ListedEntry>,
    ) -> Result<RibRecord<Prefix<F>, Rules<F>>, AttrError>
        requires { length body ≤ body_limit }
        ensures units { Gives (units_left peers.now list.new.items) result
            (rib_units_in rules at add_path (Some peers.now) body) }
        ensures listed { IfOk result (AreListed peers.now list.new.items) }
        ensures first { IfOk result (λ r. r.given ≡ 0) }
        // A record takes no more room than for as many entries as its body can have.
        ensures room { vec_capacity list.new ≤ max (vec_capacity list.old) (length body / 8) }
    {
        let _kept = rules.kept();
        let bytes = body.as_slice();
        match rib_head_at::<F>(bytes) {
            Ok((head, rest)) => {
                let start = bytes.len() - rest.len();
                match list_entries(bytes, start, head.count, add_path, peers.len(), list) {
                    Ok(()) => Ok(RibRecord {
                        at,
                        rules,
                        prefix: head.prefix,
                        body,
                        given: 0,
                    }),
                    Err(error) => Err(error),
                }
            }
            Err(fault) => Err(AttrError::Bad(fault)),
        }
    }

    /// Returns the memory of the body.
    pub(crate) fn into_block(self) -> Vec<u8> {
        self.body.into_vec()
    }

    /// Whether an entry is to be returned.
    #[inline(always)]
    pub(crate) fn is_pending(&self, peers: &[PeerKey], list: &[ListedEntry]) -> bool
        requires { AreListed peers.now list.now self.now }
        ensures { result ≡ false ↔ (units_left peers.now list.now self.now ≡ []) }
    {
        if self.given as usize == list.len() {
            return false;
        }
        true
    }

    /// Keeps the entries that are selected, before one was returned. As all have one time and one prefix, these are
    /// those of some peers, or none.
    pub(crate) fn select(
        &self,
        selection: &Selection<F>,
        peers: &[PeerKey],
        list: &mut Vec<ListedEntry>,
    )
        requires listed { AreListed peers.now list.old.items self.now }
        requires first { self.now.given ≡ 0 }
        ensures kept { units_left peers.now list.new.items self.now
            ≡ filter (is_selected selection.now) (units_left peers.now list.old.items self.now) }
        ensures listed { AreListed peers.now list.new.items self.now }
    {
        if !selection.takes_record(self.at.time(0), &self.prefix) {
            list.clear();
        } else if !selection.takes_each_peer() {
            keep_taken(selection, peers, list);
        }
    }

    /// Takes note of the peers of the entries that are still to be returned.
    pub(crate) fn hear(
        &self,
        peers: &[PeerKey],
        list: &[ListedEntry],
        dumps: &mut RibDumps,
    ) -> Result<(), Memory>
        requires { AreListed peers.now list.now self.now }
        ensures { OnOk result (dumps.new
            ≡ record dumps.old { heard = heard_of Replace dumps.old.heard (units_left peers.now list.now self.now) }) }
    {
        for entry in &list[self.given as usize..] {
            dumps.hear(peer_at(peers, entry.peer))?;
        }
        Ok(())
    }

    /// Lends the entries that are still to be returned.
    #[inline(always)]
    pub(crate) fn lend<'a>(
        &'a self,
        peers: &'a [PeerKey],
        list: &'a [ListedEntry],
    ) -> LentEntries<'a, F>
        requires { AreListed peers.now list.now self.now }
        ensures { result ≡ units_left peers.now list.now self.now }
    {
        LentEntries {
            at: self.at,
            rules: self.rules,
            prefix: self.prefix,
            body: self.body.as_slice(),
            peers,
            list,
            given: self.given,
        }
    }

    /// Leaves so many entries behind, or all that are left.
    #[inline(always)]
    pub(crate) fn consume(&mut self, count: usize, peers: &[PeerKey], list: &[ListedEntry])
        requires { AreListed peers.now list.now self.old }
        ensures consumes { units_left peers.now list.now self.new
            ≡ drop count (units_left peers.now list.now self.old) }
        ensures listed { AreListed peers.now list.now self.new }
    {
        let left = list.len() - self.given as usize;
        self.given += count.min(left) as u16;
    }
}
