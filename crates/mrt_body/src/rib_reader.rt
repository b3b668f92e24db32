//! The index in force, and what it is still needed for.

ghost use Rattle.std.specs.Prelude.{◌≡◌, ◌≤◌, [], drop, length, false, ◌↔◌, Some, OnErr, OnOk, MatchOption};
ghost use Rattle.bgp_update.specs.Results.{Gives};
ghost use Rattle.mrt_frame.specs.Cuts.{body_limit};
ghost use Rattle.bgp_update.specs.Families.{by_entry_width};
ghost use Rattle.bgp_update.specs.declared.width.Width.TheVariants.{Four};
ghost use Rattle.mrt_body.specs.Units.{rib_units_in, selected_units};
ghost use Rattle.mrt_body.specs.Pending.{without_pending};
ghost use Rattle.mrt_body.specs.RibDumps.{heard_of};
ghost use Rattle.peer_units.specs.declared.rib_rule.RibRule.TheVariants.{Replace};

use crate::entries::RibRecord;
use crate::lent_units::LentEntries;
use crate::record_place::RecordAt;
use crate::rib::ListedEntry;
use crate::rib_dumps::RibDumps;
use bgp_prefix::{Memory, Prefix, Sequence};
use bgp_update::{AttrError, Rules, Unicast, Width};
use peer_units::{PeerKey, Selection};
use std::alloc::Global;
use std::marker::Model;

/// The peers of an index table, and the entries of the last RIB record read against it that are still to
/// be returned.
#[derive(Drop)]
pub(crate) struct Index<F: Unicast> {
    peers: Vec<PeerKey>,
    /// The entries of the last record. The list is kept from one record to the next, to reuse its memory.
    list: Vec<ListedEntry>,
    last: Option<RibRecord<Prefix<F>, Rules<F>>>,
}

impl<F: Unicast> Model for Index<F> {
    ghost use Rattle.mrt_body.specs.Pending.{IndexState, ArePending, pending_of};

    ghost Value = { IndexState };

    ghost view = { λ i. record { peers = i.peers.items; pending = pending_of i.peers.items i.list.items i.last } };

    ghost invariant = { λ i. ArePending i.peers.items i.list.items i.last };
}

impl<F: Unicast> Index<F> {
    pub(crate) fn new(alloc: Global, peers: Vec<PeerKey>) -> Index<F>
        ensures { result ≡ record { peers = peers.items; pending = [] } }
    {
        Index {
            peers,
            list: Vec::new(alloc),
            last: None,
        }
    }

    /// Reads a RIB record against this index. Its entries that are selected are then to be returned.
    pub(crate) fn read(
        &mut self,
        at: RecordAt,
        add_path: bool,
        body: Sequence<u8>,
        selection: &Selection<F>,
    ) -> Result<(), AttrError>
        requires { length body ≤ body_limit }
        ensures units { Gives (λ _. self.new.pending) result
            (selected_units selection.now (rib_units_in (by_entry_width Four selection.now.rules) at add_path (Some self.old.peers) body)) }
        ensures peers { self.new.peers ≡ self.old.peers }
        ensures few { length self.new.pending ≤ 65535 }
        ensures none { OnErr result (self.new.pending ≡ []) }
    {
        self.last = None;
        let rules = selection.rules().with_entry_width(Width::Four);
        let peers = self.peers.as_slice();
        let record = RibRecord::read(at, rules, body, add_path, peers, &mut self.list)?;
        record.select(selection, self.peers.as_slice(), &mut self.list);
        self.last = Some(record);
        Ok(())
    }

    /// How many peers the index table has, and the entries of the last record that are selected.
    pub(crate) fn listed(&self) -> (usize, &[ListedEntry]) {
        (self.peers.len(), self.list.as_slice())
    }

    /// Takes note of the peers of the units that are still to be returned.
    pub(crate) fn hear(&self, dumps: &mut RibDumps) -> Result<(), Memory>
        ensures { OnOk result (dumps.new ≡ record dumps.old { heard = heard_of Replace dumps.old.heard self.now.pending }) }
    {
        match &self.last {
            Some(record) => record.hear(self.peers.as_slice(), self.list.as_slice(), dumps),
            None => Ok(()),
        }
    }

    /// Takes out the memory of the last record, and skips what is still to be returned of it.
    pub(crate) fn take_block(&mut self) -> Option<Vec<u8>>
        ensures { self.new ≡ without_pending self.old }
    {
        match self.last.take() {
            Some(record) => Some(record.into_block()),
            None => None,
        }
    }

    /// Whether an entry is to be returned.
    #[inline(always)]
    pub(crate) fn is_pending(&self) -> bool
        ensures { result ≡ false ↔ (self.now.pending ≡ []) }
    {
        match &self.last {
            Some(record) => record.is_pending(self.peers.as_slice(), self.list.as_slice()),
            None => false,
        }
    }

    /// Lends the entries that are still to be returned, if there is a record of such.
    #[inline(always)]
    pub(crate) fn lend(&self) -> Option<LentEntries<'_, F>>
        ensures { MatchOption result (self.now.pending ≡ []) (λ entries. entries ≡ self.now.pending) }
    {
        match &self.last {
            Some(record) => Some(record.lend(self.peers.as_slice(), self.list.as_slice())),
            None => None,
        }
    }

    /// Leaves so many entries behind, or all that are left.
    #[inline(always)]
    pub(crate) fn consume(&mut self, count: usize)
        ensures { self.new ≡ record { peers = self.old.peers; pending = drop count self.old.pending } }
    {
        if let Some(record) = &mut self.last {
            record.consume(count, self.peers.as_slice(), self.list.as_slice());
        }
    }
}
