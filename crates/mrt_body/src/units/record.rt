//! What comes of a whole record: an index in force, its unit, its entries or its refusal.

ghost use Rattle.std.specs.Prelude.{◌≡◌, ◌<◌, ◌≤◌, ◌+◌, ◌++◌, ◌∷◌, Bool, Ok, [], IfOk, IfErr, OnOk, false, if◌then◌else◌, length, map};
ghost use Rattle.std.specs.List.{filter};
ghost use Rattle.mrt_frame.specs.Cuts.{body_limit};
ghost use Rattle.peer_units.specs.declared.unit.Found.TheVariants as found_spec;
ghost use Rattle.mrt_body.specs.Units.{alone, change_units, clears_if, dumps_told, found_units, refused_at, time_of, units_or_none};
ghost use Rattle.peer_units.specs.Payloads.{IsSmallUnit};
ghost use Rattle.mrt_body.specs.RibDumps.{dumps_with, may_begin};
ghost use Rattle.peer_units.specs.Selections.{is_past, is_selected, takes_peer};
ghost use Rattle.mrt_body.specs.ToCome.{TakesRecord, as_found, refusals};
ghost use Rattle.mrt_body.specs.declared.body_kind.BodyKind.TheVariants as content_spec;
ghost use Rattle.mrt_body.specs.Readings.{GivesFew, WantsMemory, StaysHere};

use super::{Units, kept_block};
use crate::bgp4mp::{StateChange, state_change_in};
use crate::body_kind::BodyKind;
use crate::body_unit::{BodyUnit, block_of, bytes_of, lent};
use crate::end_of_rib::{is_end_of_rib, longest_end_of_rib};
use crate::known_peers::told_peers;
use crate::old_entry::old_entry_unit;
use crate::payload::message_unit;
use crate::peer_index::peers_in;
use crate::record_place::RecordAt;
use crate::remarks::RecordType;
use crate::rib_dumps::RibDumps;
use crate::rib_reader::Index;
use crate::waiting::{Told, Waiting};
use bgp_prefix::{Memory, Sequence};
use bgp_update::{AttrError, Unicast, Width};
use mrt_frame::{Fault, ReadState, ReplayError};
use peer_units::{Damage, PeerKey, RibRule, Selection, StatePeers, TableDumpRule};
use std::alloc::Global;
use std::collections::VecDeque;

impl<F: Unicast> Units<F> {
    /// Returns what comes of a whole record. Entries are still to be returned afterwards.
    pub(super) fn take(
        &mut self,
        alloc: Global,
        at: RecordAt,
        record_type: RecordType,
        is_extended: bool,
        content: BodyKind,
        body: Sequence<u8>,
    ) -> Result<Option<Damage>, ReplayError>
        requires given { self.old.pending ≡ [] }
        requires counted { self.old.aside < self.old.records }
        requires small { length body ≤ body_limit }
        ensures takes { IfOk result (TakesRecord self.old at is_extended content body self.new) }
        ensures few { IfOk result (GivesFew self.old self.new) }
        ensures stops { IfErr result (WantsMemory self.new) }
        ensures stays { StaysHere self.old self.new }
    {
        match content {
            BodyKind::IndexTable => self.take_index(alloc, at, body.as_slice()),
            BodyKind::Rib { add_path } => self.take_rib(alloc, at, add_path, body),
            BodyKind::Message { width, add_path } => {
                let unit = message_unit(
                    self.selection.rules(),
                    at,
                    is_extended,
                    width,
                    add_path,
                    body,
                );
                self.note_end_of_rib(&unit);
                self.found(alloc, at, unit)
            }
            BodyKind::States { width } => self.take_states(alloc, at, is_extended, width, body),
            BodyKind::OldEntry => self.take_old_entry(alloc, at, body),
            BodyKind::Aside => {
                self.remarker.see_aside(at.file, record_type);
                self.leave_aside(body);
                Ok(None)
            }
        }
    }

    /// Reads a state change, which is of one peer or of several.
    #[tactic(auto, using(crate::proofs::WaitingLaws::both_none))]
    fn take_states(
        &mut self,
        alloc: Global,
        at: RecordAt,
        is_extended: bool,
        width: Width,
        body: Sequence<u8>,
    ) -> Result<Option<Damage>, ReplayError>
        requires given { self.old.pending ≡ [] }
        ensures takes { IfOk result (TakesRecord self.old at is_extended (content_spec.States width) body self.new) }
        ensures few { IfOk result (GivesFew self.old self.new) }
        ensures stops { IfErr result (WantsMemory self.new) }
        ensures stays { StaysHere self.old self.new }
    {
        let read = state_change_in(body.as_slice(), is_extended, width);
        self.spare = kept_block(body.into_vec());
        match read {
            Ok(change) => match tell(
                alloc,
                &self.selection,
                &mut self.dumps,
                &mut self.waiting,
                at,
                change,
            ) {
                Ok(()) => {
                    self.remarker.see_states(&self.waiting);
                    Ok(None)
                }
                Err(_) => {
                    self.state = ReadState::Spent;
                    Err(ReplayError::Memory)
                }
            },
            Err(fault) => Ok(Some(refused(at, fault))),
        }
    }

    /// Takes note of a message if it is an End-of-RIB marker.
    #[inline(always)]
    fn note_end_of_rib(&mut self, unit: &Result<BodyUnit<F>, Fault>)
        ensures { self.new ≡ self.old }
    {
        if let Ok(unit) = unit {
            if bytes_of(&unit.payload).len() <= longest_end_of_rib::<F>() {
                self.note_short(unit);
            }
        }
    }

    /// Takes note of a message that is as short as an End-of-RIB marker, if it is one and is selected.
    #[cold]
    #[inline(never)]
    fn note_short(&mut self, unit: &BodyUnit<F>)
        ensures { self.new ≡ self.old }
    {
        let selects = !self.selection.is_past(unit.time) && self.selection.takes_peer(&unit.peer);
        if selects && is_end_of_rib::<F>(bytes_of(&unit.payload)) {
            self.remarker.see_end_of_rib(unit.peer);
        }
    }

    /// Counts a record that isn't read.
    #[inline(always)]
    fn leave_aside(&mut self, body: Sequence<u8>)
        requires { self.old.aside < self.old.records }
        ensures { self.new ≡ record self.old { aside = self.old.aside + 1 } }
    {
        self.spare = kept_block(body.into_vec());
        self.aside += 1;
    }

    /// Reads a TABLE_DUMP record, or leaves it aside.
    #[cold]
    fn take_old_entry(
        &mut self,
        alloc: Global,
        at: RecordAt,
        body: Sequence<u8>,
    ) -> Result<Option<Damage>, ReplayError>
        requires given { self.old.pending ≡ [] }
        requires counted { self.old.aside < self.old.records }
        requires small { length body ≤ body_limit }
        ensures takes { (extended : Bool) → IfOk result
            (TakesRecord self.old at extended content_spec.OldEntry body self.new) }
        ensures few { IfOk result (GivesFew self.old self.new) }
        ensures stops { IfErr result (WantsMemory self.new) }
        ensures stays { StaysHere self.old self.new }
    {
        match self.selection.table_dumps() {
            TableDumpRule::Aside => {
                self.remarker.see_table_dump_aside(at.file);
                self.leave_aside(body);
                Ok(None)
            }
            TableDumpRule::Read => {
                self.remarker.see_table_dump();
                let unit = old_entry_unit(self.selection.rules(), at, body);
                self.found(alloc, at, unit)
            }
        }
    }

    /// Whether a unit is selected. Where all prefixes are chosen its time and its peer decide, and nothing is read.
    #[inline(always)]
    #[tactic(auto, using(peer_units::proofs::OpenLaws::open_concerns))]
    fn selects(&mut self, alloc: Global, unit: &BodyUnit<F>) -> Result<bool, Memory>
        ensures selected { IfOk result (λ selected. selected ≡ is_selected self.old.selection unit.now) }
        ensures same { self.new ≡ self.old }
    {
        if self.selection.is_open() {
            return Ok(!self.selection.is_past(unit.time) && self.selection.takes_peer(&unit.peer));
        }
        self.selects_by_prefix(alloc, unit)
    }

    /// Whether a unit is selected, where some prefixes are chosen.
    #[inline(never)]
    fn selects_by_prefix(&mut self, alloc: Global, unit: &BodyUnit<F>) -> Result<bool, Memory>
        ensures selected { IfOk result (λ selected. selected ≡ is_selected self.old.selection unit.now) }
        ensures same { self.new ≡ self.old }
    {
        self.selection
            .selects(alloc, &mut self.decoded, &lent(unit))
    }

    /// Keeps a unit to be returned if it is selected, or returns the refusal of its record. Where no peers are followed,
    /// neither since dumps may clear their tables nor since state changes may be theirs, nothing is noted of its peer.
    #[inline(always)]
    #[tactic(auto, using(crate::proofs::WaitingLaws::both_none, crate::proofs::HeardLaws::few_heard))]
    fn found(
        &mut self,
        alloc: Global,
        at: RecordAt,
        unit: Result<BodyUnit<F>, Fault>,
    ) -> Result<Option<Damage>, ReplayError>
        requires given { self.old.pending ≡ [] }
        requires small { IfOk unit IsSmallUnit }
        ensures found { IfOk result (λ refused. refusals refused ++ as_found self.new.pending
            ≡ found_units self.old.selection at (alone unit)) }
        ensures few { IfOk result (GivesFew self.old self.new) }
        ensures same { OnOk result (self.new ≡ record self.old {
          dumps = dumps_told self.old.selection false self.old.dumps (map (λ u. u.peer) (units_or_none (alone unit))) (alone unit);
          pending = self.new.pending;
        }) }
        ensures stops { IfErr result (WantsMemory self.new) }
        ensures stays { StaysHere self.old self.new }
    {
        match unit {
            Ok(unit) => {
                let found = if self.follows_peers {
                    self.note_peer(alloc, &unit)
                } else {
                    self.selects(alloc, &unit)
                };
                match found {
                    Ok(true) => {
                        self.waiting.put(unit);
                        Ok(None)
                    }
                    Ok(false) => {
                        if let Some(block) = block_of(unit) {
                            self.spare = kept_block(block);
                        }
                        Ok(None)
                    }
                    Err(_) => {
                        self.state = ReadState::Spent;
                        Err(ReplayError::Memory)
                    }
                }
            }
            Err(fault) => Ok(Some(refused(at, fault))),
        }
    }

    /// Whether a unit is selected. Takes note of its peer, which is known from here on, and heard if it is selected.
    #[cold]
    fn note_peer(&mut self, alloc: Global, unit: &BodyUnit<F>) -> Result<bool, Memory>
        ensures selected { IfOk result (λ selected. selected ≡ is_selected self.old.selection unit.now) }
        ensures noted { OnOk result (self.new ≡ record self.old {
          dumps = dumps_told self.old.selection false self.old.dumps (unit.now.peer ∷ []) (Ok (unit.now ∷ []));
        }) }
        ensures stays { StaysHere self.old self.new }
    {
        let rule = self.selection.state_peers();
        self.dumps.know(rule, &[unit.peer])?;
        let selected = self.selects(alloc, unit)?;
        if selected {
            self.dumps.hear_all(self.selection.ribs(), &[unit.peer])?;
        }
        Ok(selected)
    }

    /// Puts an index in force, or none if it is damaged.
    #[tactic(auto, using(crate::proofs::WaitingLaws::both_none))]
    fn take_index(
        &mut self,
        alloc: Global,
        at: RecordAt,
        body: &[u8],
    ) -> Result<Option<Damage>, ReplayError>
        requires { self.old.pending ≡ [] }
        ensures takes { (extended : Bool) → IfOk result
            (TakesRecord self.old at extended content_spec.IndexTable body.now self.new) }
        ensures few { IfOk result (GivesFew self.old self.new) }
        ensures stops { IfErr result (WantsMemory self.new) }
        ensures stays { StaysHere self.old self.new }
    {
        self.index = None;
        self.dumps.see_index();
        self.remarker.see_index();
        match peers_in(alloc, body) {
            Ok(peers) => {
                let rule = self.selection.state_peers();
                let Ok(()) = self.dumps.know(rule, peers.as_slice()) else {
                    self.state = ReadState::Spent;
                    return Err(ReplayError::Memory);
                };
                self.index = Some(Index::new(alloc, peers));
                Ok(None)
            }
            Err(AttrError::Bad(fault)) => Ok(Some(refused(at, fault))),
            Err(AttrError::Memory) => {
                self.state = ReadState::Spent;
                Err(ReplayError::Memory)
            }
        }
    }

    /// Reads a RIB record against the index in force. The entries that are selected are to be returned.
    #[tactic(auto, using(crate::proofs::WaitingLaws::both_none))]
    fn take_rib(
        &mut self,
        alloc: Global,
        at: RecordAt,
        add_path: bool,
        body: Sequence<u8>,
    ) -> Result<Option<Damage>, ReplayError>
        requires given { self.old.pending ≡ [] }
        requires small { length body ≤ body_limit }
        ensures takes { (extended : Bool) → IfOk result
            (TakesRecord self.old at extended (content_spec.Rib add_path) body self.new) }
        ensures few { IfOk result (GivesFew self.old self.new) }
        ensures stops { IfErr result (WantsMemory self.new) }
        ensures stays { StaysHere self.old self.new }
    {
        let Some(index) = &mut self.index else {
            return Ok(Some(refused(at, Fault::NoPeerIndex)));
        };
        match index.read(at, add_path, body, &self.selection) {
            Ok(()) => {}
            Err(AttrError::Bad(fault)) => return Ok(Some(refused(at, fault))),
            Err(AttrError::Memory) => {
                self.state = ReadState::Spent;
                return Err(ReplayError::Memory);
            }
        }
        let Some(index) = &self.index else {
            return Ok(None);
        };
        match follow(
            &self.selection,
            &mut self.dumps,
            &mut self.waiting,
            index,
            at,
        ) {
            Ok(()) => {
                let is_past = self.selection.is_past(at.time(0));
                let (peers, entries) = index.listed();
                self.remarker
                    .see_rib(alloc, at.file, is_past, add_path, peers, entries);
                Ok(None)
            }
            Err(_) => {
                self.state = ReadState::Spent;
                Err(ReplayError::Memory)
            }
        }
    }
}

/// Keeps the units of a state change to be returned that are selected. Takes note of the peers of all of them.
fn tell<F: Unicast>(
    alloc: Global,
    selection: &Selection<F>,
    dumps: &mut RibDumps,
    waiting: &mut Waiting<F>,
    at: RecordAt,
    change: StateChange,
) -> Result<(), Memory>
    requires { waiting.old ≡ [] }
    ensures waiting { OnOk result (waiting.new
        ≡ filter (is_selected selection.now) (change_units selection.now dumps.old.known at change)) }
    ensures dumps { OnOk result (dumps.new ≡ dumps_told selection.now false dumps.old
        (map (λ u. u.peer) (change_units selection.now dumps.old.known at change))
        (Ok (change_units selection.now dumps.old.known at change))) }
    ensures few { OnOk result (length waiting.new ≤ 65535) }
{
    let rule = selection.state_peers();
    let mut peers = told_peers(alloc, rule, dumps.known(), &change.ends)?;
    dumps.know(rule, peers.as_slice())?;
    keep_selected(selection, at.time(change.microseconds), &mut peers);
    dumps.hear_all(selection.ribs(), peers.as_slice())?;
    let told = Told::Change(change, selection.states());
    waiting.put_told(at, told, VecDeque::from_vec(peers));
    Ok(())
}

/// Keeps the peers whose state change at this time is selected.
fn keep_selected<F: Unicast>(selection: &Selection<F>, time: u64, peers: &mut Vec<PeerKey>)
    ensures { peers.new.items ≡ (if is_past selection.now.until time then [] else filter (takes_peer selection.now) peers.old.items) }
{
    if selection.is_past(time) {
        peers.clear();
    } else {
        peers.retain(|peer| selection.takes_peer(peer));
    }
}

/// Begins a dump with the record at this place that was read against an index, if it is the first one behind the index
/// table: then the clears wait to be returned. Takes note of the peers of its entries.
#[inline(always)]
fn follow<F: Unicast>(
    selection: &Selection<F>,
    dumps: &mut RibDumps,
    waiting: &mut Waiting<F>,
    index: &Index<F>,
    at: RecordAt,
) -> Result<(), Memory>
    requires { waiting.old ≡ [] }
    ensures waiting { OnOk result (waiting.new
        ≡ clears_if (may_begin selection.now dumps.old.begun (time_of at 0)) at dumps.old.heard) }
    ensures dumps { OnOk result (dumps.new
        ≡ dumps_with selection.now.ribs (may_begin selection.now dumps.old.begun (time_of at 0)) dumps.old index.now.pending) }
{
    match selection.ribs() {
        RibRule::Add => Ok(()),
        RibRule::Replace => {
            if dumps.may_begin(selection, at.time(0)) {
                waiting.put_told(at, Told::Clear, dumps.begin()?);
            }
            index.hear(dumps)
        }
    }
}

/// Returns the refusal of a record.
pub(super) fn refused(at: RecordAt, fault: Fault) -> Damage
    ensures { found_spec.Refused result ≡ refused_at at fault }
{
    Damage {
        place: at.place(None),
        fault,
    }
}
