//! The records of a prefix.

ghost use Rattle.std.specs.Prelude.{◌≡◌, ◌+◌, ◌^◌, ◌<◌, ◌≤◌, ◌∷◌, ◌++◌, [], not, length, map, IfOk, OnOk, if◌then◌else◌};
ghost use Rattle.mrt_body.specs.RibRecords.{entry_bytes};
ghost use Rattle.mrt_writing.specs.RouteAttributes.{entry_most};
ghost use Rattle.mrt_writing.specs.RibRecords.{entry_field, written_entry};
ghost use Rattle.table_dumps.specs.Checkpoints.{closed, fits_record, have_identifiers, parts_of, record_split};
ghost use Rattle.checkpoint_writing.specs.Dumping.{AreShort, Grows, IsOpenPart, closed_by, next_part, part_of, parts_bytes};

use crate::cursor::PeerRoute;
use crate::waiting::put_record;
use bgp_prefix::Prefix;
use mrt_frame::{ReplayError, Sink};
use mrt_writing::{RecordKind, WideAddress, push_entry_attributes, push_rib_entry, push_rib_head};
use std::alloc::Global;

/// How many bytes the body of a record has at most.
const BODY_MOST: usize = 16_777_216;

/// How many entries a record has at most (RFC 6396, 4.3.2).
const ENTRIES_MOST: usize = 65_535;

/// The records of prefixes on their way to a writer.
#[derive(Drop)]
pub(crate) struct PrefixRecords {
    /// The time of each record, in seconds since 1970 UTC.
    pub(crate) seconds: u32,
    /// The number of the next record.
    pub(crate) sequence: u64,
    /// Records that wait to be written.
    pub(crate) waiting: Vec<u8>,
    /// The entries of a record that is not complete.
    entries: Vec<u8>,
    /// The attributes of a route.
    attributes: Vec<u8>,
    /// What stands before the entries.
    head: Vec<u8>,
}

/// Whether any route has an identifier.
fn have_identifiers(routes: &[PeerRoute<'_>]) -> bool
    ensures { result ≡ have_identifiers routes.now }
{
    for route in routes {
        if route.id != 0 {
            return true;
        }
    }
    false
}

/// Where the open part begins: at the route at this index, if it didn't fit into it.
fn part_start(fits: bool, from: usize, at: usize) -> usize
    ensures { result ≡ (if fits then from else at) }
{
    if fits { from } else { at }
}

/// How many bytes an entry has whose attributes have so many (RFC 6396, 4.3.4; RFC 8050, 4).
fn entry_size(add_path: bool, attributes: usize) -> usize
    requires { attributes < 256 ^ 2 }
    ensures { result ≡ (if add_path then 12 else 8) + attributes }
{
    if add_path {
        12 + attributes
    } else {
        8 + attributes
    }
}

impl PrefixRecords {
    /// Before the first record. Allocates nothing.
    pub(crate) fn new(alloc: Global, seconds: u32) -> PrefixRecords
        ensures seconds { result.seconds ≡ seconds }
        ensures sequence { result.sequence ≡ 0 }
        ensures waiting { result.waiting.items ≡ [] }
    {
        PrefixRecords {
            seconds,
            sequence: 0,
            waiting: Vec::new(alloc),
            entries: Vec::new(alloc),
            attributes: Vec::new(alloc),
            head: Vec::new(alloc),
        }
    }

    /// Encodes the attributes of a route.
    fn encode<F: WideAddress>(&mut self, route: &PeerRoute<'_>) -> Result<(), ReplayError>
        requires { length (entry_field F.family route.now.route) ≤ entry_most }
        ensures attributes { OnOk result (self.new.attributes.items ≡ entry_field F.family route.now.route) }
        ensures others { self.new ≡ record self.old { attributes = self.new.attributes } }
    {
        self.attributes.clear();
        push_entry_attributes::<F>(&mut self.attributes, &route.route)?;
        Ok(())
    }

    /// Whether the record has room for the route whose attributes are encoded.
    fn has_room<F: WideAddress>(
        &self,
        add_path: bool,
        prefix: &Prefix<F>,
        part: &[PeerRoute<'_>],
        route: &PeerRoute<'_>,
    ) -> bool
        requires begun { IsOpenPart F.family add_path self.now.seconds part.now self.now.entries.items }
        requires attributes { self.now.attributes.items ≡ entry_field F.family route.now.route }
        requires short { length self.now.attributes.items ≤ entry_most }
        ensures { result ≡ fits_record F.family add_path prefix.now (part.now ++ route.now ∷ []) }
    {
        let head = 7 + prefix.len().div_ceil(8) as usize;
        let entry = entry_size(add_path, self.attributes.len());
        part.len() < ENTRIES_MOST && head + self.entries.len() + entry <= BODY_MOST
    }

    /// Adds the entry of the route whose attributes are encoded.
    fn push_entry(&mut self, add_path: bool, route: &PeerRoute<'_>) -> Result<(), ReplayError>
        requires { length self.old.attributes.items < 256 ^ 2 }
        ensures entry { OnOk result (self.new.entries.items ≡ self.old.entries.items ++ entry_bytes add_path (record {
          peer = route.now.peer;
          originated = self.old.seconds;
          identifier = route.now.id;
          attributes = self.old.attributes.items;
        })) }
        ensures others { self.new ≡ record self.old { entries = self.new.entries } }
    {
        push_rib_entry(
            &mut self.entries,
            add_path,
            route.peer,
            self.seconds,
            route.id,
            self.attributes.as_slice(),
        )?;
        Ok(())
    }

    /// Completes the record of these routes, unless there are none.
    fn close<F: WideAddress, W: Sink>(
        &mut self,
        out: &mut W,
        add_path: bool,
        prefix: &Prefix<F>,
        part: &[PeerRoute<'_>],
    ) -> Result<(), ReplayError>
        requires { IsOpenPart F.family add_path self.old.seconds part.now self.old.entries.items }
        ensures records { OnOk result (Grows (W.contents out.old) self.old.waiting.items (W.contents out.new) self.new.waiting.items
            (parts_bytes F.family self.old.seconds self.old.sequence (map (part_of add_path prefix.now) (closed part.now)))) }
        ensures sequence { OnOk result (self.new.sequence ≡ self.old.sequence + length (closed part.now)) }
        ensures entries { OnOk result (self.new.entries.items ≡ []) }
        ensures attributes { self.new.attributes.items ≡ self.old.attributes.items }
        ensures seconds { self.new.seconds ≡ self.old.seconds }
    {
        if part.is_empty() {
            return Ok(());
        }
        let Ok(sequence) = u32::try_from(self.sequence) else {
            return Err(ReplayError::Memory);
        };
        self.head.clear();
        push_rib_head(&mut self.head, sequence, prefix, part.len() as u16)?;
        put_record::<F, W>(
            out,
            &mut self.waiting,
            self.seconds,
            RecordKind::Rib { add_path },
            self.head.as_slice(),
            self.entries.as_slice(),
        )?;
        self.sequence += 1;
        self.entries.clear();
        Ok(())
    }

    /// Completes the record of these routes, if it has no room for the route whose attributes are encoded. Returns
    /// whether it has.
    fn make_room<F: WideAddress, W: Sink>(
        &mut self,
        out: &mut W,
        add_path: bool,
        prefix: &Prefix<F>,
        part: &[PeerRoute<'_>],
        route: &PeerRoute<'_>,
    ) -> Result<bool, ReplayError>
        requires begun { IsOpenPart F.family add_path self.old.seconds part.now self.old.entries.items }
        requires attributes { self.old.attributes.items ≡ entry_field F.family route.now.route }
        requires short { length self.old.attributes.items ≤ entry_most }
        ensures fits { IfOk result (λ fits. fits ≡ fits_record F.family add_path prefix.now (part.now ++ route.now ∷ [])) }
        ensures records { IfOk result (λ fits. Grows (W.contents out.old) self.old.waiting.items (W.contents out.new) self.new.waiting.items
            (parts_bytes F.family self.old.seconds self.old.sequence (map (part_of add_path prefix.now) (closed_by fits part.now)))) }
        ensures sequence { IfOk result (λ fits. self.new.sequence ≡ self.old.sequence + length (closed_by fits part.now)) }
        ensures entries { IfOk result (λ fits. self.new.entries.items ≡ (if fits then self.old.entries.items else [])) }
        ensures attributes { self.new.attributes.items ≡ self.old.attributes.items }
        ensures seconds { self.new.seconds ≡ self.old.seconds }
    {
        if self.has_room(add_path, prefix, part, route) {
            return Ok(true);
        }
        self.close(out, add_path, prefix, part)?;
        Ok(false)
    }

    /// Adds a route to the record of these, or to a next one if it has no room. Returns whether it has.
    fn put_route<F: WideAddress, W: Sink>(
        &mut self,
        out: &mut W,
        add_path: bool,
        prefix: &Prefix<F>,
        part: &[PeerRoute<'_>],
        route: &PeerRoute<'_>,
    ) -> Result<bool, ReplayError>
        requires begun { IsOpenPart F.family add_path self.old.seconds part.now self.old.entries.items }
        requires short { length (entry_field F.family route.now.route) ≤ entry_most }
        ensures fits { IfOk result (λ fits. fits ≡ fits_record F.family add_path prefix.now (part.now ++ route.now ∷ [])) }
        ensures records { IfOk result (λ fits. Grows (W.contents out.old) self.old.waiting.items (W.contents out.new) self.new.waiting.items
            (parts_bytes F.family self.old.seconds self.old.sequence (map (part_of add_path prefix.now) (closed_by fits part.now)))) }
        ensures sequence { IfOk result (λ fits. self.new.sequence ≡ self.old.sequence + length (closed_by fits part.now)) }
        ensures begun { IfOk result (λ fits.
            IsOpenPart F.family add_path self.old.seconds (next_part fits part.now route.now) self.new.entries.items) }
        ensures seconds { self.new.seconds ≡ self.old.seconds }
    {
        self.encode::<F>(route)?;
        let fits = self.make_room(out, add_path, prefix, part, route)?;
        self.push_entry(add_path, route)?;
        Ok(fits)
    }

    /// Adds the records of all routes of a prefix, by peer and identifier: with identifiers, if a route has one.
    pub(crate) fn put_prefix<F: WideAddress, W: Sink>(
        &mut self,
        out: &mut W,
        prefix: &Prefix<F>,
        routes: &[PeerRoute<'_>],
    ) -> Result<(), ReplayError>
        requires { AreShort F.family routes.now }
        ensures records { OnOk result (Grows (W.contents out.old) self.old.waiting.items (W.contents out.new) self.new.waiting.items
            (parts_bytes F.family self.old.seconds self.old.sequence (parts_of (record_split F.family prefix.now) prefix.now routes.now))) }
        ensures sequence { OnOk result (self.new.sequence
            ≡ self.old.sequence + length (parts_of (record_split F.family prefix.now) prefix.now routes.now)) }
        ensures seconds { self.new.seconds ≡ self.old.seconds }
    {
        let add_path = have_identifiers(routes);
        self.entries.clear();
        let mut from = 0;
        for at in 0..routes.len() {
            let fits = self.put_route(out, add_path, prefix, &routes[from..at], &routes[at])?;
            from = part_start(fits, from, at);
        }
        self.close(out, add_path, prefix, &routes[from..])?;
        Ok(())
    }
}
