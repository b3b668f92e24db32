//! Remarks on the records of files, for notes. No unit depends on them, and nothing is proved of them but that making
//! them is safe.

use crate::few::Few;
use crate::rib::ListedEntry;
use crate::waiting::Waiting;
use bgp_update::Unicast;
use peer_units::PeerKey;
use std::alloc::Global;
use std::collections::BTreeSet;

/// The most files that are told by their numbers.
const MOST_FILES: usize = 5;

/// The most types of records that are told.
const MOST_TYPES: usize = 5;

/// TABLE_DUMP.
const TABLE_DUMP: u16 = 12;

/// TABLE_DUMP_V2.
const TABLE_DUMP_V2: u16 = 13;

/// How many records are alike, and in which files they are.
#[derive(Clone, Copy, Debug, PartialEq, Eq)]
pub struct Marked {
    records: u64,
    files: usize,
    first: [usize; MOST_FILES],
    last: Option<usize>,
}

impl Marked {
    fn new() -> Marked {
        Marked {
            records: 0,
            files: 0,
            first: [0; MOST_FILES],
            last: None,
        }
    }

    /// How many records there are.
    pub fn records(&self) -> u64 {
        self.records
    }

    /// How many files have one.
    pub fn files(&self) -> usize {
        self.files
    }

    /// The first five of these files, numbered from 0, or all if there are fewer.
    pub fn first_files(&self) -> &[usize] {
        &self.first[..self.files.min(MOST_FILES)]
    }

    /// Counts a record of this file. Those of a file come one after the other.
    fn add(&mut self, file: usize) {
        self.records = self.records.saturating_add(1);
        if self.last == Some(file) {
            return;
        }
        self.last = Some(file);
        if let Some(place) = self.first.get_mut(self.files) {
            *place = file;
        }
        self.files = self.files.saturating_add(1);
    }
}

/// A type and a subtype of records.
#[derive(Clone, Copy, Debug, PartialEq, Eq)]
pub struct RecordType {
    pub kind: u16,
    pub subtype: u16,
}

/// Records of types that aren't read, in which files they are, and of which types they are.
#[derive(Clone, Copy, Debug, PartialEq, Eq)]
pub struct Unread {
    records: Marked,
    types: [Option<RecordType>; MOST_TYPES],
    has_others: bool,
}

impl Unread {
    fn new() -> Unread {
        Unread {
            records: Marked::new(),
            types: [None; MOST_TYPES],
            has_others: false,
        }
    }

    /// How many records there are, and in which files they are.
    pub fn records(&self) -> &Marked {
        &self.records
    }

    /// The first five types, or all if there are fewer.
    pub fn first_types(&self) -> &[Option<RecordType>] {
        &self.types
    }

    /// Whether there are further types.
    pub fn has_others(&self) -> bool {
        self.has_others
    }

    /// Counts a record of this type in this file.
    fn add(&mut self, file: usize, record_type: RecordType) {
        self.records.add(file);
        for place in &mut self.types {
            match place {
                Some(named) if *named != record_type => {}
                Some(_) => return,
                None => {
                    *place = Some(record_type);
                    return;
                }
            }
        }
        self.has_others = true;
    }
}

/// What is remarkable about the records of files.
#[derive(Clone, Copy, Debug, PartialEq, Eq)]
pub struct Remarks {
    /// RIB records of unicast routes of the family that were read (RFC 6396, 4.2 and 4.3.2; RFC 8050, 4).
    pub ribs: u64,
    /// RIB records of unicast routes of the other family, which are set aside.
    pub other_family: Marked,
    /// TABLE_DUMP records of the family that are set aside.
    pub table_dumps: Marked,
    /// Records that hold nothing which is read for either family.
    pub unread: Unread,
    /// RIB dumps: RIB records that are the first ones behind an index table, and aren't past the last second.
    pub dumps: Marked,
    /// RIB records without path identifiers of which two entries are one peer's.
    pub repeats: Marked,
    /// Peers whose End-of-RIB marker came again with no state change between (RFC 4724, 2).
    pub begun_again: Few<PeerKey>,
    /// Whether memory was refused for some of this, which is then missing.
    pub is_partial: bool,
}

/// Looks at records for what is remarkable.
#[derive(Drop)]
pub(crate) struct Remarker {
    remarks: Remarks,
    /// Whether a RIB record of the index table in force was seen.
    is_dump_begun: bool,
    /// For each number of a peer, the number of the RIB record that named it last.
    named_by: Option<Vec<u64>>,
    /// The peers whose End-of-RIB marker came since their last state change.
    ended: BTreeSet<PeerKey>,
    /// Those of `begun_again`.
    begun_again: BTreeSet<PeerKey>,
}

impl Remarker {
    pub(crate) fn new(alloc: Global) -> Remarker {
        Remarker {
            remarks: Remarks {
                ribs: 0,
                other_family: Marked::new(),
                table_dumps: Marked::new(),
                unread: Unread::new(),
                dumps: Marked::new(),
                repeats: Marked::new(),
                begun_again: Few::new(),
                is_partial: false,
            },
            is_dump_begun: false,
            named_by: None,
            ended: BTreeSet::new(alloc),
            begun_again: BTreeSet::new(alloc),
        }
    }

    /// What was remarkable so far.
    pub(crate) fn remarks(&self) -> &Remarks {
        &self.remarks
    }

    /// Takes note of an index table.
    pub(crate) fn see_index(&mut self) {
        self.is_dump_begun = false;
    }

    /// Takes note of a record that is set aside and is of a type that is none of the family's.
    #[cold]
    #[inline(never)]
    pub(crate) fn see_aside(&mut self, file: usize, record_type: RecordType) {
        match (record_type.kind, record_type.subtype) {
            (TABLE_DUMP, 1 | 2) | (TABLE_DUMP_V2, 2 | 4 | 8 | 10) => {
                self.remarks.other_family.add(file);
            }
            _ => self.remarks.unread.add(file, record_type),
        }
    }

    /// Takes note of a TABLE_DUMP record of the family that is set aside.
    #[cold]
    pub(crate) fn see_table_dump_aside(&mut self, file: usize) {
        self.remarks.table_dumps.add(file);
    }

    /// Takes note of a TABLE_DUMP record of the family that is read.
    pub(crate) fn see_table_dump(&mut self) {
        self.remarks.ribs = self.remarks.ribs.saturating_add(1);
    }

    /// Takes note of an End-of-RIB marker of this peer.
    pub(crate) fn see_end_of_rib(&mut self, peer: PeerKey) {
        let is_first = match self.ended.insert(peer) {
            Ok(is_first) => is_first,
            Err(_) => {
                self.remarks.is_partial = true;
                return;
            }
        };
        if is_first {
            return;
        }
        match self.begun_again.insert(peer) {
            Ok(true) => self.remarks.begun_again.add(peer),
            Ok(false) => {}
            Err(_) => self.remarks.is_partial = true,
        }
    }

    /// Takes note of state changes, which are the units to be returned.
    pub(crate) fn see_states<F: Unicast>(&mut self, changes: &Waiting<F>) {
        if self.ended.is_empty() {
            return;
        }
        if let Some(unit) = changes.lend() {
            self.ended.remove(&unit.peer);
        }
        for peer in changes.others().iter() {
            self.ended.remove(peer);
        }
    }

    /// Takes note of a RIB record with these entries, against an index table of this many peers, and whether it is past
    /// the last second.
    pub(crate) fn see_rib(
        &mut self,
        alloc: Global,
        file: usize,
        is_past: bool,
        add_path: bool,
        peers: usize,
        entries: &[ListedEntry],
    ) {
        self.remarks.ribs = self.remarks.ribs.saturating_add(1);
        if !self.is_dump_begun && !is_past {
            self.is_dump_begun = true;
            self.remarks.dumps.add(file);
        }
        if !add_path && self.names_twice(alloc, peers, entries) {
            self.remarks.repeats.add(file);
        }
    }

    /// Whether two of the entries are one peer's.
    fn names_twice(&mut self, alloc: Global, peers: usize, entries: &[ListedEntry]) -> bool {
        let record = self.remarks.ribs;
        let named_by = match &mut self.named_by {
            Some(named_by) => named_by,
            None => self.named_by.insert(Vec::new(alloc)),
        };
        if named_by.len() < peers && named_by.resize(peers, 0).is_err() {
            self.remarks.is_partial = true;
            return false;
        }
        let mut is_twice = false;
        for entry in entries {
            if let Some(last) = named_by.get_mut(entry.peer as usize) {
                is_twice |= *last == record;
                *last = record;
            }
        }
        is_twice
    }
}
